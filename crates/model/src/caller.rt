use base_value::Id;

/// Who makes a request.
#[derive(Clone, Copy)]
pub struct Caller {
    /// The number of the organisation.
    pub org: u32,
    /// The user's id.
    pub user: Id,
    /// Whether the user administers the organisation.
    pub admin: bool,
}

use base_value::Text;

/// Deletes a record of the object with this name, with its details, the details of these, and so on. It answers nothing.
///
/// It is refused with the refusal of the first rule that refuses it: by the object, by the record, by the user's level on it, by a
/// record that stays and holds one that goes, and where too many would go or lose a lookup. The level is asked on the record that is
/// named alone. Lookups to what goes become null, and its manual shares end.
#[derive(Drop)]
pub struct Delete<'a, R> {
    /// What the user who asks may do.
    pub rights: &'a R,
    /// When it is asked, in seconds from 1970-01-01T00:00:00Z.
    pub now: i64,
    /// The object's name.
    pub object: &'a Text,
    /// The record's id, in 15 characters or in 18.
    pub key: &'a Text,
}

use base_value::{Id, Items, Value};

/// A record: its name and the values of its custom fields, with what every record has.
#[derive(Drop)]
pub struct Record {
    /// Its id.
    pub id: Id,
    /// Its owner, which a detail doesn't have.
    pub owner: Option<Id>,
    /// When it was made, in seconds from 1970-01-01T00:00:00Z.
    pub created: i64,
    /// When it was changed last, in seconds from 1970-01-01T00:00:00Z.
    pub modified: i64,
    /// The name's value, and then those of the custom fields in their order.
    pub values: Items<Value>,
}

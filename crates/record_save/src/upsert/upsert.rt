use base_value::{Id, Text};
use model::Assignment;
use record_input::Found;

/// What an upsert answers: the record's id, and whether it was made.
#[derive(Drop)]
pub struct Upserted {
    pub id: Id,
    pub created: bool,
}

/// Gives the record that has a value in a unique field other values, or makes one with it. It answers the record's id, and whether it
/// was made.
///
/// It is refused with the refusal of the first rule that refuses it: by the object, by the unique field, by its value, and then by
/// the user's level on the record that has the value and as an update of it, or as a create where none has it. What is given includes the value: the body may give
/// that field the same value again, and no other.
#[derive(Drop)]
pub struct Upsert<'a, R> {
    /// What the user who asks may do.
    pub rights: &'a R,
    /// The user who asks, and who owns a record that is made unless another owner is given.
    pub user: Id,
    /// When it is asked, in seconds from 1970-01-01T00:00:00Z.
    pub now: i64,
    /// The object's name.
    pub object: &'a Text,
    /// The unique field's name.
    pub key: &'a Text,
    /// The value as a text; none if what was given is no text.
    pub text: Option<Text>,
    /// What is given to the record's fields.
    pub given: &'a [Assignment],
    /// What was found for the references that are given by a unique field.
    pub found: &'a [Found<'a>],
}

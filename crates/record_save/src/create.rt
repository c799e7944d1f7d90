use base_value::{Id, Text};
use model::Assignment;
use record_input::Found;

/// Makes a record of the object with this name, whatever the case of its ASCII letters. It answers the record's id.
///
/// It is refused with the refusal of the first rule that refuses it: by the object, by the names and the values that are given, by
/// required fields, by what the record refers to, by its master, by the object's validation rules, by unique values and by limits.
#[derive(Drop)]
pub struct Create<'a, R> {
    /// What who asks may do.
    pub rights: &'a R,
    /// Who asks, and owns the record unless another owner is given.
    pub user: Id,
    /// When it is asked, in seconds from 1970-01-01T00:00:00Z.
    pub now: i64,
    /// The object's name.
    pub object: &'a Text,
    /// What is given to the record's fields.
    pub given: &'a [Assignment],
    /// What was found for the references that are given by a unique field.
    pub found: &'a [Found<'a>],
}

ghost use Rattle.record_input.specs.Given.{IsInJson};

use base_value::{Id, Text};
use model::Assignment;

/// Gives a record of the object with this name other values. It answers nothing.
///
/// It is refused with the refusal of the first rule that refuses it: by the object, by the record and the user's level on it, by the
/// names and the values that are given, by another owner, by required fields, by what the record refers to, by its master, by a
/// change of a field's type that has copied its value, by the object's validation rules, and by unique values. Where the record gets
/// another owner, its manual shares end.
#[derive(Drop)]
pub struct Update<'a, R> {
    /// What who asks may do.
    pub rights: &'a R,
    /// Who asks.
    pub user: Id,
    /// When it is asked, in seconds from 1970-01-01T00:00:00Z.
    pub now: i64,
    /// The object's name.
    pub object: &'a Text,
    /// The record's id, in 15 characters or in 18.
    pub key: &'a Text,
    /// What is given to the record's fields.
    pub given: &'a [Assignment],
    pub ghost in_json: { IsInJson given.now },
}

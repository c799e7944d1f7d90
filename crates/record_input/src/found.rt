//! References by a unique field of their target.

ghost use Rattle.std.specs.Prelude.{◌≡◌, IsTrue, Some};
ghost use Rattle.std.specs.Option.{option_map};
ghost use Rattle.std.specs.Str.{chars};
ghost use Rattle.record_input.specs.Given.{found_named};
ghost use Rattle.record_input.specs.declared.found.Found.{Found};
ghost use Rattle.record_input.specs.inner.Found.{found_by, reference_for, reference_by_id};
ghost use Rattle.record_input.specs.inner.Read.{Reads};
ghost use Rattle.base_value.specs.Types.{is_type};

use crate::texts::{or_refusal, read_text, wrong_type};
use crate::unread::Unread;
use base_value::{FieldType, Id, Value, is_type};
use model::same_name;
use std::alloc::Global;

/// What was found for a reference: the record of its target that has a value in a unique field.
#[derive(Drop)]
pub struct Found<'a> {
    /// The reference's name as it is declared.
    pub name: &'a str,
    /// The type of the unique field.
    pub kind: &'a FieldType,
    /// The record's id, if a record has the value.
    pub id: Option<Id>,
}

// The first entry with this name.
fn found_named<'a>(found: &'a [Found<'a>], name: &str) -> Option<&'a Found<'a>>
    ensures { option_map (λ x. x.now) result ≡ found_named found.now (chars name.now) }
{
    found.iter().find(|x| same_name(x.name, name))
}

// The reference to the record with this id, or to none.
fn reference_by_id(id: Option<Id>) -> Value
    ensures { result ≡ reference_by_id id }
{
    match id {
        None => Value::Ref(Id::new([b'0', b'0', b'0'], 0)),
        Some(id) => Value::Ref(id),
    }
}

// The reference for a value that was read: null finds null.
fn reference_for(found: &Found<'_>, value: &Value) -> Value
    ensures { result ≡ reference_for found.now value.now }
{
    match value {
        Value::Null => Value::Null,
        _ => reference_by_id(found.id),
    }
}

// The reference for a text, which is read by the unique field.
fn read_for(alloc: Global, name: &str, found: &Found<'_>, text: &str) -> Result<Value, Unread>
    requires { IsTrue (is_type found.now.kind.now) }
    ensures { Reads (found_by found.now (chars name.now) (chars text.now)) result }
{
    let kind = found.kind;
    let read = read_text(alloc, kind, text);
    match or_refusal(alloc, name, kind, text, read) {
        Ok(value) => Ok(reference_for(found, &value)),
        Err(unread) => Err(unread),
    }
}

// The same, where the type of the unique field is within its bounds.
fn read_by(alloc: Global, name: &str, found: &Found<'_>, text: &str) -> Result<Value, Unread>
    ensures { IsTrue (is_type found.now.kind.now) → Reads (found_by found.now (chars name.now) (chars text.now)) result }
{
    if is_type(found.kind) {
        read_for(alloc, name, found, text)
    } else {
        Err(Unread::Refused(wrong_type(alloc, name)?))
    }
}

/// What a text finds for the reference with this name. Where nothing is told of it, it is refused as of a wrong type.
pub(crate) fn read_found(
    alloc: Global,
    name: &str,
    found: &[Found<'_>],
    text: &str,
) -> Result<Value, Unread>
    ensures { (x : Found) → found_named found.now (chars name.now) ≡ Some x → IsTrue (is_type x.kind.now)
        → Reads (found_by x (chars name.now) (chars text.now)) result }
{
    match found_named(found, name) {
        Some(found) => read_by(alloc, name, found, text),
        None => Err(Unread::Refused(wrong_type(alloc, name)?)),
    }
}

//! What is given to a field, read.

ghost use Rattle.std.specs.Prelude.{◌≡◌, [], IsTrue, MatchResult};
ghost use Rattle.std.specs.List.{find};
ghost use Rattle.std.specs.Option.{option_map};
ghost use Rattle.std.specs.Str.{chars};
ghost use Rattle.formula.specs.Meaning.{value_at};
ghost use Rattle.record_input.specs.Given.{FindsFor, IsKnown, all_given, key_in};
ghost use Rattle.record_input.specs.declared.unread.Unread.TheVariants.{Memory};
ghost use Rattle.record_input.specs.inner.Read.{JudgesValue, Reads, ReadsGiven};
ghost use Rattle.model.specs.Edits.{given_to};
ghost use Rattle.model.specs.Fields.{Site, column, of_type, same_name};
ghost use Rattle.model.specs.Given.{read_given};
ghost use Rattle.model.specs.Keys.{with_key};
ghost use Rattle.model.specs.Tenant.{Tenant};
ghost use Rattle.base_value.specs.Types.{is_type};
ghost use Rattle.base_value.specs.declared.value.FieldType.{FieldType};

use crate::found::{Found, read_found};
use crate::json::value_in_json;
use crate::key::{AllGiven, UpsertKey};
use crate::texts::wrong_type;
use crate::unread::Unread;
use base_value::{FieldType, Value, is_type};
use model::{Assignment, Given, Record, same_name};
use std::alloc::Global;

// A copy of a value that needs no reading.
fn copy_of(alloc: Global, value: &Value) -> Result<Value, Unread>
    ensures { MatchResult result (λ copy. copy ≡ value.now) (λ e. e ≡ Memory) }
{
    Ok(value.copy(alloc)?)
}

/// The value of what is given to a field with this name and type.
pub(crate) fn read_given(
    alloc: Global,
    found: &[Found<'_>],
    name: &str,
    kind: &FieldType,
    given: &Given,
) -> Result<Value, Unread>
    ensures { IsTrue (is_type kind.now) → (t : Tenant) (at : Site)
        → IsKnown t found.now (column (chars name.now) (of_type kind.now) at) given.now
        → Reads (read_given t (column (chars name.now) (of_type kind.now) at) given.now) result }
{
    match given {
        Given::Read(value) => copy_of(alloc, value),
        Given::Json(json) => {
            if is_type(kind) {
                value_in_json(alloc, name, kind, json)
            } else {
                Err(Unread::Refused(wrong_type(alloc, name)?))
            }
        }
        Given::Find { text, .. } => read_found(alloc, name, found, text.as_str()),
    }
}

// What is given to the field with this name, whatever the case of its letters: the first, if there are several.
fn assignment_to<'a>(given: &'a [Assignment], name: &str) -> Option<&'a Assignment>
    ensures { option_map (λ x. x.now) result ≡ find (λ x. same_name x.field (chars name.now)) given.now }
{
    given.iter().find(|x| same_name(x.field.as_str(), name))
}

// What the key gives to the field with this name, if the key is that field's.
fn key_to(alloc: Global, key: &Option<UpsertKey<'_>>, name: &str) -> Option<Result<Value, Unread>>
    ensures { (t : Tenant) (kind : FieldType) (at : Site)
        → ReadsGiven (given_to t (with_key (option_map key_in key.now) []) (column (chars name.now) (of_type kind) at)) result }
{
    match key {
        None => None,
        Some(key) => {
            if same_name(key.field.name.as_str(), name) {
                Some(copy_of(alloc, key.value))
            } else {
                None
            }
        }
    }
}

/// What is read of what is given to the field with this name and type, if anything is: by the body, or else by the key.
pub(crate) fn value_to(
    alloc: Global,
    given: &AllGiven<'_>,
    name: &str,
    kind: &FieldType,
) -> Option<Result<Value, Unread>>
    ensures { IsTrue (is_type kind.now) → (t : Tenant) (at : Site)
        → FindsFor t given.now.found.now given.now.body.now (column (chars name.now) (of_type kind.now) at)
        → ReadsGiven (given_to t (all_given given.now) (column (chars name.now) (of_type kind.now) at)) result }
{
    match assignment_to(given.body, name) {
        None => key_to(alloc, &given.key, name),
        Some(assignment) => Some(read_given(alloc, given.found, name, kind, &assignment.given)),
    }
}

// A copy of the value that a record has at a position, which is null past the last.
fn old_value(alloc: Global, old: &Record, position: usize) -> Result<Value, Unread>
    ensures { MatchResult result (λ value. value ≡ value_at old.now.values position) (λ e. e ≡ Memory) }
{
    match old.values.as_slice().get(position) {
        None => Ok(Value::Null),
        Some(value) => copy_of(alloc, value),
    }
}

/// The value of the field with this name and type: what is given, or else what the record had at its position.
pub(crate) fn value_over(
    alloc: Global,
    given: &AllGiven<'_>,
    name: &str,
    kind: &FieldType,
    old: &Record,
    position: usize,
) -> Result<Value, Unread>
    ensures { IsTrue (is_type kind.now) → (t : Tenant) (at : Site)
        → FindsFor t given.now.found.now given.now.body.now (column (chars name.now) (of_type kind.now) at)
        → JudgesValue (given_to t (all_given given.now) (column (chars name.now) (of_type kind.now) at))
        (value_at old.now.values position) result }
{
    match value_to(alloc, given, name, kind) {
        Some(read) => read,
        None => old_value(alloc, old, position),
    }
}

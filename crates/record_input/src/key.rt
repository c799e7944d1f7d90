//! The key of an upsert: a unique field, and the value that the request gives it.

ghost use Rattle.std.specs.Prelude.{◌≡◌, ◌&&◌, IfOk, IsTrue, Some};
ghost use Rattle.std.specs.Option.{option_map};
ghost use Rattle.std.specs.Str.{chars};
ghost use Rattle.record_input.specs.Given.{NamesUnique};
ghost use Rattle.model.specs.Fields.{of_type, same_name};
ghost use Rattle.model.specs.Given.{or_refusal};
ghost use Rattle.model.specs.Upserts.{declared_name, key_value};
ghost use Rattle.schema_rules.specs.Objects.{field_of_place, object_of_layout};
ghost use Rattle.base_value.specs.Reading.{read_value};
ghost use Rattle.base_value.specs.Types.{is_type};
ghost use Rattle.base_value.specs.Values.{valid};

use crate::columns::column_named;
use crate::found::Found;
use crate::texts::{or_refusal, read_text, wrong_type};
use crate::unread::ended;
use base_value::{Text, Value, character_count};
use model::{Assignment, Refusal, same_name};
use std::alloc::{AllocError, Global};
use store_abstraction::{FieldPlace, Layout};

/// The unique field by which an upsert looks for a record, and the value that the record is to have in it.
#[derive(Drop)]
pub struct UpsertKey<'a> {
    /// The field's number among the custom fields of its object.
    pub number: usize,
    /// The field.
    pub field: &'a FieldPlace,
    /// The value.
    pub value: &'a Value,
}

/// What is given to a record: by a body, and then by the key of an upsert, if it is one.
#[derive(Drop)]
pub struct AllGiven<'a> {
    /// The members of the body, in their order.
    pub body: &'a [Assignment],
    /// The key.
    pub key: Option<UpsertKey<'a>>,
    /// What was found for the references that the body gives by a unique field.
    pub found: &'a [Found<'a>],
}

// Whether the field is unique and has this name.
fn is_unique_named(field: &FieldPlace, name: &str) -> bool
    ensures { result ≡ (field.now.unique && same_name field.now.name (chars name.now)) }
{
    field.unique && same_name(field.name.as_str(), name)
}

/// The number among an object's custom fields of the unique one with this name, whatever the case of its letters, if there is one.
pub fn unique_named(layout: &Layout, name: &str) -> Option<usize>
    ensures { NamesUnique layout.now (chars name.now) result }
{
    let mut rest = layout.fields.as_slice();
    let mut number: usize = 0;
    'fields: while let Some((field, more)) = rest.split_first() {
        if is_unique_named(field, name) {
            return Some(number);
        }
        number += 1;
        rest = more;
    }
    None
}

/// The name of the field with this name as it is declared, or this name if the object has no such field.
///
/// # Errors
///
/// When out of memory.
pub fn declared_name(alloc: Global, layout: &Layout, name: &Text) -> Result<Text, AllocError>
    ensures { IfOk result (λ n. n ≡ declared_name (object_of_layout layout.now) name.now) }
{
    match column_named(layout, name.as_str()) {
        None => name.copy(alloc),
        Some(column) => Text::from_str(alloc, column.name),
    }
}

// The value of a text that isn't empty.
fn written_value(
    alloc: Global,
    field: &FieldPlace,
    text: &str,
) -> Result<Result<Value, Refusal>, AllocError>
    requires { IsTrue (is_type field.now.kind) }
    ensures value { IfOk result (λ r. r ≡ or_refusal field.now.name (of_type field.now.kind) (chars text.now)
        (read_value field.now.kind (chars text.now))) }
    ensures valid { IfOk result (λ r. IfOk r (λ v. IsTrue (valid field.now.kind v))) }
{
    let kind = &field.kind;
    let read = read_text(alloc, kind, text);
    ended(or_refusal(alloc, field.name.as_str(), kind, text, read))
}

// The value of a text.
#[tactic(auto, using(crate::proofs::Uniques::empty_text, crate::proofs::Uniques::written_text))]
fn text_value(
    alloc: Global,
    field: &FieldPlace,
    text: &str,
) -> Result<Result<Value, Refusal>, AllocError>
    requires { IsTrue (is_type field.now.kind) }
    ensures value { IfOk result (λ r. r ≡ key_value (field_of_place field.now) (Some (chars text.now))) }
    ensures valid { IfOk result (λ r. IfOk r (λ v. IsTrue (valid field.now.kind v))) }
{
    if character_count(text) == 0 {
        let refusal = wrong_type(alloc, field.name.as_str())?;
        Ok(Err(refusal))
    } else {
        written_value(alloc, field, text)
    }
}

/// The value that a text gives to the field by which an upsert looks for a record, or why it is refused. What isn't a text, which
/// comes as none, and the empty text are of the wrong type.
///
/// # Errors
///
/// When out of memory.
pub fn key_value(
    alloc: Global,
    field: &FieldPlace,
    text: Option<&Text>,
) -> Result<Result<Value, Refusal>, AllocError>
    requires { IsTrue (is_type field.now.kind) }
    ensures value { IfOk result (λ r. r ≡ key_value (field_of_place field.now) (option_map (λ t. t.now) text.entry)) }
    ensures valid { IfOk result (λ r. IfOk r (λ v. IsTrue (valid field.now.kind v))) }
{
    match text {
        None => {
            let refusal = wrong_type(alloc, field.name.as_str())?;
            Ok(Err(refusal))
        }
        Some(text) => text_value(alloc, field, text.as_str()),
    }
}

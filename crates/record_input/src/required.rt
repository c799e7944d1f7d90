//! Fields that must have a value.

ghost use Rattle.std.specs.Prelude.{◌≡◌, ◌&&◌, ◌||◌, IfOk, map};
ghost use Rattle.std.specs.List.{enumerate_from};
ghost use Rattle.std.specs.Option.{option_map};
ghost use Rattle.formula.specs.Meaning.{value_at};
ghost use Rattle.schema_rules.specs.Objects.{field_of_place, object_of_layout};
ghost use Rattle.record_input.specs.inner.Fields.{missing_at};
ghost use Rattle.model.specs.declared.refusal.Refusal.TheVariants as refusal;
ghost use Rattle.model.specs.Edits.{required_missing};
ghost use Rattle.model.specs.Fields.{is_master, is_null};
ghost use Rattle.model.specs.Rules.{first_of};

use crate::columns::is_master;
use base_value::{Text, Value};
use model::{Record, Refusal};
use std::alloc::{AllocError, Global};
use store_abstraction::{FieldPlace, Layout};

fn is_null(value: &Value) -> bool
    ensures { result ≡ is_null value.now }
{
    matches!(value, Value::Null)
}

// Whether the value at a position is null, as it is past the last.
fn is_null_at(values: &[Value], position: usize) -> bool
    ensures { result ≡ is_null (value_at values.now position) }
{
    match values.get(position) {
        None => true,
        Some(value) => is_null(value),
    }
}

// Whether the record has to have a value in this field, and has none.
fn is_missing(field: &FieldPlace, values: &[Value], position: usize) -> bool
    ensures { result ≡ ((field.now.required || is_master field.now.kind) && is_null (value_at values.now position)) }
{
    (field.required || is_master(&field.kind)) && is_null_at(values, position)
}

// The first of the fields whose value is missing, where the values are the name's and then theirs.
fn first_missing<'a>(fields: &'a [FieldPlace], values: &[Value]) -> Option<&'a FieldPlace>
    ensures { option_map (λ f. refusal.RequiredMissing f.now.name) result
        ≡ first_of (missing_at values.now) (enumerate_from 1 (map field_of_place fields.now)) }
{
    let mut rest = fields;
    let mut position: usize = 1;
    'fields: while let Some((field, more)) = rest.split_first() {
        if is_missing(field, values, position) {
            return Some(field);
        }
        position += 1;
        rest = more;
    }
    None
}

/// REQUIRED_FIELD_MISSING: the first required field that is null in a record of an object, if there is one.
///
/// # Errors
///
/// When out of memory.
pub fn required_missing(
    alloc: Global,
    layout: &Layout,
    item: &Record,
) -> Result<Option<Refusal>, AllocError>
    ensures { IfOk result (λ r. r ≡ required_missing (object_of_layout layout.now) item.now) }
{
    match first_missing(layout.fields.as_slice(), item.values.as_slice()) {
        None => Ok(None),
        Some(missing) => {
            let field = missing.name.copy(alloc)?;
            Ok(Some(Refusal::RequiredMissing { field }))
        }
    }
}

//! What the value in a slot is found by.

ghost use Rattle.std.specs.Prelude.{◌≡◌, ◌&&◌, IfOk, IfSome, IsTrue, None, Some, if◌then◌else◌, not};
ghost use Rattle.model.specs.Fields.{is_null, ref_of};
ghost use Rattle.record_index.specs.Changed.{index_key, reference_key, unique_key};
ghost use Rattle.record_index.specs.Made.{entry_of};
ghost use Rattle.base_value.specs.Bytes.{IsBytes};
ghost use Rattle.base_value.specs.Id.{is_id};
ghost use Rattle.base_value.specs.OrderKeys.{order_key};
ghost use Rattle.std.specs.Option.{option_map};

use base_value::{Bytes, Id, Value, order_key};
use std::alloc::{AllocError, Global};
use store_abstraction::FieldPlace;

fn is_null(value: &Value) -> bool
    ensures { result ≡ is_null value.now }
{
    matches!(value, Value::Null)
}

// The order key of a value that is kept by it, unless the value is null.
fn kept_key(alloc: Global, is_kept: bool, value: &Value) -> Result<Option<Bytes>, AllocError>
    ensures key { IfOk result (λ key. key ≡ (if is_kept && not (is_null value.now) then Some (order_key value.now) else None)) }
    ensures bytes { IfOk result (λ key. IfSome key IsBytes) }
{
    if is_kept && !is_null(value) {
        Ok(Some(order_key(alloc, value)?))
    } else {
        Ok(None)
    }
}

/// The order key of the value of a field, if it is indexed by it.
///
/// # Errors
///
/// If out of memory.
pub(crate) fn index_key(
    alloc: Global,
    field: &FieldPlace,
    value: Option<&Value>,
) -> Result<Option<Bytes>, AllocError>
    ensures key { IfOk result (λ key. key ≡ index_key (option_map (λ v. entry_of field.now v.now) value.entry)) }
    ensures bytes { IfOk result (λ key. IfSome key IsBytes) }
{
    match value {
        None => Ok(None),
        Some(value) => kept_key(alloc, field.indexed, value),
    }
}

/// The order key of the value of a field, if no other record may have it.
///
/// # Errors
///
/// If out of memory.
pub(crate) fn unique_key(
    alloc: Global,
    field: &FieldPlace,
    value: Option<&Value>,
) -> Result<Option<Bytes>, AllocError>
    ensures key { IfOk result (λ key. key ≡ unique_key (option_map (λ v. entry_of field.now v.now) value.entry)) }
    ensures bytes { IfOk result (λ key. IfSome key IsBytes) }
{
    match value {
        None => Ok(None),
        Some(value) => kept_key(alloc, field.unique, value),
    }
}

/// The id that the value of a field refers to, if it refers to one.
pub(crate) fn reference_key(field: &FieldPlace, value: Option<&Value>) -> Option<Id>
    ensures key { result ≡ reference_key (option_map (λ v. entry_of field.now v.now) value.entry) }
    ensures id { IfSome result (λ i. IsTrue (is_id i)) }
{
    match value {
        Some(Value::Ref(id)) => {
            // That these are an id's characters.
            let _ = id.as_bytes();
            Some(*id)
        }
        _ => None,
    }
}

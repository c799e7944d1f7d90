//! What a change of a field's type has copied of a record: a value in the new type.

ghost use Rattle.std.specs.Prelude.{◌≡◌, IfOk, IfSome, IsTrue, None, Some, suc};
ghost use Rattle.record_read.specs.Decoding.{has_types, kinds_in};
ghost use Rattle.formula.specs.Meaning.{value_at};
ghost use Rattle.model.specs.SoundRecords.{all_valid};
ghost use Rattle.model.specs.Updates.{is_copied};
ghost use Rattle.store_codec.specs.Plain.{FitsText};
ghost use Rattle.record_index.specs.Turned.{converts, converts_to, copied_there, copied_value};
ghost use Rattle.store_abstraction.specs.Entries.{entry_text, slot_text};
ghost use Rattle.base_value.specs.Conversion.{convert, convertible};
ghost use Rattle.base_value.specs.Printing.{is_printable};
ghost use Rattle.base_value.specs.Types.{is_type};
ghost use Rattle.base_value.specs.Values.{ref_of, valid};

use base_value::{
    ConvertFail, FieldType, Id, Phase, Text, Value, convert, convertible, is_type, print_value,
    value_laws,
};
use model::Record;
use std::alloc::{AllocError, Global};
use store_abstraction::{FieldPlace, JobPlace, Layout};

/// Whether the type of a change that copies values is within its bounds, and its field's type converts to it, as with every
/// organisation's.
pub fn converts(layout: &Layout) -> bool
    ensures { result ≡ converts layout.now }
{
    let Some(job) = &layout.job else {
        return true;
    };
    match layout.fields.get(usize::from(job.field)) {
        None => true,
        Some(field) => {
            job.phase != Phase::Copy || (is_type(&job.kind) && convertible(&field.kind, &job.kind))
        }
    }
}

/// Whether a change copies values, and has come to this record.
pub fn is_copied(job: &JobPlace, id: &Id) -> bool
    ensures { result ≡ is_copied job.now.phase job.now.cursor id.now }
{
    match (job.phase, job.cursor) {
        (Phase::Copy, Some(cursor)) => id.cmp(&cursor).is_le(),
        _ => false,
    }
}

// A value in another type, if it converts.
fn converted(
    alloc: Global,
    from: &FieldType,
    to: &FieldType,
    value: &Value,
) -> Result<Option<Value>, AllocError>
    requires from { IsTrue (is_type from.now) }
    requires to { IsTrue (is_type to.now) }
    requires convertible { IsTrue (convertible from.now to.now) }
    requires valid { IsTrue (valid from.now value.now) }
    ensures value { IfOk result (λ found. found ≡ convert to.now value.now) }
{
    match convert(alloc, from, to, value) {
        Ok(value) => Ok(Some(value)),
        Err(ConvertFail::NotConvertible) => Ok(None),
        Err(ConvertFail::Memory) => Err(AllocError),
    }
}

/// The value that a change has copied of a record, if it has come to it and the value converts.
///
/// # Errors
///
/// If out of memory.
pub fn copied_value(
    alloc: Global,
    job: &JobPlace,
    field: &FieldPlace,
    item: &Record,
) -> Result<Option<Value>, AllocError>
    requires from { IsTrue (is_type field.now.kind) }
    requires valid { IsTrue (valid field.now.kind (value_at item.now.values (suc job.now.field))) }
    requires converts { IsTrue (converts_to job.now field.now) }
    ensures value { IfOk result (λ found. found ≡ copied_value job.now item.now) }
{
    if !is_copied(job, &item.id) {
        return Ok(None);
    }
    match item.values.get(usize::from(job.field) + 1) {
        None => converted(alloc, &field.kind, &job.kind, &Value::Null),
        Some(value) => converted(alloc, &field.kind, &job.kind, value),
    }
}

// The text of a value that refers to nothing.
fn plain_text(alloc: Global, value: &Value) -> Result<Option<Text>, AllocError>
    requires printable { IsTrue (is_printable value.now) }
    requires plain { ref_of value.now ≡ None }
    ensures { IfOk result (λ text. text ≡ slot_text value.now) }
{
    match value {
        Value::Null | Value::Bool(false) | Value::Ref(_) => Ok(None),
        Value::Bool(true) => Ok(Some(Text::from_str(alloc, "1")?)),
        _ => Ok(Some(print_value(alloc, value)?)),
    }
}

/// The text of the value that a change has copied of a record.
///
/// # Errors
///
/// If out of memory.
pub(crate) fn copied_text(
    alloc: Global,
    layout: &Layout,
    job: &JobPlace,
    item: &Record,
) -> Result<Option<Text>, AllocError>
    requires types { IsTrue (has_types layout.now) }
    requires values { IsTrue (all_valid (kinds_in layout.now.fields) item.now.values) }
    requires converts { IsTrue (converts layout.now) }
    requires job { layout.now.job ≡ Some job.now }
    ensures text { IfOk result (λ text. text ≡ entry_text (copied_there layout.now job.now item.now)) }
    ensures fits { IfOk result (λ text. IfSome text FitsText) }
{
    value_laws();
    let Some(field) = layout.fields.get(usize::from(job.field)) else {
        return Ok(None);
    };
    match copied_value(alloc, job, field, item)? {
        None => Ok(None),
        Some(value) => plain_text(alloc, &value),
    }
}

//! What a record keeps when its values change: its master, and a value that a change of a field's type can copy.

ghost use Rattle.std.specs.Prelude.{◌≡◌, ◌+◌, ◌≤◌, ◌∷◌, [], IfErr, IfOk, IsTrue, length};
ghost use Rattle.std.specs.List.{enumerate_from, find};
ghost use Rattle.std.specs.Option.{option_map};
ghost use Rattle.record_read.specs.Decoding.{has_types, kinds_in};
ghost use Rattle.formula.specs.Meaning.{value_at};
ghost use Rattle.store_kv.specs.Tables.{Tables};
ghost use Rattle.store_rows.specs.declared.fail.StoreFail.TheVariants.{Memory};
ghost use Rattle.model.specs.Fields.{is_master};
ghost use Rattle.model.specs.Rules.{first_refusal};
ghost use Rattle.model.specs.SoundRecords.{all_valid};
ghost use Rattle.record_index.specs.Turned.{converts};
ghost use Rattle.record_save.specs.inner.Staying.{conflict_in, master_moved, staying_rules};
ghost use Rattle.store_abstraction.specs.Layouts.{FindsOf};
ghost use Rattle.base_value.specs.Values.{same_value};
ghost use Rattle.base_value.specs.declared.value.Value.TheVariants.{Null};

use base_value::{FieldType, Value, same_value};
use model::{Record, Refusal};
use record_index::{copied_value, is_copied};
use std::alloc::{AllocError, Global};
use store_abstraction::{FieldPlace, Layout};
use store_rows::StoreFail;

/// The first of these fields that refers to a master, where the first of them is at this position.
pub(crate) fn master_among(fields: &[FieldPlace], position: usize) -> Option<(usize, &FieldPlace)>
    requires { position + length fields.now ≤ usize.MAX }
    ensures { option_map (λ f. (f.0, f.1.now)) result ≡ find (λ f. is_master f.1.kind) (enumerate_from position fields.now) }
{
    let (field, rest) = fields.split_first()?;
    if matches!(field.kind, FieldType::Master { .. }) {
        Some((position, field))
    } else {
        master_among(rest, position + 1)
    }
}

fn is_null(value: &Value) -> bool
    ensures { result ≡ same_value value.now Null }
{
    matches!(value, Value::Null)
}

// Whether the value at a position is null, as it is past the last.
fn is_null_at(position: usize, values: &[Value]) -> bool
    ensures { result ≡ same_value Null (value_at values.now position) }
{
    match values.get(position) {
        None => true,
        Some(value) => is_null(value),
    }
}

// Whether two lists have the same value at a position.
fn same_in(position: usize, old: &[Value], new: &[Value]) -> bool
    ensures { result ≡ same_value (value_at old.now position) (value_at new.now position) }
{
    let Some(before) = old.get(position) else {
        return is_null_at(position, new);
    };
    match new.get(position) {
        None => is_null(before),
        Some(after) => same_value(before, after),
    }
}

// Whether two records have the same value at a position.
fn same_at(position: usize, old: &Record, new: &Record) -> bool
    ensures { result ≡ same_value (value_at old.now.values position) (value_at new.now.values position) }
{
    same_in(position, old.values.as_slice(), new.values.as_slice())
}

// The refusal of another master.
fn master_moved(
    alloc: Global,
    layout: &Layout,
    old: &Record,
    new: &Record,
) -> Result<Option<Refusal>, AllocError>
    ensures { IfOk result (λ rule. rule ≡ master_moved layout.now old.now new.now) }
{
    match master_among(layout.fields.as_slice(), 1) {
        Some((position, field)) if !same_at(position, old, new) => {
            let name = field.name.copy(alloc)?;
            Ok(Some(Refusal::InvalidField { name }))
        }
        _ => Ok(None),
    }
}

// The refusal of a value that doesn't convert, though a change of its field's type has come to the record.
fn conflict(alloc: Global, layout: &Layout, new: &Record) -> Result<Option<Refusal>, AllocError>
    requires types { IsTrue (has_types layout.now) }
    requires converts { IsTrue (converts layout.now) }
    requires values { IsTrue (all_valid (kinds_in layout.now.fields) new.now.values) }
    ensures { IfOk result (λ rule. rule ≡ conflict_in layout.now new.now) }
{
    let Some(job) = &layout.job else {
        return Ok(None);
    };
    let Some(field) = layout.fields.get(usize::from(job.field)) else {
        return Ok(None);
    };
    if is_copied(job, &new.id) && copied_value(alloc, job, field, new)?.is_none() {
        let field = field.name.copy(alloc)?;
        Ok(Some(Refusal::RetypeConflict { field }))
    } else {
        Ok(None)
    }
}

// The refusal of the first of these.
fn moved_or_conflict(
    alloc: Global,
    layout: &Layout,
    old: &Record,
    new: &Record,
) -> Result<Option<Refusal>, AllocError>
    requires types { IsTrue (has_types layout.now) }
    requires converts { IsTrue (converts layout.now) }
    requires values { IsTrue (all_valid (kinds_in layout.now.fields) new.now.values) }
    ensures { IfOk result (λ rule. rule
        ≡ first_refusal (master_moved layout.now old.now new.now ∷ conflict_in layout.now new.now ∷ [])) }
{
    match master_moved(alloc, layout, old, new)? {
        None => conflict(alloc, layout, new),
        refusal => Ok(refusal),
    }
}

/// The refusal of other values that a record can't get: of another master, or of a value that doesn't convert, though a change of
/// its field's type has come to the record. It reads nothing.
///
/// # Errors
///
/// `Memory` if out of memory, no other.
pub(crate) fn refused_by_old(
    alloc: Global,
    layout: &Layout,
    old: &Record,
    new: &Record,
) -> Result<Option<Refusal>, StoreFail>
    requires types { IsTrue (has_types layout.now) }
    requires converts { IsTrue (converts layout.now) }
    requires values { IsTrue (all_valid (kinds_in layout.now.fields) new.now.values) }
    ensures finds { (m : Tables) → FindsOf layout.now (λ t. first_refusal (staying_rules layout.now old.now new.now t)) m result }
    ensures cause { IfErr result (λ e. e ≡ Memory) }
{
    match moved_or_conflict(alloc, layout, old, new) {
        Ok(rule) => Ok(rule),
        Err(_) => Err(StoreFail::Memory),
    }
}

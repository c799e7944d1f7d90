//! The rows of a record that goes.

ghost use Rattle.std.specs.Prelude.{◌≡◌, ◌++◌, ◌<◌, ◌∷◌, [], IfOk, IsTrue, None, OnOk, Some, length, map, suc};
ghost use Rattle.std.specs.List.{AllByRecursion};
ghost use Rattle.record_read.specs.Decoding.{has_types, kinds_in};
ghost use Rattle.record_read.specs.Encoding.{field_of_slot};
ghost use Rattle.store_edit.specs.Rows.{spelled};
ghost use Rattle.formula.specs.Meaning.{value_at};
ghost use Rattle.store_rows.specs.Forms.{FitsForm};
ghost use Rattle.store_rows.specs.Keys.{Data, FitsKey};
ghost use Rattle.store_rows.specs.Rows.{data_form};
ghost use Rattle.model.specs.SoundRecords.{all_valid};
ghost use Rattle.record_index.specs.Changed.{slot_changes};
ghost use Rattle.record_index.specs.Made.{layout_entry};
ghost use Rattle.record_index.specs.Removed.{beside_entry, beside_value, is_left, left_value, text_value};
ghost use Rattle.record_index.specs.Removed.{removed_changes, removed_entry, values_removed};
ghost use Rattle.record_index.specs.Turned.{converts, converts_to};
ghost use Rattle.store_abstraction.specs.Plan.{slot_count};
ghost use Rattle.base_value.specs.Types.{is_type};
ghost use Rattle.base_value.specs.Values.{valid};

use crate::copied::copied_value;
use crate::made::{SLOT_COUNT, field_of_slot};
use crate::slot::RecordSlot;
use crate::turning::turn_value;
use base_value::{FieldType, Id, Phase, Text, Value, ValueFail, is_type, read_value};
use model::Record;
use std::alloc::{AllocError, Global};
use store_abstraction::{FieldPlace, JobPlace, Layout};
use store_edit::remove_row;
use store_kv::Change;
use store_rows::DataRow;

// Whether a change clears what it left, and hasn't come to this record.
fn is_left(job: &JobPlace, id: &Id) -> bool
    ensures { result ≡ is_left job.now.phase job.now.cursor id.now }
{
    match (job.phase, job.cursor) {
        (Phase::Clear, None) => true,
        (Phase::Clear, Some(cursor)) => cursor.cmp(id).is_lt(),
        _ => false,
    }
}

// The value that a text reads as, if it does.
fn text_value(alloc: Global, kind: &FieldType, text: &Text) -> Result<Option<Value>, AllocError>
    ensures { IfOk result (λ found. found ≡ text_value kind.now text.now) }
{
    if !is_type(kind) {
        return Ok(None);
    }
    match read_value(alloc, kind, text.as_str()) {
        Ok(value) => Ok(Some(value)),
        Err(ValueFail::Memory) => Err(AllocError),
        Err(_) => Ok(None),
    }
}

// What a row has in a change's slot.
fn left_value(alloc: Global, job: &JobPlace, kept: &DataRow) -> Result<Option<Value>, AllocError>
    ensures { IfOk result (λ found. found ≡ left_value job.now kept.now) }
{
    match kept.slots.texts().get(usize::from(job.twin)) {
        Some(Some(text)) => text_value(alloc, &job.kind, text),
        _ => Ok(None),
    }
}

/// What a change has of a record beside its fields: what it has copied, or what it has left and not yet cleared. `kept` is the row that
/// the record has, and `item` what it spells.
///
/// # Errors
///
/// If out of memory.
pub fn beside_value(
    alloc: Global,
    job: &JobPlace,
    field: &FieldPlace,
    kept: &DataRow,
    item: &Record,
) -> Result<Option<Value>, AllocError>
    requires from { IsTrue (is_type field.now.kind) }
    requires valid { IsTrue (valid field.now.kind (value_at item.now.values (suc job.now.field))) }
    requires converts { IsTrue (converts_to job.now field.now) }
    ensures value { IfOk result (λ found. found ≡ beside_value job.now kept.now item.now) }
{
    if is_left(job, &item.id) {
        left_value(alloc, job, kept)
    } else {
        copied_value(alloc, job, field, item)
    }
}

// The rows of what a field has in its slot.
fn remove_field(
    alloc: Global,
    layout: &Layout,
    number: usize,
    old: &Record,
    slot: u8,
    changes: &mut Vec<Change>,
) -> Result<(), AllocError>
    requires place { field_of_slot layout.now.fields slot ≡ Some number }
    requires below { number < length layout.now.fields }
    ensures changes { OnOk result (changes.new.items ≡ changes.old.items ++ map spelled
        (slot_changes layout.now.org layout.now.object old.now.id (layout_entry layout.now old.now slot) None slot)) }
    ensures fits { OnOk result (AllByRecursion (λ c. FitsKey c.0)
        (slot_changes layout.now.org layout.now.object old.now.id (layout_entry layout.now old.now slot) None slot)) }
{
    let fields = layout.fields.as_slice();
    let at = RecordSlot {
        org: layout.org,
        object: layout.object,
        id: old.id,
        slot,
    };
    let value = old.values.get(number + 1);
    turn_value(alloc, changes, &at, &fields[number], value, None)
}

// The rows of what a change of a type has in its slot.
fn remove_beside(
    alloc: Global,
    layout: &Layout,
    kept: &DataRow,
    old: &Record,
    slot: u8,
    changes: &mut Vec<Change>,
) -> Result<(), AllocError>
    requires types { IsTrue (has_types layout.now) }
    requires converts { IsTrue (converts layout.now) }
    requires old { IsTrue (all_valid (kinds_in layout.now.fields) old.now.values) }
    ensures changes { OnOk result (changes.new.items ≡ changes.old.items ++ map spelled
        (slot_changes layout.now.org layout.now.object old.now.id (beside_entry layout.now kept.now old.now slot) None slot)) }
    ensures fits { OnOk result (AllByRecursion (λ c. FitsKey c.0)
        (slot_changes layout.now.org layout.now.object old.now.id (beside_entry layout.now kept.now old.now slot) None slot)) }
{
    let Some(job) = &layout.job else {
        return Ok(());
    };
    if job.twin != slot {
        return Ok(());
    }
    let Some(field) = layout.fields.get(usize::from(job.field)) else {
        return Ok(());
    };
    let at = RecordSlot {
        org: layout.org,
        object: layout.object,
        id: old.id,
        slot,
    };
    let value = beside_value(alloc, job, field, kept, old)?;
    turn_value(alloc, changes, &at, field, value.as_ref(), None)
}

// The rows of what is in a slot.
fn remove_slot(
    alloc: Global,
    layout: &Layout,
    kept: &DataRow,
    old: &Record,
    slot: u8,
    changes: &mut Vec<Change>,
) -> Result<(), AllocError>
    requires types { IsTrue (has_types layout.now) }
    requires converts { IsTrue (converts layout.now) }
    requires old { IsTrue (all_valid (kinds_in layout.now.fields) old.now.values) }
    ensures changes { OnOk result (changes.new.items ≡ changes.old.items ++ map spelled
        (slot_changes layout.now.org layout.now.object old.now.id (removed_entry layout.now kept.now old.now slot) None slot)) }
    ensures fits { OnOk result (AllByRecursion (λ c. FitsKey c.0)
        (slot_changes layout.now.org layout.now.object old.now.id (removed_entry layout.now kept.now old.now slot) None slot)) }
{
    match field_of_slot(layout.fields.as_slice(), slot) {
        None => remove_beside(alloc, layout, kept, old, slot, changes),
        Some(number) => remove_field(alloc, layout, number, old, slot, changes),
    }
}

// The rows of what is in all slots.
fn remove_slots(
    alloc: Global,
    layout: &Layout,
    kept: &DataRow,
    old: &Record,
    changes: &mut Vec<Change>,
) -> Result<(), AllocError>
    requires types { IsTrue (has_types layout.now) }
    requires converts { IsTrue (converts layout.now) }
    requires old { IsTrue (all_valid (kinds_in layout.now.fields) old.now.values) }
    ensures changes { OnOk result (changes.new.items ≡ changes.old.items ++ map spelled (values_removed layout.now kept.now old.now slot_count)) }
    ensures fits { OnOk result (AllByRecursion (λ c. FitsKey c.0) (values_removed layout.now kept.now old.now slot_count)) }
{
    for slot in 0..SLOT_COUNT {
        remove_slot(alloc, layout, kept, old, slot, changes)?;
    }
    Ok(())
}

// The row of the record itself.
fn remove_data(
    alloc: Global,
    org: u32,
    object: u16,
    id: &Id,
    changes: &mut Vec<Change>,
) -> Result<(), AllocError>
    ensures changes { OnOk result (changes.new.items ≡ changes.old.items ++ spelled (Data org object id.now, None) ∷ []) }
    ensures fits { FitsKey (Data org object id.now) }
{
    // That these are an id's characters.
    let _ = id.as_bytes();
    remove_row::<DataRow>(alloc, changes, &(org, (object, *id)))
}

/// Changes that remove the rows of a record that goes: its own, and those of its values and of what a change of a type has
/// beside them. It reads nothing: `kept` is the row that the record has, and `old` what it spells.
///
/// # Errors
///
/// If out of memory.
pub fn removed_record_changes(
    alloc: Global,
    layout: &Layout,
    kept: &DataRow,
    old: &Record,
    changes: &mut Vec<Change>,
) -> Result<(), AllocError>
    requires types { IsTrue (has_types layout.now) }
    requires converts { IsTrue (converts layout.now) }
    requires kept { FitsForm data_form kept.now }
    requires old { IsTrue (all_valid (kinds_in layout.now.fields) old.now.values) }
    ensures changes { OnOk result (changes.new.items
        ≡ changes.old.items ++ map spelled (removed_changes layout.now kept.now old.now)) }
    // Their keys have spellings.
    ensures fits { OnOk result (AllByRecursion (λ c. FitsKey c.0) (removed_changes layout.now kept.now old.now)) }
{
    remove_data(alloc, layout.org, layout.object, &old.id, changes)?;
    remove_slots(alloc, layout, kept, old, changes)
}

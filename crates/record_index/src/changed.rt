//! The rows of a record whose values change.

ghost use Rattle.std.specs.Prelude.{◌≡◌, ◌++◌, ◌<◌, IfOk, IfSome, IsTrue, OnOk, Some, length, map, slice_set};
ghost use Rattle.std.specs.List.{AllByRecursion};
ghost use Rattle.record_read.specs.Decoding.{has_types, kinds_in};
ghost use Rattle.record_read.specs.Encoding.{field_of_slot};
ghost use Rattle.store_edit.specs.Rows.{spelled};
ghost use Rattle.store_rows.specs.Forms.{FitsForm};
ghost use Rattle.store_rows.specs.Keys.{FitsKey};
ghost use Rattle.store_rows.specs.Rows.{data_form};
ghost use Rattle.model.specs.SoundRecords.{all_valid};
ghost use Rattle.store_codec.specs.Plain.{FitsText};
ghost use Rattle.record_index.specs.Changed.{slot_changes};
ghost use Rattle.record_index.specs.Made.{layout_entry};
ghost use Rattle.record_index.specs.Turned.{converts, copied_entry, turned_changes, turned_entry, turned_row, values_turned, with_text};
ghost use Rattle.store_abstraction.specs.Plan.{slot_count};

use crate::copied::{copied_text, copied_value, is_copied};
use crate::made::{SLOT_COUNT, field_of_slot};
use crate::slot::RecordSlot;
use crate::turning::turn_value;
use base_value::{Items, Text};
use model::Record;
use record_read::row_of;
use std::alloc::{AllocError, Global};
use store_abstraction::Layout;
use store_edit::put_row;
use store_kv::Change;
use store_rows::{DataRow, Slots};

fn text_copy(alloc: Global, text: &Option<Text>) -> Result<Option<Text>, AllocError>
    ensures { IfOk result (λ copy. copy ≡ text.now) }
{
    match text {
        None => Ok(None),
        Some(text) => Ok(Some(text.copy(alloc)?)),
    }
}

fn text_copies(alloc: Global, texts: &[Option<Text>]) -> Result<Items<Option<Text>>, AllocError>
    ensures { IfOk result (λ copies. copies ≡ texts.now) }
{
    let mut copies = Items::new(alloc);
    for text in texts {
        copies.push(text_copy(alloc, text)?)?;
    }
    Ok(copies)
}

// These texts, but for one slot.
fn texts_with(
    alloc: Global,
    texts: &[Option<Text>],
    slot: u8,
    text: Option<Text>,
) -> Result<Items<Option<Text>>, AllocError>
    ensures { IfOk result (λ copies. copies ≡ slice_set texts.now slot text) }
{
    let mut copies = text_copies(alloc, texts)?;
    let at = usize::from(slot);
    if at < copies.len() {
        copies.set(at, text);
    }
    Ok(copies)
}

// A copy of a row, with another text in a slot.
fn with_text(
    alloc: Global,
    row: &DataRow,
    slot: u8,
    text: Option<Text>,
) -> Result<DataRow, AllocError>
    requires row { FitsForm data_form row.now }
    requires text { IfSome text FitsText }
    ensures row { IfOk result (λ copy. copy ≡ with_text slot text row.now) }
    ensures fits { IfOk result (FitsForm data_form) }
{
    let name = text_copy(alloc, &row.name)?;
    let texts = texts_with(alloc, row.slots.texts(), slot, text)?;
    Ok(DataRow {
        org: row.org,
        object: row.object,
        id: row.id,
        name,
        owner: row.owner,
        created: row.created,
        modified: row.modified,
        slots: Slots::new(texts),
    })
}

/// The new row of a record, over the one that is kept: the texts of its fields in their slots, and in the slot of a change of a type
/// what that has copied, if it has come to the record. The other slots hold what `kept` has there.
///
/// # Errors
///
/// If out of memory.
pub fn turned_row(
    alloc: Global,
    layout: &Layout,
    kept: &DataRow,
    item: &Record,
) -> Result<DataRow, AllocError>
    requires types { IsTrue (has_types layout.now) }
    requires values { IsTrue (all_valid (kinds_in layout.now.fields) item.now.values) }
    requires converts { IsTrue (converts layout.now) }
    requires kept { FitsForm data_form kept.now }
    ensures row { IfOk result (λ row. row ≡ turned_row layout.now kept.now item.now) }
    ensures fits { IfOk result (FitsForm data_form) }
{
    match &layout.job {
        Some(job) if is_copied(job, &item.id) => {
            let text = copied_text(alloc, layout, job, item)?;
            let kept = with_text(alloc, kept, job.twin, text)?;
            row_of(alloc, layout, item, Some(&kept))
        }
        _ => row_of(alloc, layout, item, Some(kept)),
    }
}

// The rows of what a field has in its slot.
fn turn_field(
    alloc: Global,
    layout: &Layout,
    number: usize,
    old: &Record,
    new: &Record,
    slot: u8,
    changes: &mut Vec<Change>,
) -> Result<(), AllocError>
    requires place { field_of_slot layout.now.fields slot ≡ Some number }
    requires below { number < length layout.now.fields }
    ensures changes { OnOk result (changes.new.items ≡ changes.old.items ++ map spelled (slot_changes layout.now.org layout.now.object
        new.now.id (layout_entry layout.now old.now slot) (layout_entry layout.now new.now slot) slot)) }
    ensures fits { OnOk result (AllByRecursion (λ c. FitsKey c.0) (slot_changes layout.now.org layout.now.object
        new.now.id (layout_entry layout.now old.now slot) (layout_entry layout.now new.now slot) slot)) }
{
    let fields = layout.fields.as_slice();
    let at = RecordSlot {
        org: layout.org,
        object: layout.object,
        id: new.id,
        slot,
    };
    let before = old.values.get(number + 1);
    let after = new.values.get(number + 1);
    turn_value(alloc, changes, &at, &fields[number], before, after)
}

// The rows of what a change of a type has copied into a slot.
fn turn_copied(
    alloc: Global,
    layout: &Layout,
    old: &Record,
    new: &Record,
    slot: u8,
    changes: &mut Vec<Change>,
) -> Result<(), AllocError>
    requires types { IsTrue (has_types layout.now) }
    requires old { IsTrue (all_valid (kinds_in layout.now.fields) old.now.values) }
    requires new { IsTrue (all_valid (kinds_in layout.now.fields) new.now.values) }
    requires converts { IsTrue (converts layout.now) }
    ensures changes { OnOk result (changes.new.items ≡ changes.old.items ++ map spelled (slot_changes layout.now.org layout.now.object
        new.now.id (copied_entry layout.now old.now slot) (copied_entry layout.now new.now slot) slot)) }
    ensures fits { OnOk result (AllByRecursion (λ c. FitsKey c.0) (slot_changes layout.now.org layout.now.object
        new.now.id (copied_entry layout.now old.now slot) (copied_entry layout.now new.now slot) slot)) }
{
    let Some(job) = &layout.job else {
        return Ok(());
    };
    if job.twin != slot {
        return Ok(());
    }
    let Some(field) = layout.fields.get(usize::from(job.field)) else {
        return Ok(());
    };
    let at = RecordSlot {
        org: layout.org,
        object: layout.object,
        id: new.id,
        slot,
    };
    let before = copied_value(alloc, job, field, old)?;
    let after = copied_value(alloc, job, field, new)?;
    turn_value(alloc, changes, &at, field, before.as_ref(), after.as_ref())
}

// The rows of what is in a slot.
fn turn_slot(
    alloc: Global,
    layout: &Layout,
    old: &Record,
    new: &Record,
    slot: u8,
    changes: &mut Vec<Change>,
) -> Result<(), AllocError>
    requires types { IsTrue (has_types layout.now) }
    requires old { IsTrue (all_valid (kinds_in layout.now.fields) old.now.values) }
    requires new { IsTrue (all_valid (kinds_in layout.now.fields) new.now.values) }
    requires converts { IsTrue (converts layout.now) }
    ensures changes { OnOk result (changes.new.items ≡ changes.old.items ++ map spelled (slot_changes layout.now.org layout.now.object
        new.now.id (turned_entry layout.now old.now slot) (turned_entry layout.now new.now slot) slot)) }
    ensures fits { OnOk result (AllByRecursion (λ c. FitsKey c.0) (slot_changes layout.now.org layout.now.object
        new.now.id (turned_entry layout.now old.now slot) (turned_entry layout.now new.now slot) slot)) }
{
    match field_of_slot(layout.fields.as_slice(), slot) {
        None => turn_copied(alloc, layout, old, new, slot, changes),
        Some(number) => turn_field(alloc, layout, number, old, new, slot, changes),
    }
}

// The rows of what is in all slots.
fn turn_slots(
    alloc: Global,
    layout: &Layout,
    old: &Record,
    new: &Record,
    changes: &mut Vec<Change>,
) -> Result<(), AllocError>
    requires types { IsTrue (has_types layout.now) }
    requires old { IsTrue (all_valid (kinds_in layout.now.fields) old.now.values) }
    requires new { IsTrue (all_valid (kinds_in layout.now.fields) new.now.values) }
    requires converts { IsTrue (converts layout.now) }
    ensures changes { OnOk result (changes.new.items ≡ changes.old.items ++ map spelled (values_turned layout.now old.now new.now slot_count)) }
    ensures fits { OnOk result (AllByRecursion (λ c. FitsKey c.0) (values_turned layout.now old.now new.now slot_count)) }
{
    for slot in 0..SLOT_COUNT {
        turn_slot(alloc, layout, old, new, slot, changes)?;
    }
    Ok(())
}

/// Changes that put the new row of a record whose values change, and turn the rows of its old values into those of the new ones:
/// of its fields, and of what a change of a type has copied of them. Nothing is done in slots that keep their value. It reads
/// nothing: `kept` is the row that the record has, and `old` what it spells.
///
/// # Errors
///
/// If out of memory.
pub fn changed_record_changes(
    alloc: Global,
    layout: &Layout,
    kept: &DataRow,
    old: &Record,
    new: &Record,
    changes: &mut Vec<Change>,
) -> Result<(), AllocError>
    requires types { IsTrue (has_types layout.now) }
    requires converts { IsTrue (converts layout.now) }
    requires kept { FitsForm data_form kept.now }
    requires old { IsTrue (all_valid (kinds_in layout.now.fields) old.now.values) }
    requires new { IsTrue (all_valid (kinds_in layout.now.fields) new.now.values) }
    ensures changes { OnOk result (changes.new.items
        ≡ changes.old.items ++ map spelled (turned_changes layout.now kept.now old.now new.now)) }
    // Their keys have spellings.
    ensures fits { OnOk result (AllByRecursion (λ c. FitsKey c.0) (turned_changes layout.now kept.now old.now new.now)) }
{
    let row = turned_row(alloc, layout, kept, new)?;
    put_row(alloc, changes, &row)?;
    turn_slots(alloc, layout, old, new, changes)
}

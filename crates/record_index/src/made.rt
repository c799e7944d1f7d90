//! The rows of a new record.

ghost use Rattle.std.specs.Prelude.{◌≡◌, ◌++◌, ◌<◌, IfSome, IsTrue, None, OnOk, length, map};
ghost use Rattle.std.specs.List.{AllByRecursion};
ghost use Rattle.record_read.specs.Decoding.{has_types, kinds_in};
ghost use Rattle.record_read.specs.Encoding.{field_of_slot};
ghost use Rattle.store_edit.specs.Rows.{spelled};
ghost use Rattle.store_rows.specs.Keys.{FitsKey};
ghost use Rattle.model.specs.SoundRecords.{all_valid};
ghost use Rattle.record_index.specs.Changed.{slot_changes};
ghost use Rattle.record_index.specs.Made.{layout_entry, made_changes, values_made};
ghost use Rattle.store_abstraction.specs.Plan.{slot_count};

use crate::slot::RecordSlot;
use crate::turning::turn_value;
use model::Record;
use record_read::row_of;
use std::alloc::{AllocError, Global};
use store_abstraction::{FieldPlace, Layout};
use store_edit::put_row;
use store_kv::Change;

/// How many slots a record has.
pub(crate) const SLOT_COUNT: u8 = 48;

/// The number of the field with this slot.
pub(crate) fn field_of_slot(fields: &[FieldPlace], slot: u8) -> Option<usize>
    ensures place { result ≡ field_of_slot fields.now slot }
    ensures below { IfSome result (λ number. number < length fields.now) }
{
    for (number, field) in fields.iter().enumerate() {
        if field.slot == slot {
            return Some(number);
        }
    }
    None
}

// The rows of what a new record has in a slot.
fn put_value(
    alloc: Global,
    layout: &Layout,
    item: &Record,
    slot: u8,
    changes: &mut Vec<Change>,
) -> Result<(), AllocError>
    ensures changes { OnOk result (changes.new.items ≡ changes.old.items ++ map spelled
        (slot_changes layout.now.org layout.now.object item.now.id None (layout_entry layout.now item.now slot) slot)) }
    ensures fits { OnOk result (AllByRecursion (λ c. FitsKey c.0)
        (slot_changes layout.now.org layout.now.object item.now.id None (layout_entry layout.now item.now slot) slot)) }
{
    let fields = layout.fields.as_slice();
    let Some(number) = field_of_slot(fields, slot) else {
        return Ok(());
    };
    let Some(value) = item.values.as_slice().get(number + 1) else {
        // No value is null, which has no rows.
        return Ok(());
    };
    let at = RecordSlot {
        org: layout.org,
        object: layout.object,
        id: item.id,
        slot,
    };
    turn_value(alloc, changes, &at, &fields[number], None, Some(value))
}

// The rows of what a new record has in its slots.
fn put_values(
    alloc: Global,
    layout: &Layout,
    item: &Record,
    changes: &mut Vec<Change>,
) -> Result<(), AllocError>
    ensures changes { OnOk result (changes.new.items ≡ changes.old.items ++ map spelled (values_made layout.now item.now slot_count)) }
    ensures fits { OnOk result (AllByRecursion (λ c. FitsKey c.0) (values_made layout.now item.now slot_count)) }
{
    for slot in 0..SLOT_COUNT {
        put_value(alloc, layout, item, slot, changes)?;
    }
    Ok(())
}

/// Changes that put the rows of a new record: its own, and those of its values. It reads nothing.
///
/// # Errors
///
/// If out of memory.
pub fn new_record_changes(
    alloc: Global,
    layout: &Layout,
    item: &Record,
    changes: &mut Vec<Change>,
) -> Result<(), AllocError>
    requires types { IsTrue (has_types layout.now) }
    requires values { IsTrue (all_valid (kinds_in layout.now.fields) item.now.values) }
    ensures changes { OnOk result (changes.new.items ≡ changes.old.items ++ map spelled (made_changes layout.now item.now)) }
    // Their keys have spellings.
    ensures fits { OnOk result (AllByRecursion (λ c. FitsKey c.0) (made_changes layout.now item.now)) }
{
    let row = row_of(alloc, layout, item, None)?;
    put_row(alloc, changes, &row)?;
    put_values(alloc, layout, item, changes)
}

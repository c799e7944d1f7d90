//! The changes of a page of records.

ghost use Rattle.std.specs.Prelude.{◌≡◌, ◌++◌, ℕ, IsTrue, List, OnOk, Option, map};
ghost use Rattle.std.specs.List.{AllByRecursion, list_all};
ghost use Rattle.record_read.specs.Decoding.{has_types, kinds_in};
ghost use Rattle.store_edit.specs.Rows.{spelled};
ghost use Rattle.store_rows.specs.Keys.{FitsKey};
ghost use Rattle.model.specs.SoundRecords.{all_valid};
ghost use Rattle.record_index.specs.Turned.{converts};
ghost use Rattle.retype_step.specs.backfill.Progress.{come_to, page_changes, record_moves, records_move, twin_changes};

use crate::backfill::layouts::come_to;
use base_value::Id;
use model::Record;
use record_index::{RecordSlot, beside_value, turn_value, turned_row};
use record_read::row_of;
use std::alloc::{AllocError, Global};
use store_abstraction::Layout;
use store_edit::put_row;
use store_kv::Change;
use store_rows::DataRow;

// The rows of what a change has in its slot.
fn turn_twin(
    alloc: Global,
    layout: &Layout,
    come: &Layout,
    kept: &DataRow,
    item: &Record,
    changes: &mut Vec<Change>,
) -> Result<(), AllocError>
    requires come { (cursor : Option (List ℕ)) × (come.now ≡ come_to cursor layout.now) }
    requires types { IsTrue (has_types layout.now) }
    requires converts { IsTrue (converts layout.now) }
    requires values { IsTrue (all_valid (kinds_in layout.now.fields) item.now.values) }
    ensures changes { OnOk result (changes.new.items
        ≡ changes.old.items ++ map spelled (twin_changes layout.now come.now kept.now item.now)) }
    ensures fits { OnOk result (AllByRecursion (λ c. FitsKey c.0) (twin_changes layout.now come.now kept.now item.now)) }
{
    let Some(job) = &layout.job else {
        return Ok(());
    };
    let Some(after) = &come.job else {
        return Ok(());
    };
    let Some(field) = layout.fields.get(usize::from(job.field)) else {
        return Ok(());
    };
    let at = RecordSlot {
        org: layout.org,
        object: layout.object,
        id: item.id,
        slot: job.twin,
    };
    let old = beside_value(alloc, job, field, kept, item)?;
    let new = beside_value(alloc, after, field, kept, item)?;
    turn_value(alloc, changes, &at, field, old.as_ref(), new.as_ref())
}

// The rows of one record.
fn move_record(
    alloc: Global,
    layout: &Layout,
    come: &Layout,
    kept: &DataRow,
    item: &Record,
    changes: &mut Vec<Change>,
) -> Result<(), AllocError>
    requires come { (cursor : Option (List ℕ)) × (come.now ≡ come_to cursor layout.now) }
    requires types { IsTrue (has_types layout.now) }
    requires converts { IsTrue (converts layout.now) }
    requires values { IsTrue (all_valid (kinds_in layout.now.fields) item.now.values) }
    ensures changes { OnOk result (changes.new.items
        ≡ changes.old.items ++ map spelled (record_moves layout.now come.now kept.now item.now)) }
    ensures fits { OnOk result (AllByRecursion (λ c. FitsKey c.0) (record_moves layout.now come.now kept.now item.now)) }
{
    let bare = row_of(alloc, come, item, None)?;
    let row = turned_row(alloc, come, &bare, item)?;
    put_row(alloc, changes, &row)?;
    turn_twin(alloc, layout, come, kept, item, changes)
}

// The rows of records, one after the other.
fn move_records(
    alloc: Global,
    layout: &Layout,
    come: &Layout,
    rows: &[DataRow],
    items: &[Record],
    changes: &mut Vec<Change>,
) -> Result<(), AllocError>
    requires come { (cursor : Option (List ℕ)) × (come.now ≡ come_to cursor layout.now) }
    requires types { IsTrue (has_types layout.now) }
    requires converts { IsTrue (converts layout.now) }
    requires values { IsTrue (list_all (λ r. all_valid (kinds_in layout.now.fields) r.values) items.now) }
    ensures changes { OnOk result (changes.new.items
        ≡ changes.old.items ++ map spelled (records_move layout.now come.now rows.now items.now)) }
    ensures fits { OnOk result (AllByRecursion (λ c. FitsKey c.0) (records_move layout.now come.now rows.now items.now)) }
{
    let mut more_rows = rows;
    let mut more_items = items;
    'page: while let Some((kept, rows_after)) = more_rows.split_first() {
        let Some((item, items_after)) = more_items.split_first() else {
            return Ok(());
        };
        move_record(alloc, layout, come, kept, item, changes)?;
        more_rows = rows_after;
        more_items = items_after;
    }
    Ok(())
}

/// Adds the changes of a page's records, whose rows these are, where a change of a type comes to this record: the last of them.
/// It reads nothing.
///
/// # Errors
///
/// If out of memory.
pub fn page_changes(
    alloc: Global,
    layout: &Layout,
    cursor: Option<Id>,
    rows: &[DataRow],
    items: &[Record],
    changes: &mut Vec<Change>,
) -> Result<(), AllocError>
    requires types { IsTrue (has_types layout.now) }
    requires converts { IsTrue (converts layout.now) }
    requires values { IsTrue (list_all (λ r. all_valid (kinds_in layout.now.fields) r.values) items.now) }
    ensures changes { OnOk result (changes.new.items
        ≡ changes.old.items ++ map spelled (page_changes layout.now cursor rows.now items.now)) }
    // Their keys have spellings.
    ensures fits { OnOk result (AllByRecursion (λ c. FitsKey c.0) (page_changes layout.now cursor rows.now items.now)) }
{
    let come = come_to(alloc, layout, cursor)?;
    move_records(alloc, layout, &come, rows, items, changes)
}

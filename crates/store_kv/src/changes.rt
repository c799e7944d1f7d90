ghost use Rattle.std.specs.Prelude.{◌≡◌, IfOk, OnOk, OnErr, IsSome};
ghost use Rattle.std.specs.BTreeMap.{get};
ghost use Rattle.store_kv.specs.Tables.{Place as Seen, place_cmp, after, after_change, row_at};
ghost use Rattle.store_kv.specs.inner.Changes.{entry_for};
ghost use Rattle.store_kv.specs.Laid.{row_laid, laid};
ghost use Rattle.store_kv.specs.Memory.{tables_in};
ghost use Rattle.store_kv.specs.inner.Changes.{HasPlaces};

use crate::keeper::Change;
use crate::place::Place;
use crate::rows::Rows;
use base_value::Bytes;
use std::alloc::{AllocError, Global};
use std::marker::Model;

/// A place, and the row that a change replaced there.
#[derive(Drop)]
pub(crate) struct Replaced {
    place: Place,
    row: Option<Bytes>,
}

impl Model for Replaced {
    ghost use Rattle.store_kv.specs.Laid.{Entry};

    ghost Value = { Entry };

    ghost view = { λ r. (r.place, r.row) };
}

fn place_of(alloc: Global, change: &Change) -> Result<Place, AllocError>
    ensures { IfOk result (λ place. place ≡ (entry_for change.now).0) }
{
    match change {
        Change::Put { table, key, row: _ } => Place::copied(alloc, *table, key.as_slice()),
        Change::Remove { table, key } => Place::copied(alloc, *table, key.as_slice()),
    }
}

fn row_copied(alloc: Global, change: &Change) -> Result<Option<Bytes>, AllocError>
    ensures { IfOk result (λ row. row ≡ (entry_for change.now).1) }
{
    match change {
        Change::Put {
            table: _,
            key: _,
            row,
        } => Ok(Some(Bytes::from_slice(alloc, row.as_slice())?)),
        Change::Remove { table: _, key: _ } => Ok(None),
    }
}

// Sets the row of the place, and returns the one that it had.
fn set_row(rows: &mut Rows, place: Place, row: Option<Bytes>) -> Result<Option<Bytes>, AllocError>
    ensures made { OnOk result (tables_in rows.new.entries ≡ row_laid place row (tables_in rows.old.entries)) }
    ensures replaced { IfOk result (λ before. before ≡ row_at (tables_in rows.old.entries) place.0 place.1) }
    ensures has { OnOk result (IsSome (get place_cmp rows.new place)) }
    ensures keeps { (q : Seen) → IsSome (get place_cmp rows.old q) → IsSome (get place_cmp rows.new q) }
    ensures refused { OnErr result (tables_in rows.new.entries ≡ tables_in rows.old.entries) }
{
    match rows.insert(place, row)? {
        Some(before) => Ok(before),
        None => Ok(None),
    }
}

// Makes one change, and adds to `done` the row that it replaced.
fn make_change(
    alloc: Global,
    rows: &mut Rows,
    done: &mut Vec<Replaced>,
    change: &Change,
) -> Result<(), AllocError>
    requires { HasPlaces rows.old done.old.items }
    ensures made { OnOk result (tables_in rows.new.entries ≡ after_change change.now (tables_in rows.old.entries)) }
    ensures undone { laid done.new.items (tables_in rows.new.entries) ≡ laid done.old.items (tables_in rows.old.entries) }
    ensures has { HasPlaces rows.new done.new.items }
{
    let row = row_copied(alloc, change)?;
    let changed = place_of(alloc, change)?;
    let place = place_of(alloc, change)?;
    // With this the push can't fail once the change is made.
    done.reserve(1)?;
    let before = set_row(rows, changed, row)?;
    done.push(Replaced { place, row: before })?;
    Ok(())
}

// Sets the row of a place that the map has. It takes no memory.
fn put_back_one(rows: &mut Rows, replaced: Replaced)
    requires { IsSome (get place_cmp rows.old replaced.0) }
    ensures shown { tables_in rows.new.entries ≡ row_laid replaced.0 replaced.1 (tables_in rows.old.entries) }
    ensures keeps { (q : Seen) → IsSome (get place_cmp rows.old q) → IsSome (get place_cmp rows.new q) }
{
    let Replaced { place, row } = replaced;
    if let Some(held) = rows.get_mut(&place) {
        *held = row;
    }
}

// Puts back what the places had, the last change's first. It takes no memory.
fn put_back(rows: &mut Rows, done: Vec<Replaced>)
    requires { HasPlaces rows.old done.items }
    ensures { tables_in rows.new.entries ≡ laid done.items (tables_in rows.old.entries) }
{
    let mut done = done;
    'undo: while let Some(replaced) = done.pop() {
        put_back_one(rows, replaced);
    }
}

// Drops the place if it is a gap.
fn drop_gap(rows: &mut Rows, place: &Place)
    ensures { tables_in rows.new.entries ≡ tables_in rows.old.entries }
{
    if let Some(None) = rows.get(place) {
        rows.remove(place);
    }
}

// Drops the gaps that removals left.
fn drop_gaps(rows: &mut Rows, changes: &[Change], done: &[Replaced])
    ensures { tables_in rows.new.entries ≡ tables_in rows.old.entries }
{
    for (change, replaced) in changes.iter().zip(done) {
        if let Change::Remove { table: _, key: _ } = change {
            drop_gap(rows, &replaced.place);
        }
    }
}

/// All of the changes in their order, or none.
pub(crate) fn change_all(
    alloc: Global,
    rows: &mut Rows,
    changes: &[Change],
) -> Result<(), AllocError>
    ensures done { OnOk result (tables_in rows.new.entries ≡ after changes.now (tables_in rows.old.entries)) }
    ensures refused { OnErr result (tables_in rows.new.entries ≡ tables_in rows.old.entries) }
{
    let mut done = Vec::new(alloc);
    for change in changes {
        if let Err(fail) = make_change(alloc, rows, &mut done, change) {
            put_back(rows, done);
            return Err(fail);
        }
    }
    drop_gaps(rows, changes, done.as_slice());
    Ok(())
}

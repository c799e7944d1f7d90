//! Index rows, unique rows and rows of references: one more, one less, or another in its place.

ghost use Rattle.std.specs.Prelude.{◌≡◌, ◌<◌, ◌^◌, ◌++◌, IfSome, IsTrue, None, OnOk, [], map};
ghost use Rattle.std.specs.List.{AllByRecursion};
ghost use Rattle.store_edit.specs.Rows.{spelled};
ghost use Rattle.store_rows.specs.Keys.{FitsKey, Index, Relation, Unique};
ghost use Rattle.record_index.specs.Changed.{row_turned};
ghost use Rattle.base_value.specs.Bytes.{IsBytes};
ghost use Rattle.base_value.specs.Id.{is_id};

use crate::slot::RecordSlot;
use base_value::{Bytes, Id};
use std::alloc::{AllocError, Global};
use store_edit::{put_row, remove_row};
use store_kv::Change;
use store_rows::{IndexRow, RelationRow, UniqueRow};

// That the parts of a slot's keys have spellings, as their types say.
fn slot_fits(org: u32, object: u16, slot: u8, id: &Id)
    ensures org { org < 2 ^ 32 }
    ensures object { object < 2 ^ 16 }
    ensures slot { slot < 256 }
    ensures id { IsTrue (is_id id.now) }
{
    let _ = id.as_bytes();
}

fn remove_index(
    alloc: Global,
    changes: &mut Vec<Change>,
    at: &RecordSlot,
    key: Option<Bytes>,
) -> Result<(), AllocError>
    requires { IfSome key IsBytes }
    ensures changes { OnOk result (changes.new.items
        ≡ changes.old.items ++ map spelled (row_turned (λ k. Index at.now.org at.now.object at.now.slot k at.now.id) [] key None)) }
{
    slot_fits(at.org, at.object, at.slot, &at.id);
    match key {
        None => Ok(()),
        Some(key) => {
            let key = (at.org, (at.object, (at.slot, (key, at.id))));
            remove_row::<IndexRow>(alloc, changes, &key)
        }
    }
}

fn put_index(
    alloc: Global,
    changes: &mut Vec<Change>,
    at: &RecordSlot,
    key: Option<Bytes>,
) -> Result<(), AllocError>
    requires { IfSome key IsBytes }
    ensures changes { OnOk result (changes.new.items
        ≡ changes.old.items ++ map spelled (row_turned (λ k. Index at.now.org at.now.object at.now.slot k at.now.id) [] None key)) }
{
    slot_fits(at.org, at.object, at.slot, &at.id);
    match key {
        None => Ok(()),
        Some(value) => {
            let row = IndexRow {
                org: at.org,
                object: at.object,
                slot: at.slot,
                value,
                id: at.id,
            };
            put_row(alloc, changes, &row)
        }
    }
}

/// Turns the index row of a value into that of another.
///
/// # Errors
///
/// If out of memory.
pub(crate) fn turn_index(
    alloc: Global,
    changes: &mut Vec<Change>,
    at: &RecordSlot,
    old: Option<Bytes>,
    new: Option<Bytes>,
) -> Result<(), AllocError>
    requires old { IfSome old IsBytes }
    requires new { IfSome new IsBytes }
    ensures changes { OnOk result (changes.new.items
        ≡ changes.old.items ++ map spelled (row_turned (λ k. Index at.now.org at.now.object at.now.slot k at.now.id) [] old new)) }
    ensures fits { OnOk result (AllByRecursion (λ c. FitsKey c.0) (row_turned (λ k. Index at.now.org at.now.object at.now.slot k at.now.id) [] old new)) }
{
    slot_fits(at.org, at.object, at.slot, &at.id);
    if old == new {
        return Ok(());
    }
    remove_index(alloc, changes, at, old)?;
    put_index(alloc, changes, at, new)
}

fn remove_unique(
    alloc: Global,
    changes: &mut Vec<Change>,
    at: &RecordSlot,
    key: Option<Bytes>,
) -> Result<(), AllocError>
    requires { IfSome key IsBytes }
    ensures changes { OnOk result (changes.new.items
        ≡ changes.old.items ++ map spelled (row_turned (λ k. Unique at.now.org at.now.object at.now.slot k) at.now.id key None)) }
{
    slot_fits(at.org, at.object, at.slot, &at.id);
    match key {
        None => Ok(()),
        Some(key) => {
            let key = (at.org, (at.object, (at.slot, key)));
            remove_row::<UniqueRow>(alloc, changes, &key)
        }
    }
}

fn put_unique(
    alloc: Global,
    changes: &mut Vec<Change>,
    at: &RecordSlot,
    key: Option<Bytes>,
) -> Result<(), AllocError>
    requires { IfSome key IsBytes }
    ensures changes { OnOk result (changes.new.items
        ≡ changes.old.items ++ map spelled (row_turned (λ k. Unique at.now.org at.now.object at.now.slot k) at.now.id None key)) }
{
    slot_fits(at.org, at.object, at.slot, &at.id);
    match key {
        None => Ok(()),
        Some(value) => {
            let row = UniqueRow {
                org: at.org,
                object: at.object,
                slot: at.slot,
                value,
                id: at.id,
            };
            put_row(alloc, changes, &row)
        }
    }
}

/// Turns the unique row of a value into that of another.
///
/// # Errors
///
/// If out of memory.
pub(crate) fn turn_unique(
    alloc: Global,
    changes: &mut Vec<Change>,
    at: &RecordSlot,
    old: Option<Bytes>,
    new: Option<Bytes>,
) -> Result<(), AllocError>
    requires old { IfSome old IsBytes }
    requires new { IfSome new IsBytes }
    ensures changes { OnOk result (changes.new.items
        ≡ changes.old.items ++ map spelled (row_turned (λ k. Unique at.now.org at.now.object at.now.slot k) at.now.id old new)) }
    ensures fits { OnOk result (AllByRecursion (λ c. FitsKey c.0) (row_turned (λ k. Unique at.now.org at.now.object at.now.slot k) at.now.id old new)) }
{
    slot_fits(at.org, at.object, at.slot, &at.id);
    if old == new {
        return Ok(());
    }
    remove_unique(alloc, changes, at, old)?;
    put_unique(alloc, changes, at, new)
}

fn remove_reference(
    alloc: Global,
    changes: &mut Vec<Change>,
    at: &RecordSlot,
    key: Option<Id>,
) -> Result<(), AllocError>
    requires { IfSome key (λ i. IsTrue (is_id i)) }
    ensures changes { OnOk result (changes.new.items
        ≡ changes.old.items ++ map spelled (row_turned (λ k. Relation at.now.org at.now.object at.now.slot k at.now.id) [] key None)) }
{
    slot_fits(at.org, at.object, at.slot, &at.id);
    match key {
        None => Ok(()),
        Some(key) => {
            let key = (at.org, (at.object, (at.slot, (key, at.id))));
            remove_row::<RelationRow>(alloc, changes, &key)
        }
    }
}

fn put_reference(
    alloc: Global,
    changes: &mut Vec<Change>,
    at: &RecordSlot,
    key: Option<Id>,
) -> Result<(), AllocError>
    requires { IfSome key (λ i. IsTrue (is_id i)) }
    ensures changes { OnOk result (changes.new.items
        ≡ changes.old.items ++ map spelled (row_turned (λ k. Relation at.now.org at.now.object at.now.slot k at.now.id) [] None key)) }
{
    slot_fits(at.org, at.object, at.slot, &at.id);
    match key {
        None => Ok(()),
        Some(target) => {
            let row = RelationRow {
                org: at.org,
                object: at.object,
                slot: at.slot,
                target,
                id: at.id,
            };
            put_row(alloc, changes, &row)
        }
    }
}

/// Turns the row of a reference into that of another.
///
/// # Errors
///
/// If out of memory.
pub(crate) fn turn_reference(
    alloc: Global,
    changes: &mut Vec<Change>,
    at: &RecordSlot,
    old: Option<Id>,
    new: Option<Id>,
) -> Result<(), AllocError>
    requires old { IfSome old (λ i. IsTrue (is_id i)) }
    requires new { IfSome new (λ i. IsTrue (is_id i)) }
    ensures changes { OnOk result (changes.new.items
        ≡ changes.old.items ++ map spelled (row_turned (λ k. Relation at.now.org at.now.object at.now.slot k at.now.id) [] old new)) }
    ensures fits { OnOk result (AllByRecursion (λ c. FitsKey c.0) (row_turned (λ k. Relation at.now.org at.now.object at.now.slot k at.now.id) [] old new)) }
{
    slot_fits(at.org, at.object, at.slot, &at.id);
    if old == new {
        return Ok(());
    }
    remove_reference(alloc, changes, at, old)?;
    put_reference(alloc, changes, at, new)
}

//! The value in a slot that comes, changes or goes.

ghost use Rattle.std.specs.Prelude.{◌≡◌, ◌++◌, OnOk, map};
ghost use Rattle.std.specs.List.{AllByRecursion};
ghost use Rattle.std.specs.Option.{option_map};
ghost use Rattle.store_edit.specs.Rows.{spelled};
ghost use Rattle.store_rows.specs.Keys.{FitsKey};
ghost use Rattle.record_index.specs.Changed.{slot_changes};
ghost use Rattle.record_index.specs.Made.{entry_of};

use crate::keys::{index_key, reference_key, unique_key};
use crate::rows::{turn_index, turn_reference, turn_unique};
use crate::slot::RecordSlot;
use base_value::Value;
use std::alloc::{AllocError, Global};
use store_abstraction::FieldPlace;
use store_kv::Change;

/// Changes that turn the rows of a slot's old value into those of its new one: an index row, a unique row, and the row of a
/// reference. A value that comes has no old one, and one that goes no new one.
///
/// Of the field it heeds whether its values are indexed, and whether they are unique.
///
/// # Errors
///
/// If out of memory.
pub fn turn_value(
    alloc: Global,
    changes: &mut Vec<Change>,
    at: &RecordSlot,
    field: &FieldPlace,
    old: Option<&Value>,
    new: Option<&Value>,
) -> Result<(), AllocError>
    ensures changes { OnOk result (changes.new.items ≡ changes.old.items ++ map spelled (slot_changes at.now.org at.now.object at.now.id
        (option_map (λ v. entry_of field.now v.now) old.entry) (option_map (λ v. entry_of field.now v.now) new.entry) at.now.slot)) }
    // Their keys have spellings.
    ensures fits { OnOk result (AllByRecursion (λ c. FitsKey c.0) (slot_changes at.now.org at.now.object at.now.id
        (option_map (λ v. entry_of field.now v.now) old.entry) (option_map (λ v. entry_of field.now v.now) new.entry) at.now.slot)) }
{
    let old_index = index_key(alloc, field, old)?;
    let new_index = index_key(alloc, field, new)?;
    turn_index(alloc, changes, at, old_index, new_index)?;
    let old_unique = unique_key(alloc, field, old)?;
    let new_unique = unique_key(alloc, field, new)?;
    turn_unique(alloc, changes, at, old_unique, new_unique)?;
    turn_reference(
        alloc,
        changes,
        at,
        reference_key(field, old),
        reference_key(field, new),
    )
}

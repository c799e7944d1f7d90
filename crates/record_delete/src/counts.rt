//! The rows of the organisation and of its objects, which count records.

ghost use Rattle.std.specs.Prelude.{◌≡◌, ◌+◌, ◌-◌, ◌<◌, ◌++◌, ◌∷◌, [], List, OnOk, Some, length, map};
ghost use Rattle.std.specs.List.{flat_map};
ghost use Rattle.record_delete.specs.Deleting.{count_among, counts_less, object_less};
ghost use Rattle.record_delete.specs.inner.Adding.{Adds, AddsThese};
ghost use Rattle.record_delete.specs.inner.Counts.{AreObjects, object_row_less, org_less};
ghost use Rattle.store_edit.specs.Rows.{change_to, spelled};
ghost use Rattle.store_kv.specs.Draft.{DraftTells, tables_of};
ghost use Rattle.store_rows.specs.Forms.{FitsForm};
ghost use Rattle.store_rows.specs.Rows.{object_form, org_form};
ghost use Rattle.model.specs.Objects.{Numbered, object_numbered};
ghost use Rattle.model.specs.Tenant.{Object, Tenant};
ghost use Rattle.store_abstraction.specs.Calls.{Calls, ended};
ghost use Rattle.store_abstraction.specs.Layouts.{layout_of, own_layouts};
ghost use Rattle.store_abstraction.specs.Local.{StandsIn};
ghost use Rattle.store_abstraction.specs.Plan.{OrgPlan};

use base_value::Id;
use record_cascade::object_number;
use std::alloc::{AllocError, Global};
use store_abstraction::{Layout, call_laws, object_there, org_there};
use store_edit::put_row;
use store_kv::{Change, Draft, Keeper, draft_laws};
use store_rows::{ObjectRow, OrgRow, StoreFail};

// How many of these are ids of records of the object with this number.
fn count_among(object: u16, ids: &[Id]) -> usize
    ensures { result ≡ count_among object ids.now }
{
    ids.iter().filter(|id| object_number(id) == object).count()
}

// A count, so many less.
fn less(count: u32, gone: usize) -> u32
    ensures { result ≡ count - gone }
{
    match u32::try_from(gone) {
        Ok(gone) => count.saturating_sub(gone),
        Err(_) => 0,
    }
}

// One change more: the row of the organisation, with so many records less.
fn put_org(
    alloc: Global,
    org: u32,
    row: OrgRow,
    gone: usize,
    changes: &mut Vec<Change>,
) -> Result<(), AllocError>
    requires { FitsForm org_form row }
    ensures added { OnOk result (changes.new.items ≡ changes.old.items ++ spelled (change_to org_form (org_less org gone row)) ∷ []) }
    ensures fits { FitsForm org_form (org_less org gone row) }
{
    let mut row = row;
    row.org = org;
    row.records = less(row.records, gone);
    put_row(alloc, changes, &row)
}

// One change more: the row of an object, with so many records less.
fn put_object(
    alloc: Global,
    org: u32,
    object: u16,
    row: ObjectRow,
    gone: usize,
    changes: &mut Vec<Change>,
) -> Result<(), AllocError>
    requires { FitsForm object_form row }
    ensures added { OnOk result (changes.new.items
        ≡ changes.old.items ++ spelled (change_to object_form (object_row_less org object gone row)) ∷ []) }
    ensures fits { FitsForm object_form (object_row_less org object gone row) }
{
    let mut row = row;
    row.org = org;
    row.object = object;
    row.records = less(row.records, gone);
    put_row(alloc, changes, &row)
}

// The change of an object's row, if some of these are records of it.
fn count_object<K: Keeper>(
    alloc: Global,
    draft: &mut Draft<'_, K>,
    org: u32,
    object: u16,
    ids: &[Id],
    changes: &mut Vec<Change>,
) -> Result<(), StoreFail>
    ensures adds { DraftTells K.state draft.old draft.new
        → (q : OrgPlan) (t : Tenant) (o : Object) → StandsIn org q (tables_of K.state draft.old) (Some t)
        → object_numbered t object ≡ Some o
        → AddsThese (object_less org t ids.now (record { number = object; object = o })) changes.old.items changes.new.items result }
    ensures own { OnOk result (Adds org 1 0 changes.old.items changes.new.items) }
    ensures calls { Calls K.state 0 (ended result) draft.old draft.new }
{
    call_laws::<K>();
    let gone = count_among(object, ids);
    if gone == 0 {
        return Ok(());
    }
    let row = object_there(alloc, draft, org, object)?;
    Ok(put_object(alloc, org, object, row, gone, changes)?)
}

// The changes of these objects' rows.
fn count_objects<K: Keeper>(
    alloc: Global,
    draft: &mut Draft<'_, K>,
    org: u32,
    layouts: &[Layout],
    ids: &[Id],
    changes: &mut Vec<Change>,
) -> Result<(), StoreFail>
    ensures adds { DraftTells K.state draft.old draft.new
        → (q : OrgPlan) (t : Tenant) (os : List Numbered) → StandsIn org q (tables_of K.state draft.old) (Some t)
        → map (layout_of org q t) os ≡ layouts.now → AreObjects t os
        → AddsThese (flat_map (object_less org t ids.now) os) changes.old.items changes.new.items result }
    ensures own { OnOk result (Adds org (length layouts.now) 0 changes.old.items changes.new.items) }
    ensures calls { Calls K.state 0 (ended result) draft.old draft.new }
{
    draft_laws::<K>();
    call_laws::<K>();
    let Some((layout, rest)) = layouts.split_first() else {
        return Ok(());
    };
    count_object(alloc, draft, org, layout.object, ids, changes)?;
    count_objects(alloc, draft, org, rest, ids, changes)
}

/// Changes of the rows that count records: the organisation's, and those of the objects of these, by the layouts of all objects.
///
/// # Errors
///
/// `Keeper` if the keeper failed, `Memory` if out of memory, `Damaged` never if the organisation's rows stand for a tenant whose
/// layouts these are.
pub(crate) fn count_less<K: Keeper>(
    alloc: Global,
    draft: &mut Draft<'_, K>,
    org: u32,
    layouts: &[Layout],
    ids: &[Id],
    changes: &mut Vec<Change>,
) -> Result<(), StoreFail>
    ensures adds { DraftTells K.state draft.old draft.new
        → (q : OrgPlan) (t : Tenant) → StandsIn org q (tables_of K.state draft.old) (Some t) → own_layouts org q (Some t) ≡ layouts.now
        → AddsThese (counts_less org t ids.now) changes.old.items changes.new.items result }
    ensures own { OnOk result (Adds org (length layouts.now + 1) 0 changes.old.items changes.new.items × (0 < length changes.new.items)) }
    ensures calls { Calls K.state 0 (ended result) draft.old draft.new }
{
    draft_laws::<K>();
    call_laws::<K>();
    let row = org_there(alloc, draft, org)?;
    put_org(alloc, org, row, ids.len(), changes)?;
    count_objects(alloc, draft, org, layouts, ids, changes)
}

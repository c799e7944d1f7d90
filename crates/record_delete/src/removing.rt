//! The rows of records that go.

ghost use Rattle.std.specs.Prelude.{◌≡◌, ◌*◌, ℕ, ℤ, IsTrue, List, None, OnOk, Some, is_some, length, true};
ghost use Rattle.std.specs.List.{AllByRecursion};
ghost use Rattle.record_delete.specs.inner.Adding.{Adds, AddsThese, AreReady};
ghost use Rattle.store_kv.specs.Draft.{DraftTells, tables_of};
ghost use Rattle.model.specs.declared.record.Record.{Record};
ghost use Rattle.model.specs.Deletes.{has_id, without};
ghost use Rattle.model.specs.Objects.{record_at};
ghost use Rattle.model.specs.Rights.{record_of_object};
ghost use Rattle.model.specs.Tenant.{Tenant};
ghost use Rattle.record_target.specs.Usable.{IsUsable};
ghost use Rattle.record_index.specs.Turned.{converts};
ghost use Rattle.store_abstraction.specs.Calls.{Calls, ended};
ghost use Rattle.store_abstraction.specs.Layouts.{IsLayout, own_layouts};
ghost use Rattle.store_abstraction.specs.Local.{StandsIn};
ghost use Rattle.store_abstraction.specs.Plan.{OrgPlan};
ghost use Rattle.record_index.specs.diff.Touched.{changes_at, touched_changes};

use crate::object::{layout_for, record_there};
use base_value::Id;
use record_index::{pivot_laws, removed_record_changes};
use std::alloc::Global;
use store_abstraction::{Layout, call_laws};
use store_kv::{Change, Draft, Keeper, draft_laws};
use store_rows::StoreFail;

// Changes that remove the rows of an object's record with this id.
fn remove_by<K: Keeper>(
    alloc: Global,
    draft: &mut Draft<'_, K>,
    layout: &Layout,
    id: &Id,
    changes: &mut Vec<Change>,
) -> Result<(), StoreFail>
    requires usable { IsUsable layout.now }
    requires converts { IsTrue (converts layout.now) }
    ensures adds { DraftTells K.state draft.old draft.new
        → (q : OrgPlan) (t u : Tenant) → StandsIn layout.now.org q (tables_of K.state draft.old) (Some t) → IsLayout q t layout.now
        → IsTrue (is_some (record_of_object t layout.now.object id.now)) → record_at u id.now ≡ None
        → AddsThese (changes_at layout.now.org q q t u id.now) changes.old.items changes.new.items result }
    ensures own { OnOk result (Adds layout.now.org 145 1 changes.old.items changes.new.items) }
    ensures calls { Calls K.state 1 (ended result) draft.old draft.new }
{
    pivot_laws();
    call_laws::<K>();
    let kept = record_there(alloc, draft, layout, id)?;
    removed_record_changes(alloc, layout, &kept.row, &kept.item, changes)?;
    Ok(())
}

// The same, by the layouts of all objects.
fn remove_record<K: Keeper>(
    alloc: Global,
    draft: &mut Draft<'_, K>,
    org: u32,
    layouts: &[Layout],
    id: &Id,
    changes: &mut Vec<Change>,
) -> Result<(), StoreFail>
    requires ready { AreReady org layouts.now }
    ensures adds { DraftTells K.state draft.old draft.new
        → (q : OrgPlan) (t u : Tenant) → StandsIn org q (tables_of K.state draft.old) (Some t)
        → own_layouts org q (Some t) ≡ layouts.now → IsTrue (is_some (record_at t id.now)) → record_at u id.now ≡ None
        → AddsThese (changes_at org q q t u id.now) changes.old.items changes.new.items result }
    ensures own { OnOk result (Adds org 145 1 changes.old.items changes.new.items) }
    ensures calls { Calls K.state 1 (ended result) draft.old draft.new }
{
    call_laws::<K>();
    match layout_for(layouts, id) {
        Some(layout) => remove_by(alloc, draft, layout, id, changes),
        None => Err(StoreFail::Damaged),
    }
}

/// Changes that remove the rows of the records with these ids, by the layouts of all objects.
///
/// # Errors
///
/// `Keeper` if the keeper failed, `Memory` if out of memory, `Damaged` never if the organisation's rows stand for a tenant whose
/// layouts these are and that has records with these ids.
pub(crate) fn remove_records<K: Keeper>(
    alloc: Global,
    draft: &mut Draft<'_, K>,
    org: u32,
    layouts: &[Layout],
    ids: &[Id],
    changes: &mut Vec<Change>,
) -> Result<(), StoreFail>
    requires ready { AreReady org layouts.now }
    ensures adds { DraftTells K.state draft.old draft.new
        → (q : OrgPlan) (t : Tenant) (now : ℤ) (gone : List Record) → StandsIn org q (tables_of K.state draft.old) (Some t)
        → own_layouts org q (Some t) ≡ layouts.now
        → AllByRecursion (λ i. (has_id gone i ≡ true) × IsTrue (is_some (record_at t i))) ids.now
        → AddsThese (touched_changes org q q t (without now gone t) ids.now) changes.old.items changes.new.items result }
    ensures own { OnOk result (Adds org (145 * length ids.now) (length ids.now) changes.old.items changes.new.items) }
    ensures calls { Calls K.state (length ids.now) (ended result) draft.old draft.new }
{
    draft_laws::<K>();
    call_laws::<K>();
    for id in ids {
        remove_record(alloc, draft, org, layouts, id, changes)?;
    }
    Ok(())
}

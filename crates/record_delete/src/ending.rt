//! The manual shares of records that go, which end.

ghost use Rattle.std.specs.Prelude.{◌≡◌, ◌*◌, ◌∷◌, [], OnOk, Some, length};
ghost use Rattle.record_delete.specs.Deleting.{shares_ended};
ghost use Rattle.record_delete.specs.inner.Adding.{Adds, AddsThese};
ghost use Rattle.store_kv.specs.Draft.{DraftTells, tables_of};
ghost use Rattle.model.specs.Tenant.{Tenant};
ghost use Rattle.store_abstraction.specs.Calls.{Calls, ended};
ghost use Rattle.store_abstraction.specs.Local.{StandsIn};
ghost use Rattle.store_abstraction.specs.Plan.{OrgPlan};

use base_value::Id;
use record_target::{remove_shares, shares_of};
use std::alloc::Global;
use store_abstraction::call_laws;
use store_kv::{Change, Draft, Keeper, draft_laws};
use store_rows::StoreFail;

// The changes that end the shares of one record.
fn end_shares_of<K: Keeper>(
    alloc: Global,
    draft: &mut Draft<'_, K>,
    org: u32,
    id: &Id,
    changes: &mut Vec<Change>,
) -> Result<(), StoreFail>
    ensures adds { DraftTells K.state draft.old draft.new
        → (q : OrgPlan) (t : Tenant) → StandsIn org q (tables_of K.state draft.old) (Some t)
        → AddsThese (shares_ended org t (id.now ∷ [])) changes.old.items changes.new.items result }
    ensures own { OnOk result (Adds org 100 0 changes.old.items changes.new.items) }
    ensures calls { Calls K.state 0 (ended result) draft.old draft.new }
{
    call_laws::<K>();
    let rows = shares_of(alloc, draft, org, id)?;
    Ok(remove_shares(alloc, org, id, rows.as_slice(), changes)?)
}

/// Changes that end the manual shares of records.
///
/// # Errors
///
/// `Keeper` if the keeper failed, `Memory` if out of memory, `Damaged` never if the organisation's rows stand for a tenant.
pub(crate) fn end_shares<K: Keeper>(
    alloc: Global,
    draft: &mut Draft<'_, K>,
    org: u32,
    ids: &[Id],
    changes: &mut Vec<Change>,
) -> Result<(), StoreFail>
    ensures adds { DraftTells K.state draft.old draft.new
        → (q : OrgPlan) (t : Tenant) → StandsIn org q (tables_of K.state draft.old) (Some t)
        → AddsThese (shares_ended org t ids.now) changes.old.items changes.new.items result }
    ensures own { OnOk result (Adds org (100 * length ids.now) 0 changes.old.items changes.new.items) }
    ensures calls { Calls K.state 0 (ended result) draft.old draft.new }
{
    draft_laws::<K>();
    call_laws::<K>();
    let Some((id, rest)) = ids.split_first() else {
        return Ok(());
    };
    end_shares_of(alloc, draft, org, id, changes)?;
    end_shares(alloc, draft, org, rest, changes)
}

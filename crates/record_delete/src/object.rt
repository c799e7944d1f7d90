//! The object and the row of a record with an id.

ghost use Rattle.std.specs.Prelude.{◌≡◌, IfOk, Some, slice_get};
ghost use Rattle.std.specs.Option.{option_copied};
ghost use Rattle.record_delete.specs.inner.There.{FindsKept, found_there};
ghost use Rattle.store_kv.specs.Draft.{DraftTells, tables_of};
ghost use Rattle.model.specs.Objects.{object_number};
ghost use Rattle.model.specs.Tenant.{Tenant};
ghost use Rattle.record_target.specs.Kept.{FitsKept};
ghost use Rattle.store_abstraction.specs.Calls.{Calls, ended};
ghost use Rattle.store_abstraction.specs.Layouts.{IsLayout};
ghost use Rattle.store_abstraction.specs.Local.{StandsIn};
ghost use Rattle.store_abstraction.specs.Plan.{OrgPlan};

use base_value::Id;
use record_cascade::object_number;
use record_target::{KeptRecord, kept_record};
use std::alloc::Global;
use store_abstraction::{Layout, call_laws};
use store_kv::{Draft, Keeper};
use store_rows::StoreFail;

/// The layout of the object whose records have ids like this, if it is among the layouts of all objects.
pub(crate) fn layout_for<'a>(layouts: &'a [Layout], id: &Id) -> Option<&'a Layout>
    ensures { option_copied result ≡ slice_get layouts.now (object_number id.now) }
{
    layouts.get(usize::from(object_number(id)))
}

// What was found, which has to be there.
fn found_there(found: Result<Option<KeptRecord>, StoreFail>) -> Result<KeptRecord, StoreFail>
    ensures { result ≡ found_there found }
{
    match found {
        Ok(Some(kept)) => Ok(kept),
        Ok(None) => Err(StoreFail::Damaged),
        Err(fail) => Err(fail),
    }
}

/// The record of an object that has this id, and its row.
///
/// # Errors
///
/// `Keeper` if the keeper failed, `Memory` if out of memory, `Damaged` only if there is no such record where the organisation's rows
/// stand for a tenant whose layout it is.
pub(crate) fn record_there<K: Keeper>(
    alloc: Global,
    draft: &mut Draft<'_, K>,
    layout: &Layout,
    id: &Id,
) -> Result<KeptRecord, StoreFail>
    ensures finds { DraftTells K.state draft.old draft.new
        → (q : OrgPlan) (t : Tenant) → StandsIn layout.now.org q (tables_of K.state draft.old) (Some t) → IsLayout q t layout.now
        → FindsKept q t layout.now id.now result }
    ensures form { IfOk result (FitsKept layout.now) }
    ensures calls { Calls K.state 1 (ended result) draft.old draft.new }
{
    call_laws::<K>();
    found_there(kept_record(alloc, draft, layout, id))
}

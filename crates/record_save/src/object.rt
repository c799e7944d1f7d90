//! The rows that count the records of an object, as the tables have them.

ghost use Rattle.std.specs.Prelude.{IfOk, Some};
ghost use Rattle.store_kv.specs.Draft.{DraftTells, tables_of};
ghost use Rattle.model.specs.Objects.{Numbered};
ghost use Rattle.model.specs.Tenant.{Tenant};
ghost use Rattle.record_save.specs.Creating.{IsObject};
ghost use Rattle.record_save.specs.inner.Object.{FitsCounts, ReadsCounts};
ghost use Rattle.store_abstraction.specs.Calls.{Calls, ended};
ghost use Rattle.store_abstraction.specs.Local.{StandsIn};
ghost use Rattle.store_abstraction.specs.Plan.{OrgPlan};

use std::alloc::Global;
use store_abstraction::{Layout, call_laws, object_there, org_there};
use store_kv::{Draft, Keeper, draft_laws};
use store_rows::{ObjectRow, OrgRow, StoreFail};

/// The rows that count the records of an object.
#[derive(Drop)]
pub(crate) struct Counts {
    /// The organisation's.
    pub row: OrgRow,
    /// The object's.
    pub object: ObjectRow,
}

/// The rows that count the records of the object with this layout.
///
/// # Errors
///
/// `Keeper` if the keeper failed, `Memory` if out of memory, `Damaged` never if the organisation's rows stand for a tenant whose
/// layout it is.
pub(crate) fn read_counts<K: Keeper>(
    alloc: Global,
    draft: &mut Draft<'_, K>,
    layout: &Layout,
) -> Result<Counts, StoreFail>
    ensures reads { DraftTells K.state draft.old draft.new
        → (q : OrgPlan) (t : Tenant) (o : Numbered) → StandsIn layout.now.org q (tables_of K.state draft.old) (Some t)
        → IsObject layout.now.org q t o layout.now → ReadsCounts layout.now.org t o result }
    ensures form { IfOk result (FitsCounts layout.now.org) }
    ensures calls { Calls K.state 0 (ended result) draft.old draft.new }
{
    draft_laws::<K>();
    call_laws::<K>();
    let mut object = object_there(alloc, draft, layout.org, layout.object)?;
    let mut row = org_there(alloc, draft, layout.org)?;
    // As they are already, whatever the tables have.
    object.org = layout.org;
    row.org = layout.org;
    Ok(Counts { row, object })
}

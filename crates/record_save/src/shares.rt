//! The manual shares of a record that end where it gets another owner.

ghost use Rattle.std.specs.Prelude.{◌≤◌, IfOk, Some, length};
ghost use Rattle.store_kv.specs.Draft.{DraftTells, tables_of};
ghost use Rattle.model.specs.Tenant.{Tenant};
ghost use Rattle.record_save.specs.inner.Ended.{EndsShares};
ghost use Rattle.store_abstraction.specs.Calls.{Calls, ended};
ghost use Rattle.store_abstraction.specs.Local.{StandsIn};
ghost use Rattle.store_abstraction.specs.Plan.{OrgPlan};

use base_value::Items;
use model::Record;
use record_target::shares_of;
use std::alloc::Global;
use store_abstraction::call_laws;
use store_kv::{Draft, Keeper};
use store_rows::{ShareRow, StoreFail};

/// The rows of the manual shares that end with an edit of a record: all of its, if it gets another owner.
///
/// # Errors
///
/// `Keeper` if the keeper failed, `Memory` if out of memory, `Damaged` never if the organisation's rows stand for a tenant.
pub(crate) fn ended_shares<K: Keeper>(
    alloc: Global,
    draft: &mut Draft<'_, K>,
    org: u32,
    old: &Record,
    new: &Record,
) -> Result<Items<ShareRow>, StoreFail>
    ensures ends { DraftTells K.state draft.old draft.new
        → (q : OrgPlan) (t : Tenant) → StandsIn org q (tables_of K.state draft.old) (Some t)
        → EndsShares org t old.now new.now result }
    ensures few { IfOk result (λ rows. length rows ≤ 100) }
    ensures calls { Calls K.state 0 (ended result) draft.old draft.new }
{
    call_laws::<K>();
    if old.owner == new.owner {
        Ok(Items::new(alloc))
    } else {
        shares_of(alloc, draft, org, &new.id)
    }
}

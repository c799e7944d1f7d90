//! What the deletion of a record comes to.

ghost use Rattle.std.specs.Prelude.{◌≡◌, ◌≤◌, ◌+◌, ℕ, IfOk, Some, length};
ghost use Rattle.record_cascade.specs.Deletion.{DeletesWith};
ghost use Rattle.record_cascade.specs.inner.Holding.{JudgesBy};
ghost use Rattle.store_kv.specs.Draft.{DraftTells, tables_of};
ghost use Rattle.model.specs.declared.record.Record.{Record};
ghost use Rattle.model.specs.Limits.{deletion_limit};
ghost use Rattle.model.specs.Objects.{record_at};
ghost use Rattle.model.specs.Tenant.{Tenant};
ghost use Rattle.store_abstraction.specs.Calls.{Calls, ended_edit};
ghost use Rattle.store_abstraction.specs.Layouts.{own_layouts};
ghost use Rattle.store_abstraction.specs.Local.{StandsIn};
ghost use Rattle.store_abstraction.specs.Plan.{OrgPlan};

use crate::clearing::losing_lookups;
use crate::levels::cascade;
use crate::restricting::restricted_by;
use crate::taking::{in_order, listed, set_of};
use base_value::{Id, Items};
use model::Refusal;
use std::alloc::Global;
use std::collections::BTreeSet;
use store_abstraction::{EditFail, Layout, call_laws};
use store_kv::{Draft, Keeper, draft_laws};

/// What goes with a record, and what loses a lookup.
#[derive(Drop)]
pub struct Deletion {
    /// The ids of the records that go, each once and in their order.
    pub gone: Items<Id>,
    /// The ids of the records that lose a lookup, in their order.
    pub cleared: Items<Id>,
}

// So many records may go and be cleared together.
const MOST: usize = 1000;

// The ids of the records that lose a lookup where these go, in their order; so many records have these ids.
fn judge<K: Keeper>(
    alloc: Global,
    draft: &mut Draft<'_, K>,
    org: u32,
    layouts: &[Layout],
    count: usize,
    gone: &BTreeSet<Id>,
) -> Result<Items<Id>, EditFail>
    ensures judges { DraftTells K.state draft.old draft.new
        → JudgesBy org layouts.now count gone.now.keys (tables_of K.state draft.old) result }
    ensures few { IfOk result (λ cleared. count + length cleared ≤ deletion_limit) }
    ensures calls { Calls K.state 0 (ended_edit result) draft.old draft.new }
{
    draft_laws::<K>();
    call_laws::<K>();
    if let Some(refusal) = restricted_by(alloc, draft, org, layouts, gone)? {
        return Err(EditFail::Refused(refusal));
    }
    if count > MOST {
        return Err(EditFail::Refused(Refusal::CascadeTooLarge));
    }
    let found = losing_lookups(alloc, draft, org, layouts, gone)?;
    let cleared = in_order(alloc, found.as_slice())?;
    if cleared.len() > MOST - count {
        return Err(EditFail::Refused(Refusal::CascadeTooLarge));
    }
    Ok(cleared)
}

/// What the deletion of a record comes to, by the layouts of all objects. It only reads.
///
/// # Errors
///
/// `Refused` with `DeleteFailed` if a record that stays holds one that goes, and with `CascadeTooLarge` if too many would go or be
/// cleared. `Store` with `Keeper` if the keeper failed, `Memory` if out of memory, `Damaged` never if the organisation's rows stand
/// for a tenant whose layouts these are.
pub fn deletion_of<K: Keeper>(
    alloc: Global,
    draft: &mut Draft<'_, K>,
    org: u32,
    layouts: &[Layout],
    id: &Id,
) -> Result<Deletion, EditFail>
    ensures deletes { DraftTells K.state draft.old draft.new
        → (q : OrgPlan) (t : Tenant) (r : Record) → StandsIn org q (tables_of K.state draft.old) (Some t)
        → own_layouts org q (Some t) ≡ layouts.now → record_at t r.id ≡ Some r → r.id ≡ id.now → DeletesWith t r result }
    ensures few { IfOk result (λ d. length d.gone + length d.cleared ≤ deletion_limit) }
    ensures calls { Calls K.state 0 (ended_edit result) draft.old draft.new }
{
    draft_laws::<K>();
    call_laws::<K>();
    let all = cascade(alloc, draft, org, layouts, id)?;
    let gone = set_of(alloc, all.as_slice())?;
    let cleared = judge(alloc, draft, org, layouts, all.len(), &gone)?;
    let gone = Items::from_vec(listed(alloc, gone)?);
    Ok(Deletion { gone, cleared })
}

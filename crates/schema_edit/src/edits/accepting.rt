//! Layouts by which what is added isn't refused.

ghost use Rattle.std.specs.Prelude.{Some};
ghost use Rattle.store_kv.specs.Draft.{DraftTells, tables_of};
ghost use Rattle.schema_edit.specs.Judging.{AcceptsBy};
ghost use Rattle.model.specs.Tenant.{Tenant};
ghost use Rattle.store_abstraction.specs.Calls.{Calls, ended_edit};
ghost use Rattle.store_abstraction.specs.Local.{StandsIn};
ghost use Rattle.store_abstraction.specs.Plan.{OrgPlan};

use crate::judging::Addition;
use base_value::Items;
use std::alloc::Global;
use store_abstraction::{EditFail, Layout, call_laws, layouts};
use store_kv::{Draft, Keeper};

/// The layouts of the organisation's objects, in the order of their numbers, if what is added isn't refused.
///
/// # Errors
///
/// `Refused` as its verdict says. `Store` with `Keeper` if the keeper failed, `Memory` if out of memory, `Damaged` never if the
/// organisation's rows stand for a tenant.
pub fn accepting_layouts<A: Addition, K: Keeper>(
    alloc: Global,
    draft: &mut Draft<'_, K>,
    org: u32,
    new: &A,
) -> Result<Items<Layout>, EditFail>
    ensures accepts { DraftTells K.state draft.old draft.new
        → (q : OrgPlan) (t : Tenant) → StandsIn org q (tables_of K.state draft.old) (Some t)
        → AcceptsBy org q t (A.verdict new.now t) result }
    ensures calls { Calls K.state 0 (ended_edit result) draft.old draft.new }
{
    call_laws::<K>();
    new.refuse_early(alloc, draft, org)?;
    let all = layouts(alloc, draft, org)?;
    if let Some(refusal) = new.refusal(alloc, all.as_slice())? {
        return Err(EditFail::Refused(refusal));
    }
    Ok(all)
}

//! The object that an edit names, and refusals that edits share.

ghost use Rattle.std.specs.Prelude.{◌≡◌, ◌∷◌, [], IfOk};
ghost use Rattle.store_edit.specs.Naming.{NamesLayout};
ghost use Rattle.store_kv.specs.Draft.{DraftTells, tables_of};
ghost use Rattle.model.specs.Rules.{over_limit};
ghost use Rattle.model.specs.Tenant.{Tenant};
ghost use Rattle.model.specs.declared.refusal.Refusal.TheVariants.{InvalidType};
ghost use Rattle.store_abstraction.specs.Calls.{Calls, ended_edit};
ghost use Rattle.store_abstraction.specs.Local.{StandsIn};
ghost use Rattle.store_abstraction.specs.Plan.{OrgPlan};

use base_value::Text;
use model::{Limit, Refusal};
use std::alloc::{AllocError, Global};
use store_abstraction::{EditFail, Layout, call_laws, layout_named};
use store_kv::{Draft, Keeper};

/// That there is no object with this name, or that it doesn't suit.
///
/// # Errors
///
/// When out of memory.
pub fn invalid_type(alloc: Global, name: &Text) -> Result<Refusal, AllocError>
    ensures { IfOk result (λ refusal. refusal ≡ InvalidType name.now) }
{
    Ok(Refusal::InvalidType {
        name: name.copy(alloc)?,
    })
}

/// That a count passes its limit.
pub fn over_limit(limit: Limit, count: u64) -> Option<Refusal>
    ensures { result ≡ over_limit ((limit, count) ∷ []) }
{
    if limit.number() < count {
        Some(Refusal::LimitExceeded { limit })
    } else {
        None
    }
}

/// The layout of the object with this name, without which nothing is edited.
///
/// # Errors
///
/// `Refused` with `InvalidType` if there is no such object. `Store` with `Keeper` if the keeper failed, `Memory` if out of memory,
/// `Damaged` never if the organisation's rows stand for a tenant.
pub fn layout_there<K: Keeper>(
    alloc: Global,
    draft: &mut Draft<'_, K>,
    org: u32,
    name: &Text,
) -> Result<Layout, EditFail>
    ensures names { DraftTells K.state draft.old draft.new
        → (q : OrgPlan) (t : Tenant) → StandsIn org q (tables_of K.state draft.old) (Some t) → NamesLayout org q t name.now result }
    ensures calls { Calls K.state 0 (ended_edit result) draft.old draft.new }
{
    call_laws::<K>();
    match layout_named(alloc, draft, org, name.as_str())? {
        Some(layout) => Ok(layout),
        None => Err(EditFail::Refused(invalid_type(alloc, name)?)),
    }
}

//! The principal with whom a record is shared.

ghost use Rattle.std.specs.Prelude.{◌≡◌, IfOk, Some, codes, false};
ghost use Rattle.store_kv.specs.Draft.{DraftTells, tables_of};
ghost use Rattle.model.specs.Cases.{in_case};
ghost use Rattle.model.specs.declared.refusal.Refusal.TheVariants.{InvalidReference};
ghost use Rattle.model.specs.Principals.{is_there, not_there, principal_of};
ghost use Rattle.model.specs.Tenant.{Tenant};
ghost use Rattle.store_codec.specs.Composed.{FitsPrincipal};
ghost use Rattle.store_edit.specs.Judging.{Passes};
ghost use Rattle.store_abstraction.specs.Calls.{Calls, ended, ended_edit};
ghost use Rattle.store_abstraction.specs.Local.{FindsIn, StandsIn};
ghost use Rattle.store_abstraction.specs.Plan.{OrgPlan};

use crate::texts::principal_in;
use base_value::{Principal, Text, id_laws};
use model::{Refusal, Spelled};
use people_rows::{group, role};
use std::alloc::{AllocError, Global};
use store_abstraction::{EditFail, call_laws, user};
use store_kv::{Draft, Keeper};
use store_rows::StoreFail;

// Whether a principal names a thing of its kind.
fn is_there<K: Keeper>(
    alloc: Global,
    draft: &mut Draft<'_, K>,
    org: u32,
    to: &Principal,
) -> Result<bool, StoreFail>
    ensures finds { DraftTells K.state draft.old draft.new
        → FindsIn org (λ q t. in_case t false (λ u. is_there u to.now)) (tables_of K.state draft.old) result }
    ensures calls { Calls K.state 0 (ended result) draft.old draft.new }
{
    call_laws::<K>();
    match to {
        Principal::User(id) => Ok(user(alloc, draft, org, id)?.is_some()),
        Principal::Role(id) | Principal::Subordinates(id) => {
            Ok(role(alloc, draft, org, id)?.is_some())
        }
        Principal::Group(id) => Ok(group(alloc, draft, org, id)?.is_some()),
    }
}

/// That `to` names nothing.
///
/// # Errors
///
/// When out of memory.
pub(crate) fn bad_reference(alloc: Global) -> Result<Refusal, AllocError>
    ensures { IfOk result (λ refusal. refusal ≡ InvalidReference (codes "to")) }
{
    Ok(Refusal::InvalidReference {
        name: Text::from_str(alloc, "to")?,
    })
}

/// The principal that the body's member `to` spells.
///
/// # Errors
///
/// `Refused` with `InvalidReference` if there is none. `Store` with `Keeper` if the keeper failed, `Memory` if out of memory,
/// `Damaged` never if the organisation's rows stand for a tenant.
pub(crate) fn find_principal<K: Keeper>(
    alloc: Global,
    draft: &mut Draft<'_, K>,
    org: u32,
    spelled: &Spelled,
) -> Result<Principal, EditFail>
    ensures passes { DraftTells K.state draft.old draft.new
        → (q : OrgPlan) (t : Tenant) → StandsIn org q (tables_of K.state draft.old) (Some t)
        → Passes (not_there t (codes "to") (principal_of spelled.now)) (λ p. p ≡ principal_of spelled.now) result }
    ensures fits { IfOk result FitsPrincipal }
    ensures calls { Calls K.state 0 (ended_edit result) draft.old draft.new }
{
    call_laws::<K>();
    id_laws();
    match principal_in(spelled) {
        Some(to) => {
            if is_there(alloc, draft, org, &to)? {
                Ok(to)
            } else {
                Err(EditFail::Refused(bad_reference(alloc)?))
            }
        }
        None => Err(EditFail::Refused(bad_reference(alloc)?)),
    }
}

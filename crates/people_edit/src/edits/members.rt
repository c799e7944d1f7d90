//! The members that a request spells for a group.

ghost use Rattle.std.specs.Prelude.{◌≡◌, ◌≤◌, ◌∷◌, ◌++◌, [], OnOk, Some, false, map};
ghost use Rattle.std.specs.List.{All};
ghost use Rattle.std.specs.Str.{chars};
ghost use Rattle.store_kv.specs.Draft.{DraftTells, tables_of};
ghost use Rattle.model.specs.Cases.{in_case};
ghost use Rattle.model.specs.declared.limit.Limit.TheVariants as limits;
ghost use Rattle.model.specs.Principals.{bad_id, is_there, kind_of, not_there, principal_of};
ghost use Rattle.model.specs.Rules.{first_of, over_limit};
ghost use Rattle.model.specs.Tenant.{Tenant};
ghost use Rattle.store_codec.specs.Composed.{FitsPrincipal};
ghost use Rattle.store_edit.specs.Judging.{Passes};
ghost use Rattle.store_abstraction.specs.Calls.{Calls, ended, ended_edit, fell};
ghost use Rattle.store_abstraction.specs.Local.{FindsIn, StandsIn};
ghost use Rattle.store_abstraction.specs.Plan.{OrgPlan};

use crate::edits::ids::id_of;
use base_value::{Id, Principal, Text};
use model::{Limit, PrincipalKind, Refusal, Spelled};
use people_rows::{group, role};
use std::alloc::{AllocError, Global};
use store_abstraction::{EditFail, call_laws, user};
use store_edit::over_limit;
use store_kv::{Draft, Keeper, draft_laws};
use store_rows::StoreFail;

// The principal of a kind that has this id.
fn principal_with(kind: PrincipalKind, id: Id) -> Principal
    ensures { result ≡ kind_of kind id }
{
    match kind {
        PrincipalKind::User => Principal::User(id),
        PrincipalKind::Role => Principal::Role(id),
        PrincipalKind::Subordinates => Principal::Subordinates(id),
        PrincipalKind::Group => Principal::Group(id),
    }
}

// One member more.
fn add_member(members: &mut Vec<Principal>, member: Principal) -> Result<(), AllocError>
    ensures { OnOk result (members.new.items ≡ members.old.items ++ member ∷ []) }
{
    members.push(member)?;
    Ok(())
}

/// The principals that are spelled.
///
/// # Errors
///
/// `Refused` with `MalformedId` at the first text that is no id, `Store` with `Memory` if out of memory.
pub(crate) fn members_of(alloc: Global, spelled: &[Spelled]) -> Result<Vec<Principal>, EditFail>
    ensures passes { Passes (first_of (λ p. bad_id p.text) spelled.now)
        (λ members. (members.items ≡ map principal_of spelled.now) × All FitsPrincipal members.items) result }
    ensures cause { ended_edit result ≡ fell → ⊥ }
{
    let mut members = Vec::new(alloc);
    for one in spelled {
        let id = id_of(alloc, &one.text)?;
        add_member(&mut members, principal_with(one.kind, id))?;
    }
    Ok(members)
}

// Whether a principal names a thing of its kind.
fn is_there<K: Keeper>(
    alloc: Global,
    draft: &mut Draft<'_, K>,
    org: u32,
    member: &Principal,
) -> Result<bool, StoreFail>
    ensures finds { DraftTells K.state draft.old draft.new
        → FindsIn org (λ q t. in_case t false (λ u. is_there u member.now)) (tables_of K.state draft.old) result }
    ensures calls { Calls K.state 0 (ended result) draft.old draft.new }
{
    call_laws::<K>();
    match member {
        Principal::User(id) => Ok(user(alloc, draft, org, id)?.is_some()),
        Principal::Role(id) | Principal::Subordinates(id) => {
            Ok(role(alloc, draft, org, id)?.is_some())
        }
        Principal::Group(id) => Ok(group(alloc, draft, org, id)?.is_some()),
    }
}

// Refuses a member that isn't there, under the name of the body's member that spells it.
fn find_member<K: Keeper>(
    alloc: Global,
    draft: &mut Draft<'_, K>,
    org: u32,
    name: &str,
    member: &Principal,
) -> Result<(), EditFail>
    ensures passes { DraftTells K.state draft.old draft.new
        → (q : OrgPlan) (t : Tenant) → StandsIn org q (tables_of K.state draft.old) (Some t)
        → Passes (not_there t (chars name.now) member.now) (λ x. Unit {0}) result }
    ensures calls { Calls K.state 0 (ended_edit result) draft.old draft.new }
{
    call_laws::<K>();
    if is_there(alloc, draft, org, member)? {
        Ok(())
    } else {
        Err(EditFail::Refused(Refusal::InvalidReference {
            name: Text::from_str(alloc, name)?,
        }))
    }
}

/// Looks for each member in turn, which the body's member with this name spells.
///
/// # Errors
///
/// `Refused` with `InvalidReference` at the first that isn't there. `Store` with `Keeper` if the keeper failed, `Memory` if out of
/// memory, `Damaged` never if the organisation's rows stand for a tenant.
pub(crate) fn find_members<K: Keeper>(
    alloc: Global,
    draft: &mut Draft<'_, K>,
    org: u32,
    name: &str,
    members: &[Principal],
) -> Result<(), EditFail>
    ensures passes { DraftTells K.state draft.old draft.new
        → (q : OrgPlan) (t : Tenant) → StandsIn org q (tables_of K.state draft.old) (Some t)
        → Passes (first_of (not_there t (chars name.now)) members.now) (λ x. Unit {0}) result }
    ensures calls { Calls K.state 0 (ended_edit result) draft.old draft.new }
{
    draft_laws::<K>();
    call_laws::<K>();
    for member in members {
        find_member(alloc, draft, org, name, member)?;
    }
    Ok(())
}

/// Refuses more members than a group may have.
///
/// # Errors
///
/// `Refused` with `LimitExceeded`.
pub(crate) fn check_count(count: usize) -> Result<(), EditFail>
    ensures passes { Passes (over_limit ((limits.MembersPerGroup, count) ∷ [])) (λ x. count ≤ 500) result }
    ensures cause { ended_edit result ≡ fell → ⊥ }
{
    match over_limit(Limit::MembersPerGroup, count as u64) {
        None => Ok(()),
        Some(refusal) => Err(EditFail::Refused(refusal)),
    }
}

//! The principals of a new rule, in the order in which its body has the members that spell them.

ghost use Rattle.std.specs.Prelude.{◌≡◌, Some, bytes_eq};
ghost use Rattle.std.specs.Str.{chars};
ghost use Rattle.store_kv.specs.Draft.{DraftTells, tables_of};
ghost use Rattle.model.specs.Principals.{bad_id, not_there, principal_of};
ghost use Rattle.model.specs.Rules.{in_body_order, rule_of};
ghost use Rattle.model.specs.Tenant.{Tenant};
ghost use Rattle.access_rules.specs.inner.Adding.{id_rules, there_rules};
ghost use Rattle.store_edit.specs.Judging.{Passes};
ghost use Rattle.store_abstraction.specs.Calls.{Calls, ended_edit, fell};
ghost use Rattle.store_abstraction.specs.Local.{StandsIn};
ghost use Rattle.store_abstraction.specs.Plan.{OrgPlan};

use crate::principals::principal_there;
use crate::spelled::principal_in;
use base_value::{Principal, Text, id_laws};
use model::{NewSharingRule, Refusal, Spelled, SpelledSource};
use std::alloc::Global;
use store_abstraction::{EditFail, call_laws};
use store_kv::{Draft, Keeper, draft_laws};

// Whether a member has this name.
fn is_member(member: &Text, name: &str) -> bool
    ensures { result ≡ bytes_eq (chars name.now) member.now }
{
    member.as_str() == name
}

// Refuses a text that is no id.
fn check_spelled(alloc: Global, spelled: &Spelled) -> Result<(), EditFail>
    ensures passes { Passes (bad_id spelled.now.text) (λ x. Unit {0}) result }
    ensures cause { ended_edit result ≡ fell → ⊥ }
{
    match principal_in(spelled) {
        Some(_) => Ok(()),
        None => Err(EditFail::Refused(Refusal::MalformedId {
            text: spelled.text.copy(alloc)?,
        })),
    }
}

// The same of what a member spells, if it spells a principal.
fn check_id(alloc: Global, member: &Text, new: &NewSharingRule) -> Result<(), EditFail>
    ensures passes { Passes (rule_of (id_rules new.now) member.now) (λ x. Unit {0}) result }
    ensures cause { ended_edit result ≡ fell → ⊥ }
{
    if is_member(member, "to") {
        check_spelled(alloc, &new.to)
    } else if is_member(member, "from") {
        match &new.source {
            SpelledSource::Owner(owner) => check_spelled(alloc, owner),
            SpelledSource::Criteria(_) => Ok(()),
        }
    } else {
        Ok(())
    }
}

/// Refuses the first text that is no id, in the order of the body's members.
///
/// # Errors
///
/// `Refused` with `MalformedId`, `Store` with `Memory` if out of memory.
pub(crate) fn check_ids(
    alloc: Global,
    members: &[Text],
    new: &NewSharingRule,
) -> Result<(), EditFail>
    ensures passes { Passes (in_body_order members.now (id_rules new.now)) (λ x. Unit {0}) result }
    ensures cause { ended_edit result ≡ fell → ⊥ }
{
    for member in members {
        check_id(alloc, member, new)?;
    }
    Ok(())
}

// Refuses a principal that isn't there, under the name of the member that spells it.
fn find_there<K: Keeper>(
    alloc: Global,
    draft: &mut Draft<'_, K>,
    org: u32,
    member: &str,
    principal: &Principal,
) -> Result<(), EditFail>
    ensures passes { DraftTells K.state draft.old draft.new
        → (q : OrgPlan) (t : Tenant) → StandsIn org q (tables_of K.state draft.old) (Some t)
        → Passes (not_there t (chars member.now) principal.now) (λ x. Unit {0}) result }
    ensures calls { Calls K.state 0 (ended_edit result) draft.old draft.new }
{
    call_laws::<K>();
    if principal_there(alloc, draft, org, principal)? {
        Ok(())
    } else {
        Err(EditFail::Refused(Refusal::InvalidReference {
            name: Text::from_str(alloc, member)?,
        }))
    }
}

// The same of one that is spelled. What is no id names nothing.
fn find_spelled<K: Keeper>(
    alloc: Global,
    draft: &mut Draft<'_, K>,
    org: u32,
    member: &str,
    spelled: &Spelled,
) -> Result<(), EditFail>
    ensures passes { DraftTells K.state draft.old draft.new
        → (q : OrgPlan) (t : Tenant) → StandsIn org q (tables_of K.state draft.old) (Some t)
        → Passes (not_there t (chars member.now) (principal_of spelled.now)) (λ x. Unit {0}) result }
    ensures calls { Calls K.state 0 (ended_edit result) draft.old draft.new }
{
    call_laws::<K>();
    id_laws();
    match principal_in(spelled) {
        Some(principal) => find_there(alloc, draft, org, member, &principal),
        None => Err(EditFail::Refused(Refusal::InvalidReference {
            name: Text::from_str(alloc, member)?,
        })),
    }
}

// The same of what a member spells, if it spells a principal.
fn find_principal<K: Keeper>(
    alloc: Global,
    draft: &mut Draft<'_, K>,
    org: u32,
    member: &Text,
    new: &NewSharingRule,
) -> Result<(), EditFail>
    ensures passes { DraftTells K.state draft.old draft.new
        → (q : OrgPlan) (t : Tenant) → StandsIn org q (tables_of K.state draft.old) (Some t)
        → Passes (rule_of (there_rules t new.now) member.now) (λ x. Unit {0}) result }
    ensures calls { Calls K.state 0 (ended_edit result) draft.old draft.new }
{
    call_laws::<K>();
    if is_member(member, "to") {
        find_spelled(alloc, draft, org, "to", &new.to)
    } else if is_member(member, "from") {
        match &new.source {
            SpelledSource::Owner(owner) => find_spelled(alloc, draft, org, "from", owner),
            SpelledSource::Criteria(_) => Ok(()),
        }
    } else {
        Ok(())
    }
}

/// Refuses the first principal that isn't there, in the order of the body's members.
///
/// # Errors
///
/// `Refused` with `InvalidReference`. `Store` with `Keeper` if the keeper failed, `Memory` if out of memory, `Damaged` never if the
/// organisation's rows stand for a tenant.
pub(crate) fn find_principals<K: Keeper>(
    alloc: Global,
    draft: &mut Draft<'_, K>,
    org: u32,
    members: &[Text],
    new: &NewSharingRule,
) -> Result<(), EditFail>
    ensures passes { DraftTells K.state draft.old draft.new
        → (q : OrgPlan) (t : Tenant) → StandsIn org q (tables_of K.state draft.old) (Some t)
        → Passes (in_body_order members.now (there_rules t new.now)) (λ x. Unit {0}) result }
    ensures calls { Calls K.state 0 (ended_edit result) draft.old draft.new }
{
    draft_laws::<K>();
    call_laws::<K>();
    for member in members {
        find_principal(alloc, draft, org, member, new)?;
    }
    Ok(())
}

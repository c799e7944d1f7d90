//! What may name a role or a group: it isn't removed while something does.

ghost use Rattle.std.specs.Prelude.{◌≡◌, ◌∷◌, [], Some, codes};
ghost use Rattle.std.specs.List.{list_any};
ghost use Rattle.std.specs.Str.{chars};
ghost use Rattle.store_edit.specs.Judging.{Passes};
ghost use Rattle.store_kv.specs.Draft.{DraftTells, tables_of};
ghost use Rattle.model.specs.Rules.{first_refusal};
ghost use Rattle.model.specs.Tenant.{Tenant};
ghost use Rattle.model_requests.specs.Removals.{is_id, named_in};
ghost use Rattle.people_removal.specs.inner.Naming.{containers, holders, is_from_part, names, principals_with, rules_with, shared_with, shares_with, uses};
ghost use Rattle.store_abstraction.specs.Calls.{Calls, ended_edit, fell};
ghost use Rattle.store_abstraction.specs.Local.{StandsIn};
ghost use Rattle.store_abstraction.specs.Plan.{OrgPlan};

use crate::named::{Named, is_above_any, is_from_any, is_in_any, is_role_of_any, is_to_any};
use crate::shares::any_share;
use base_value::{Id, Text};
use model::Refusal;
use people_rows::{groups_of, roles_of, sharing_rules_of, users_of};
use std::alloc::Global;
use store_abstraction::{EditFail, call_laws};
use store_kv::{Draft, Keeper};
use store_rows::SharingRow;

// Refuses if a member of such things names it.
fn refuse(alloc: Global, things: &str, member: &str, names: bool) -> Result<(), EditFail>
    ensures passes { Passes (first_refusal (named_in (chars things.now) (chars member.now) names ∷ [])) (λ x. Unit {0}) result }
    ensures cause { ended_edit result ≡ fell → ⊥ }
{
    if names {
        Err(EditFail::Refused(Refusal::DeleteFailed {
            object: Text::from_str(alloc, things)?,
            field: Text::from_str(alloc, member)?,
        }))
    } else {
        Ok(())
    }
}

// Refuses if a user has the role with this id.
fn check_users<K: Keeper>(
    alloc: Global,
    draft: &mut Draft<'_, K>,
    org: u32,
    id: &Id,
) -> Result<(), EditFail>
    ensures passes { DraftTells K.state draft.old draft.new
        → (q : OrgPlan) (t : Tenant) → StandsIn org q (tables_of K.state draft.old) (Some t)
        → Passes (first_refusal (named_in (codes "users") (codes "role") (list_any (λ u. is_id id.now u.role) t.users) ∷ []))
        (λ x. Unit {0}) result }
    ensures calls { Calls K.state 0 (ended_edit result) draft.old draft.new }
{
    call_laws::<K>();
    let users = users_of(alloc, draft, org)?;
    refuse(alloc, "users", "role", is_role_of_any(id, users.as_slice()))
}

// Refuses if a role is below the one with this id.
fn check_roles<K: Keeper>(
    alloc: Global,
    draft: &mut Draft<'_, K>,
    org: u32,
    id: &Id,
) -> Result<(), EditFail>
    ensures passes { DraftTells K.state draft.old draft.new
        → (q : OrgPlan) (t : Tenant) → StandsIn org q (tables_of K.state draft.old) (Some t)
        → Passes (first_refusal (named_in (codes "roles") (codes "parent") (list_any (λ r. is_id id.now r.parent) t.roles) ∷ []))
        (λ x. Unit {0}) result }
    ensures calls { Calls K.state 0 (ended_edit result) draft.old draft.new }
{
    call_laws::<K>();
    let roles = roles_of(alloc, draft, org)?;
    refuse(alloc, "roles", "parent", is_above_any(id, roles.as_slice()))
}

// Refuses if a user or a role names the role with this id.
fn check_holders<K: Keeper>(
    alloc: Global,
    draft: &mut Draft<'_, K>,
    org: u32,
    id: &Id,
) -> Result<(), EditFail>
    ensures passes { DraftTells K.state draft.old draft.new
        → (q : OrgPlan) (t : Tenant) → StandsIn org q (tables_of K.state draft.old) (Some t)
        → Passes (first_refusal (holders t id.now)) (λ x. Unit {0}) result }
    ensures calls { Calls K.state 0 (ended_edit result) draft.old draft.new }
{
    call_laws::<K>();
    check_users(alloc, draft, org, id)?;
    check_roles(alloc, draft, org, id)
}

// Refuses if a group has it as a member, or one of its principals. A group in itself doesn't count.
fn check_groups<K: Keeper>(
    alloc: Global,
    draft: &mut Draft<'_, K>,
    org: u32,
    named: &Named,
) -> Result<(), EditFail>
    ensures passes { DraftTells K.state draft.old draft.new
        → (q : OrgPlan) (t : Tenant) → StandsIn org q (tables_of K.state draft.old) (Some t)
        → Passes (first_refusal (containers t named.now)) (λ x. Unit {0}) result }
    ensures calls { Calls K.state 0 (ended_edit result) draft.old draft.new }
{
    call_laws::<K>();
    let groups = groups_of(alloc, draft, org)?;
    refuse(
        alloc,
        "groups",
        "members",
        is_in_any(named, groups.as_slice()),
    )
}

// Refuses if one of these sharing rules names it.
fn refuse_rules(alloc: Global, rules: &[SharingRow], named: &Named) -> Result<(), EditFail>
    ensures passes { Passes (first_refusal (
        named_in (codes "sharing-rules") (codes "from") (list_any (λ r. is_from_part (names named.now) r.source) rules.now)
        ∷ named_in (codes "sharing-rules") (codes "to") (list_any (λ r. names named.now r.to) rules.now)
        ∷ [])) (λ x. Unit {0}) result }
    ensures cause { ended_edit result ≡ fell → ⊥ }
{
    refuse(alloc, "sharing-rules", "from", is_from_any(named, rules))?;
    refuse(alloc, "sharing-rules", "to", is_to_any(named, rules))
}

// The same of all sharing rules.
fn check_rules<K: Keeper>(
    alloc: Global,
    draft: &mut Draft<'_, K>,
    org: u32,
    named: &Named,
) -> Result<(), EditFail>
    ensures passes { DraftTells K.state draft.old draft.new
        → (q : OrgPlan) (t : Tenant) → StandsIn org q (tables_of K.state draft.old) (Some t)
        → Passes (first_refusal (rules_with t named.now)) (λ x. Unit {0}) result }
    ensures calls { Calls K.state 0 (ended_edit result) draft.old draft.new }
{
    call_laws::<K>();
    let rules = sharing_rules_of(alloc, draft, org)?;
    refuse_rules(alloc, rules.as_slice(), named)
}

// Refuses if a manual share names it.
fn check_shares<K: Keeper>(
    alloc: Global,
    draft: &mut Draft<'_, K>,
    org: u32,
    named: &Named,
) -> Result<(), EditFail>
    ensures passes { DraftTells K.state draft.old draft.new
        → (q : OrgPlan) (t : Tenant) → StandsIn org q (tables_of K.state draft.old) (Some t)
        → Passes (first_refusal (shares_with t named.now)) (λ x. Unit {0}) result }
    ensures calls { Calls K.state 0 (ended_edit result) draft.old draft.new }
{
    call_laws::<K>();
    let named = any_share(alloc, draft, org, named)?;
    refuse(alloc, "shares", "to", named)
}

// Refuses if a sharing rule or a manual share names it.
fn check_shared<K: Keeper>(
    alloc: Global,
    draft: &mut Draft<'_, K>,
    org: u32,
    named: &Named,
) -> Result<(), EditFail>
    ensures passes { DraftTells K.state draft.old draft.new
        → (q : OrgPlan) (t : Tenant) → StandsIn org q (tables_of K.state draft.old) (Some t)
        → Passes (first_refusal (shared_with t named.now)) (λ x. Unit {0}) result }
    ensures calls { Calls K.state 0 (ended_edit result) draft.old draft.new }
{
    call_laws::<K>();
    check_rules(alloc, draft, org, named)?;
    check_shares(alloc, draft, org, named)
}

// Refuses if a group, a sharing rule or a manual share names it.
fn check_principals<K: Keeper>(
    alloc: Global,
    draft: &mut Draft<'_, K>,
    org: u32,
    named: &Named,
) -> Result<(), EditFail>
    ensures passes { DraftTells K.state draft.old draft.new
        → (q : OrgPlan) (t : Tenant) → StandsIn org q (tables_of K.state draft.old) (Some t)
        → Passes (first_refusal (principals_with t named.now)) (λ x. Unit {0}) result }
    ensures calls { Calls K.state 0 (ended_edit result) draft.old draft.new }
{
    call_laws::<K>();
    check_groups(alloc, draft, org, named)?;
    check_shared(alloc, draft, org, named)
}

/// Refuses if something names it, in the order of the rules: users, roles, groups, sharing rules, manual shares.
///
/// # Errors
///
/// `Refused` with `DeleteFailed`. `Store` with `Keeper` if the keeper failed, `Memory` if out of memory, `Damaged` never if the
/// organisation's rows stand for a tenant.
pub(crate) fn check_uses<K: Keeper>(
    alloc: Global,
    draft: &mut Draft<'_, K>,
    org: u32,
    named: &Named,
) -> Result<(), EditFail>
    ensures passes { DraftTells K.state draft.old draft.new
        → (q : OrgPlan) (t : Tenant) → StandsIn org q (tables_of K.state draft.old) (Some t)
        → Passes (first_refusal (uses t named.now)) (λ x. Unit {0}) result }
    ensures calls { Calls K.state 0 (ended_edit result) draft.old draft.new }
{
    call_laws::<K>();
    match named {
        Named::Role(id) => {
            check_holders(alloc, draft, org, id)?;
            check_principals(alloc, draft, org, named)
        }
        Named::Group(_) => check_principals(alloc, draft, org, named),
    }
}

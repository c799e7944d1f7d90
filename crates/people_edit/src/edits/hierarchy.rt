//! Which role may be above which.

ghost use Rattle.std.specs.Prelude.{◌≡◌, Some, is_none, length, suc};
ghost use Rattle.std.specs.Option.{option_copied};
ghost use Rattle.std.specs.Str.{chars};
ghost use Rattle.store_kv.specs.Draft.{DraftTells, tables_of};
ghost use Rattle.model.specs.Membership.{is_below_within};
ghost use Rattle.model.specs.Tenant.{Tenant};
ghost use Rattle.people_edit.specs.inner.Changing.{above_in, bad_parent_id, is_bad_above, row_with};
ghost use Rattle.store_edit.specs.Judging.{Passes};
ghost use Rattle.store_abstraction.specs.Calls.{Calls, ended_edit};
ghost use Rattle.store_abstraction.specs.Local.{StandsIn};
ghost use Rattle.store_abstraction.specs.Plan.{OrgPlan};

use base_value::{Id, Text};
use model::Refusal;
use people_rows::roles_of;
use std::alloc::Global;
use store_abstraction::{EditFail, call_laws};
use store_kv::{Draft, Keeper};
use store_rows::RoleRow;

// The role with this id, if there is one.
fn role_among<'a>(roles: &'a [RoleRow], id: &Id) -> Option<&'a RoleRow>
    ensures { option_copied result ≡ row_with roles.now id.now }
{
    roles.iter().find(|role| *id == role.id)
}

// The role above the one with this id, if there are both.
fn above(roles: &[RoleRow], id: &Id) -> Option<Id>
    ensures { result ≡ above_in roles.now id.now }
{
    match role_among(roles, id) {
        None => None,
        Some(role) => role.parent,
    }
}

// Whether the first role is below the second. There are no more steps up than roles.
fn is_below(roles: &[RoleRow], role: &Id, other: &Id) -> bool
    ensures { result ≡ is_below_within (suc (length roles.now)) (above_in roles.now) role.now other.now }
{
    let mut at = *role;
    let mut left = roles.len();
    'steps: loop {
        match above(roles, &at) {
            None => return false,
            Some(next) => at = next,
        }
        if at == *other {
            return true;
        }
        if left == 0 {
            return false;
        }
        left -= 1;
    }
}

// Whether there is no role with this id.
fn is_absent(roles: &[RoleRow], id: &Id) -> bool
    ensures { result ≡ is_none (row_with roles.now id.now) }
{
    match role_among(roles, id) {
        None => true,
        Some(_) => false,
    }
}

// Whether a role with this id may not be above one: it isn't there, or it is that role or one below it.
fn is_bad_above(roles: &[RoleRow], role: &Id, parent: &Id) -> bool
    ensures { result ≡ is_bad_above roles.now role.now parent.now }
{
    is_absent(roles, parent) || *parent == *role || is_below(roles, parent, role)
}

/// Looks whether a role with this id may be above a role, if there is an id, which the body's member with this name spells.
///
/// # Errors
///
/// `Refused` with `InvalidReference` if it may not: if it isn't there, or is that role or one below it. `Store` with `Keeper` if the
/// keeper failed, `Memory` if out of memory, `Damaged` never if the organisation's rows stand for a tenant.
pub(crate) fn check_parent<K: Keeper>(
    alloc: Global,
    draft: &mut Draft<'_, K>,
    org: u32,
    member: &str,
    role: &Id,
    parent: &Option<Id>,
) -> Result<(), EditFail>
    ensures passes { DraftTells K.state draft.old draft.new
        → (q : OrgPlan) (t : Tenant) → StandsIn org q (tables_of K.state draft.old) (Some t)
        → Passes (bad_parent_id t (chars member.now) role.now parent.now) (λ x. Unit {0}) result }
    ensures calls { Calls K.state 0 (ended_edit result) draft.old draft.new }
{
    call_laws::<K>();
    match parent {
        None => Ok(()),
        Some(parent) => {
            let roles = roles_of(alloc, draft, org)?;
            if is_bad_above(roles.as_slice(), role, parent) {
                Err(EditFail::Refused(Refusal::InvalidReference {
                    name: Text::from_str(alloc, member)?,
                }))
            } else {
                Ok(())
            }
        }
    }
}

//! Whether principals reach the user, and whose records are the user's, where the role hierarchy counts and where it doesn't.

ghost use Rattle.std.specs.Prelude.{◌≡◌, ◌&&◌, ◌||◌, ℕ, Bool, IfOk, bytes_eq, false, option_copied};
ghost use Rattle.model.specs.Cases.{in_case};
ghost use Rattle.model.specs.Membership.{is_above, reaches_on};
ghost use Rattle.model.specs.Tenant.{Tenant, User};
ghost use Rattle.model.specs.World.{user_at};
ghost use Rattle.access_user.specs.level.Own.{IsSharerOf, MembersFor};

use access_closure::{Membership, People, Sharer};
use base_value::{Id, Principal};
use std::alloc::{AllocError, Global};

/// What the user with this id is a member of, where the role hierarchy doesn't count. Where it counts, nothing is made.
///
/// # Errors
///
/// Where memory runs out.
pub(crate) fn members_for(
    alloc: Global,
    people: &People,
    user: &Id,
    hierarchy: bool,
) -> Result<Option<Membership>, AllocError>
    ensures { IfOk result (MembersFor hierarchy people.now user.now) }
{
    if hierarchy {
        return Ok(None);
    }
    Ok(Some(Membership::of(alloc, people, user)?))
}

/// Whether a principal reaches the user: whether the user is a member, or, where the role hierarchy counts, above a member.
pub(crate) fn reaches(sharer: &Sharer, members: Option<&Membership>, principal: &Principal) -> bool
    ensures { (hierarchy : Bool) (org : ℕ) (t : Tenant) (u : User) → IsSharerOf org t u sharer.now
        → MembersFor hierarchy sharer.now.people u.id (option_copied members.entry) → result ≡ reaches_on hierarchy t principal.now u }
{
    match members {
        Some(members) => members.is_member(&sharer.people, principal),
        None => sharer.reaches(principal),
    }
}

/// Whether the id is the user's, or, where the role hierarchy counts, that of a user below.
pub(crate) fn owns_id(sharer: &Sharer, members: Option<&Membership>, id: &Id) -> bool
    ensures { (hierarchy : Bool) (org : ℕ) (t : Tenant) (u : User) → IsSharerOf org t u sharer.now
        → MembersFor hierarchy sharer.now.people u.id (option_copied members.entry)
        → result ≡ in_case (user_at t.users id.now) false (λ x. bytes_eq x.id u.id || (hierarchy && is_above t u x)) }
{
    match members {
        Some(members) => members.is_member(&sharer.people, &Principal::User(*id)),
        None => sharer.owns(id),
    }
}

//! The users that a keyring is of.

ghost use Rattle.std.specs.Prelude.{◌≡◌, IfOk, T, false, replicate, slice_set, true};
ghost use Rattle.model.specs.Cases.{in_case};
ghost use Rattle.model.specs.SoundPeople.{ids_rise};
ghost use Rattle.access_closure.specs.Places.{role_row_id};
ghost use Rattle.access_closure.specs.inner.Chosen.{AddsBelow, IsAlone, IsUserAndBelow, role_among, roles_with, set_at, users_with};
ghost use Rattle.access_closure.specs.inner.Order.{AreInOrder};

use crate::graph::{Edge, is_any_on, is_on, set_on};
use crate::people::{People, place_of_role, role_of, user_place};
use crate::roles::roles_below;
use base_value::Id;
use std::alloc::{AllocError, Global};
use store_rows::{RoleRow, UserRow};

/// Some users, and their roles, by places.
#[derive(Drop)]
pub(crate) struct Chosen {
    pub(crate) users: Vec<bool>,
    pub(crate) roles: Vec<bool>,
}

// So many flags, of which that at a place is set, if there is a place.
fn flags_with(alloc: Global, count: usize, place: Option<usize>) -> Result<Vec<bool>, AllocError>
    ensures { IfOk result (λ flags. flags.items ≡ set_at (replicate count false) place) }
{
    let mut flags = vec![in alloc; false; count]?;
    if let Some(place) = place {
        set_on(&mut flags, place);
    }
    Ok(flags)
}

/// The user with this id alone.
///
/// # Errors
///
/// Where memory runs out.
pub(crate) fn choose(alloc: Global, people: &People, user: &Id) -> Result<Chosen, AllocError>
    ensures { IfOk result (λ chosen. AreInOrder people.now → IsAlone people.now user.now chosen) }
{
    let place = user_place(people.users.as_slice(), user);
    let users = flags_with(alloc, people.users.len(), place)?;
    let role = role_of(people, user);
    let roles = flags_with(alloc, people.roles.len(), role)?;
    Ok(Chosen { users, roles })
}

// The place of a user's role, if it is one of these.
fn role_among(roles: &[RoleRow], below: &[bool], row: &UserRow) -> Option<usize>
    ensures { T (ids_rise role_row_id roles.now) → result ≡ role_among roles.now below.now row.now }
{
    let role = place_of_role(roles, row)?;
    if is_on(below, role) { Some(role) } else { None }
}

// The user at a place with this role, if there is a role.
fn add_user(chosen: &mut Chosen, place: usize, role: Option<usize>)
    ensures users { chosen.new.users.items ≡ in_case role chosen.old.users.items (λ m. slice_set chosen.old.users.items place true) }
    ensures roles { chosen.new.roles.items ≡ set_at chosen.old.roles.items role }
{
    if let Some(role) = role {
        set_on(&mut chosen.users, place);
        set_on(&mut chosen.roles, role);
    }
}

// Also each of the users whose role is one of these.
fn choose_more(chosen: &mut Chosen, users: &[UserRow], roles: &[RoleRow], below: &[bool])
    ensures users { T (ids_rise role_row_id roles.now)
        → chosen.new.users.items ≡ users_with roles.now below.now 0 users.now chosen.old.users.items }
    ensures roles { T (ids_rise role_row_id roles.now)
        → chosen.new.roles.items ≡ roles_with roles.now below.now users.now chosen.old.roles.items }
{
    let mut place = 0;
    for row in users {
        add_user(chosen, place, role_among(roles, below, row));
        place += 1;
    }
}

// Also the users whose role is below the role at a place.
fn with_below(
    alloc: Global,
    people: &People,
    up: &[Edge],
    alone: Chosen,
    role: usize,
) -> Result<Chosen, AllocError>
    ensures { IfOk result (λ chosen. AreInOrder people.now → AddsBelow people.now up.now role alone chosen) }
{
    let below = roles_below(alloc, up, role, people.roles.len())?;
    let lower = below.as_slice();
    if !is_any_on(lower) {
        return Ok(alone);
    }
    let mut chosen = alone;
    choose_more(
        &mut chosen,
        people.users.as_slice(),
        people.roles.as_slice(),
        lower,
    );
    Ok(chosen)
}

/// The user with this id, and all users below.
///
/// # Errors
///
/// Where memory runs out.
pub(crate) fn choose_all(
    alloc: Global,
    people: &People,
    up: &[Edge],
    user: &Id,
) -> Result<Chosen, AllocError>
    ensures { IfOk result (λ chosen. AreInOrder people.now → IsUserAndBelow people.now up.now user.now chosen) }
{
    let alone = choose(alloc, people, user)?;
    match role_of(people, user) {
        Some(role) => with_below(alloc, people, up, alone, role),
        None => Ok(alone),
    }
}

//! The principals of some users, by places.

ghost use Rattle.std.specs.Prelude.{◌≡◌, ◌++◌, IfOk, OnOk, T, false};
ghost use Rattle.std.specs.List.{list_any};
ghost use Rattle.model.specs.Cases.{in_case};
ghost use Rattle.model.specs.SoundPeople.{ids_rise};
ghost use Rattle.access_closure.specs.Held.{is_held, is_held_directly};
ghost use Rattle.access_closure.specs.Places.{group_row_id, is_on};
ghost use Rattle.access_closure.specs.inner.Order.{AreInOrder};
ghost use Rattle.access_closure.specs.inner.Rings.{IsRing, group_edges, groups_held, member_edge, member_edges};

use crate::chosen::Chosen;
use crate::graph::{Edge, is_on, reach};
use crate::people::{People, group_place, role_place, user_place};
use base_value::Principal;
use std::alloc::{AllocError, Global};
use store_rows::GroupRow;

/// The principals that some users are members of: of each user, role and group whether it is one, and of each role whether its
/// subordinates are.
#[derive(Drop)]
pub(crate) struct Ring {
    pub(crate) users: Vec<bool>,
    pub(crate) roles: Vec<bool>,
    pub(crate) subordinates: Vec<bool>,
    pub(crate) groups: Vec<bool>,
}

// Whether there is a place and its flag is set.
fn is_on_at(flags: &[bool], place: Option<usize>) -> bool
    ensures { result ≡ in_case place false (is_on flags.now) }
{
    match place {
        Some(place) => is_on(flags, place),
        None => false,
    }
}

impl Ring {
    // Whether a principal is held, groups aside.
    fn holds_directly(&self, people: &People, principal: &Principal) -> bool
        ensures { AreInOrder people.now → result ≡ is_held_directly people.now self.now principal.now }
    {
        match principal {
            Principal::User(id) => {
                is_on_at(
                    self.users.as_slice(),
                    user_place(people.users.as_slice(), id),
                )
            }
            Principal::Role(id) => {
                is_on_at(
                    self.roles.as_slice(),
                    role_place(people.roles.as_slice(), id),
                )
            }
            Principal::Subordinates(id) => is_on_at(
                self.subordinates.as_slice(),
                role_place(people.roles.as_slice(), id),
            ),
            Principal::Group(_) => false,
        }
    }

    /// Whether a principal is held.
    pub(crate) fn holds(&self, people: &People, principal: &Principal) -> bool
        ensures { AreInOrder people.now → result ≡ is_held people.now self.now principal.now }
    {
        match principal {
            Principal::Group(id) => is_on_at(
                self.groups.as_slice(),
                group_place(people.groups.as_slice(), id),
            ),
            other => self.holds_directly(people, other),
        }
    }

    // Whether one of some principals is held, groups aside.
    fn holds_one_of(&self, people: &People, members: &[Principal]) -> bool
        ensures { AreInOrder people.now → result ≡ list_any (is_held_directly people.now self.now) members.now }
    {
        for member in members {
            if self.holds_directly(people, member) {
                return true;
            }
        }
        false
    }

    // The groups one of whose members is held, groups aside.
    fn groups_held(&self, alloc: Global, people: &People) -> Result<Vec<bool>, AllocError>
        ensures { IfOk result (λ flags. AreInOrder people.now → flags.items ≡ groups_held people.now self.now) }
    {
        let groups = people.groups.as_slice();
        let mut flags = Vec::with_capacity(alloc, groups.len())?;
        for group in groups {
            flags.push(self.holds_one_of(people, group.members.as_slice()))?;
        }
        Ok(flags)
    }
}

// Adds an edge to the group at a place from a member, if that is a group.
fn add_member(
    edges: &mut Vec<Edge>,
    groups: &[GroupRow],
    place: usize,
    member: &Principal,
) -> Result<(), AllocError>
    ensures { OnOk result (T (ids_rise group_row_id groups.now)
        → edges.new.items ≡ edges.old.items ++ member_edge groups.now place member.now) }
{
    if let Principal::Group(id) = member {
        if let Some(from) = group_place(groups, id) {
            edges.push(Edge { from, to: place })?;
        }
    }
    Ok(())
}

// Adds an edge to the group at a place from each group among its members.
fn add_members(
    edges: &mut Vec<Edge>,
    groups: &[GroupRow],
    place: usize,
    members: &[Principal],
) -> Result<(), AllocError>
    ensures { OnOk result (T (ids_rise group_row_id groups.now)
        → edges.new.items ≡ edges.old.items ++ member_edges groups.now place members.now) }
{
    for member in members {
        add_member(edges, groups, place, member)?;
    }
    Ok(())
}

// From each group an edge to each group that has it as a member.
fn group_edges(alloc: Global, groups: &[GroupRow]) -> Result<Vec<Edge>, AllocError>
    ensures { IfOk result (λ edges. T (ids_rise group_row_id groups.now) → edges.items ≡ group_edges groups.now 0 groups.now) }
{
    let mut edges = Vec::new(alloc);
    let mut place = 0;
    for group in groups {
        add_members(&mut edges, groups, place, group.members.as_slice())?;
        place += 1;
    }
    Ok(edges)
}

/// The principals of some users.
///
/// # Errors
///
/// Where memory runs out.
pub(crate) fn ring_of(
    alloc: Global,
    people: &People,
    chosen: Chosen,
    up: &[Edge],
) -> Result<Ring, AllocError>
    ensures { IfOk result (λ ring. AreInOrder people.now → IsRing people.now chosen up.now ring) }
{
    let Chosen { users, roles } = chosen;
    let mut subordinates = Vec::from_slice(alloc, roles.as_slice())?;
    reach(alloc, &mut subordinates, up)?;
    let mut ring = Ring {
        users,
        roles,
        subordinates,
        groups: Vec::new(alloc),
    };
    let mut groups = ring.groups_held(alloc, people)?;
    let edges = group_edges(alloc, people.groups.as_slice())?;
    reach(alloc, &mut groups, edges.as_slice())?;
    ring.groups = groups;
    Ok(ring)
}

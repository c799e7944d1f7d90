//! Which roles are above which, and below which.

ghost use Rattle.std.specs.Prelude.{◌≡◌, ◌++◌, IfOk, OnOk, T, false, map, replicate};
ghost use Rattle.model.specs.SoundPeople.{ids_rise};
ghost use Rattle.access_closure.specs.Places.{role_row_id};
ghost use Rattle.access_closure.specs.inner.Chosen.{edge_back, edges_up, up_edge, with_sources};
ghost use Rattle.access_closure.specs.inner.Reached.{Closes};

use crate::graph::{Edge, reach, set_on};
use crate::people::role_place;
use std::alloc::{AllocError, Global};
use store_rows::RoleRow;

// Adds an edge from the role at a place to the role above it, if there is one.
fn add_up(
    edges: &mut Vec<Edge>,
    roles: &[RoleRow],
    place: usize,
    role: &RoleRow,
) -> Result<(), AllocError>
    ensures { OnOk result (T (ids_rise role_row_id roles.now) → edges.new.items ≡ edges.old.items ++ up_edge roles.now place role.now) }
{
    if let Some(parent) = &role.parent {
        if let Some(up) = role_place(roles, parent) {
            edges.push(Edge {
                from: place,
                to: up,
            })?;
        }
    }
    Ok(())
}

/// From each role an edge to the role above it.
///
/// # Errors
///
/// Where memory runs out.
pub(crate) fn edges_up(alloc: Global, roles: &[RoleRow]) -> Result<Vec<Edge>, AllocError>
    ensures { IfOk result (λ edges. T (ids_rise role_row_id roles.now) → edges.items ≡ edges_up roles.now 0 roles.now) }
{
    let mut edges = Vec::new(alloc);
    let mut place = 0;
    for role in roles {
        add_up(&mut edges, roles, place, role)?;
        place += 1;
    }
    Ok(edges)
}

// The same edges the other way round.
fn edges_down(alloc: Global, up: &[Edge]) -> Result<Vec<Edge>, AllocError>
    ensures { IfOk result (λ edges. edges.items ≡ map edge_back up.now) }
{
    let mut edges = Vec::with_capacity(alloc, up.len())?;
    for edge in up {
        edges.push(Edge {
            from: edge.to,
            to: edge.from,
        })?;
    }
    Ok(edges)
}

// The roles right below a role, among so many.
fn children(alloc: Global, up: &[Edge], role: usize, count: usize) -> Result<Vec<bool>, AllocError>
    ensures { IfOk result (λ flags. flags.items ≡ with_sources role (replicate count false) up.now) }
{
    let mut flags = vec![in alloc; false; count]?;
    for edge in up {
        if edge.to == role {
            set_on(&mut flags, edge.from);
        }
    }
    Ok(flags)
}

/// The roles below a role, among so many.
///
/// # Errors
///
/// Where memory runs out.
pub(crate) fn roles_below(
    alloc: Global,
    up: &[Edge],
    role: usize,
    count: usize,
) -> Result<Vec<bool>, AllocError>
    ensures { IfOk result (λ flags. Closes (map edge_back up.now) (with_sources role (replicate count false) up.now) flags.items) }
{
    let mut flags = children(alloc, up, role, count)?;
    let down = edges_down(alloc, up)?;
    reach(alloc, &mut flags, down.as_slice())?;
    Ok(flags)
}

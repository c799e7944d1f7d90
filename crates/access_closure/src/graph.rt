//! Which nodes edges lead to. Nodes are numbered from 0; of each a flag says whether it is reached.

ghost use Rattle.std.specs.Prelude.{◌≡◌, OnOk, slice_get, slice_set, true};
ghost use Rattle.std.specs.List.{list_any};
ghost use Rattle.access_closure.specs.Places.{is_on};
ghost use Rattle.access_closure.specs.inner.Reached.{Closes, Works, any_moves, followed, moves, passed};

use std::alloc::{AllocError, Global};

/// That one node leads to another.
#[derive(Clone, Copy)]
pub(crate) struct Edge {
    pub(crate) from: usize,
    pub(crate) to: usize,
}

// The edges from each node, as chains: of each node the place of one edge, and of each edge that of the next one from the same
// node. Where there is none, a place beyond the last edge.
#[derive(Drop)]
struct Chains {
    first: Vec<usize>,
    next: Vec<usize>,
}

fn chains_of(alloc: Global, nodes: usize, edges: &[Edge]) -> Result<Chains, AllocError> {
    let none = edges.len();
    let mut first = vec![in alloc; none; nodes]?;
    let mut next = Vec::with_capacity(alloc, edges.len())?;
    for (place, edge) in edges.iter().enumerate() {
        if edge.from < first.len() {
            next.push(first[edge.from])?;
            first[edge.from] = place;
        } else {
            next.push(none)?;
        }
    }
    Ok(Chains { first, next })
}

/// Whether the flag at a place is set.
pub(crate) fn is_on(flags: &[bool], place: usize) -> bool
    ensures { result ≡ is_on flags.now place }
{
    place < flags.len() && flags[place]
}

/// Whether some flag is set.
pub(crate) fn is_any_on(flags: &[bool]) -> bool
    ensures { result ≡ list_any (λ flag. flag) flags.now }
{
    flags.iter().any(|flag| *flag)
}

/// Sets the flag at a place, if there is one.
pub(crate) fn set_on(flags: &mut Vec<bool>, place: usize)
    ensures { flags.new.items ≡ slice_set flags.old.items place true }
{
    if place < flags.len() {
        flags[place] = true;
    }
}

// Sets the node that an edge leads to, if it leads from one that is set; whether it wasn't set before.
fn follow(flags: &mut Vec<bool>, edge: &Edge) -> bool
    ensures after { flags.new.items ≡ followed flags.old.items edge.now }
    ensures moved { result ≡ moves flags.old.items edge.now }
{
    let moves = is_on(flags.as_slice(), edge.from) && edge.to < flags.len() && !flags[edge.to];
    if moves {
        flags[edge.to] = true;
    }
    moves
}

// The edge at a place.
fn edge_at(edges: &[Edge], place: usize) -> Option<Edge>
    ensures { result ≡ slice_get edges.now place }
{
    edges.get(place).copied()
}

// Follows the edges from a node; the nodes that they set are to be looked at too.
fn follow_all(
    flags: &mut Vec<bool>,
    waiting: &mut Vec<usize>,
    edges: &[Edge],
    chains: &Chains,
    node: usize,
) -> Result<(), AllocError>
    ensures { OnOk result (Works edges.now flags.old.items flags.new.items) }
{
    let mut place = chains.first.get(node).copied().unwrap_or(edges.len());
    let mut left = edges.len();
    'edges: while left > 0 {
        left -= 1;
        let Some(edge) = edge_at(edges, place) else {
            return Ok(());
        };
        if follow(flags, &edge) {
            waiting.push(edge.to)?;
        }
        place = chains.next.get(place).copied().unwrap_or(edges.len());
    }
    Ok(())
}

// The places at which flags are set.
fn places_on(alloc: Global, flags: &[bool]) -> Result<Vec<usize>, AllocError> {
    let mut places = Vec::new(alloc);
    for (place, is_on) in flags.iter().enumerate() {
        if *is_on {
            places.push(place)?;
        }
    }
    Ok(places)
}

// Looks at each node that is set, and at each that is set then: each edge is followed once.
fn spread(alloc: Global, flags: &mut Vec<bool>, edges: &[Edge]) -> Result<(), AllocError>
    ensures { OnOk result (Works edges.now flags.old.items flags.new.items) }
{
    let chains = chains_of(alloc, flags.len(), edges)?;
    let mut waiting = places_on(alloc, flags.as_slice())?;
    let mut left = flags.len();
    'nodes: while left > 0 {
        left -= 1;
        let Some(node) = waiting.pop() else {
            return Ok(());
        };
        follow_all(flags, &mut waiting, edges, &chains, node)?;
    }
    Ok(())
}

// Follows each edge once; whether any set a node.
fn pass(flags: &mut Vec<bool>, edges: &[Edge]) -> bool
    ensures after { flags.new.items ≡ passed flags.old.items edges.now }
    ensures moved { result ≡ any_moves flags.old.items edges.now }
{
    let mut moved = false;
    for edge in edges {
        if follow(flags, edge) {
            moved = true;
        }
    }
    moved
}

// Follows edges until none sets a node any more.
fn pass_all(flags: &mut Vec<bool>, edges: &[Edge])
    ensures { Closes edges.now flags.old.items flags.new.items }
{
    'passes: loop {
        if !pass(flags, edges) {
            return;
        }
    }
}

/// Sets each node to which edges lead from one that is set. Nodes are looked at in turn; one pass then shows that none is
/// left.
///
/// # Errors
///
/// Where memory runs out.
pub(crate) fn reach(alloc: Global, flags: &mut Vec<bool>, edges: &[Edge]) -> Result<(), AllocError>
    ensures { OnOk result (Closes edges.now flags.old.items flags.new.items) }
{
    spread(alloc, flags, edges)?;
    pass_all(flags, edges);
    Ok(())
}

//! What is selected: fields, parents and child subqueries whose names are places.

ghost use Rattle.std.specs.Prelude.{◌≡◌, ◌+◌, ◌*◌, ◌≤◌, [], IfOk, length, map, true};
ghost use Rattle.std.specs.List.{list_all, sum_by};
ghost use Rattle.model.specs.Flat.{is_flat_item};
ghost use Rattle.model.specs.Shown.{item_children_shown, item_steps, path_steps, related_shown, tail_steps};
ghost use Rattle.query_plan.specs.Plans.{child_shown};
ghost use Rattle.query_plan.specs.paths.Branches.{AddsBranches, AreBranches};
ghost use Rattle.query_bind.specs.Cells.{path_in, paths_in};
ghost use Rattle.query_bind.specs.inner.Selecting as spec;

use crate::choosing::bind_tail;
use crate::counting::{check_steps, steps_of};
use crate::members::{bind_member, bind_members, copy_names};
use base_value::{Items, Text};
use query_plan::{Branch, ChildPlan, ChildStep, Choice, Member, Place, Shown, child_in, layout_in};
use soql::{Item, Path, Tail};
use std::alloc::{AllocError, Global};
use store_abstraction::Layout;

// ---- child subqueries

/// A child subquery whose names are places, and what is shown of each record that it finds.
#[derive(Drop)]
pub(crate) struct BoundChild {
    /// The name of the relationship, as it is declared.
    pub name: Text,
    /// The name of the records' object.
    pub object: Text,
    /// What is shown of each.
    pub members: Items<Member>,
    /// Which records it finds.
    pub plan: ChildPlan,
}

// The name of the child relationship by a field of this layout, as it is declared.
fn child_name(
    alloc: Global,
    layout: &Layout,
    field: usize,
    spelled: &Text,
) -> Result<Text, AllocError>
    ensures { IfOk result (λ name. name ≡ spec.child_name layout.now field spelled.now) }
{
    match layout.fields.as_slice().get(field) {
        Some(field) => match &field.child {
            Some(name) => name.copy(alloc),
            None => spelled.copy(alloc),
        },
        None => spelled.copy(alloc),
    }
}

fn limit_of(tail: &Tail) -> Option<usize>
    ensures { result ≡ tail.now.limit }
{
    match tail.limit {
        Some(limit) => Some(limit as usize),
        None => None,
    }
}

// The subquery of a relationship, by the layout of the object whose records it finds.
fn bind_found(
    alloc: Global,
    layouts: &[Layout],
    child: &Layout,
    step: ChildStep,
    day: i64,
    paths: &[Path],
    tail: &Tail,
) -> Result<BoundChild, AllocError>
    ensures binds { IfOk result (λ b. spec.BindsFound layouts.now child.now step day paths.now tail.now b) }
    ensures few { IfOk result (λ b. length b.plan.choice.branches ≤ sum_by path_steps paths.now + tail_steps tail.now) }
{
    let mut branches = Vec::new(alloc);
    let from = Place {
        branch: None,
        layout: child,
    };
    let members = bind_members(alloc, layouts, from, 5, paths, &mut branches)?;
    check_steps(branches.len(), 0, steps_of(paths))?;
    let bound = bind_tail(alloc, layouts, child, day, tail, &mut branches)?;
    let name = child_name(alloc, child, step.field, &tail.from)?;
    let object = child.name.copy(alloc)?;
    let choice = Choice {
        branches: Items::from_vec(branches),
        check: bound.check,
        order: bound.order,
        skip: 0,
        most: limit_of(tail),
    };
    Ok(BoundChild {
        name,
        object,
        members,
        plan: ChildPlan { step, choice },
    })
}

// A subquery that finds nothing, where there is no such relationship.
fn no_child(alloc: Global, tail: &Tail) -> Result<BoundChild, AllocError>
    ensures { IfOk result (λ b. b.plan.choice.branches ≡ []) }
{
    let name = tail.from.copy(alloc)?;
    let object = tail.from.copy(alloc)?;
    let choice = Choice {
        branches: Items::new(alloc),
        check: None,
        order: Items::new(alloc),
        skip: 0,
        most: Some(0),
    };
    let step = ChildStep {
        object: 0,
        field: 0,
    };
    Ok(BoundChild {
        name,
        object,
        members: Items::new(alloc),
        plan: ChildPlan { step, choice },
    })
}

// A child subquery, by its relationship with the layout's object.
fn bind_child(
    alloc: Global,
    layouts: &[Layout],
    layout: &Layout,
    day: i64,
    paths: &[Path],
    tail: &Tail,
) -> Result<BoundChild, AllocError>
    ensures binds { IfOk result (λ b. spec.BindsChild layouts.now layout.now day paths.now tail.now b) }
    ensures few { IfOk result (λ b. length b.plan.choice.branches ≤ sum_by path_steps paths.now + tail_steps tail.now) }
{
    let Some(step) = child_in(layouts, layout.object, tail.from.as_str()) else {
        return no_child(alloc, tail);
    };
    match layout_in(layouts, step.object) {
        Some(child) => bind_found(alloc, layouts, child, step, day, paths, tail),
        None => no_child(alloc, tail),
    }
}

// ---- what is selected

/// What rows show, and the child subqueries that find what they show of others.
#[derive(Drop)]
pub(crate) struct Selection {
    /// What each row shows.
    pub shown: Items<Shown>,
    /// The child subqueries.
    pub children: Items<ChildPlan>,
}

// A copy of the path that this is, if it is one.
fn path_of(alloc: Global, item: &Item) -> Result<Option<Path>, AllocError>
    ensures { IfOk result (λ path. path ≡ path_in item.now) }
{
    match item {
        Item::Path(path) => Ok(Some(Path {
            names: copy_names(alloc, path.names.as_slice())?,
        })),
        Item::Child { .. } => Ok(None),
    }
}

/// Copies of the paths among these.
///
/// # Errors
///
/// When out of memory.
pub(crate) fn paths_in(alloc: Global, items: &[Item]) -> Result<Items<Path>, AllocError>
    ensures { IfOk result (λ paths. paths ≡ paths_in items.now) }
{
    let mut paths = Vec::new(alloc);
    for item in items {
        if let Some(path) = path_of(alloc, item)? {
            paths.push(path)?;
        }
    }
    Ok(Items::from_vec(paths))
}

// How many paths this is.
fn count_of(item: &Item) -> usize
    ensures value { result ≡ spec.count_of item.now }
    ensures few { result ≤ 1 }
{
    match item {
        Item::Path(_) => 1,
        Item::Child { .. } => 0,
    }
}

// Adds what a path shows, if no path before it begins with the same relationship.
fn bind_path_item(
    alloc: Global,
    layouts: &[Layout],
    layout: &Layout,
    path: &Path,
    before: &[Path],
    all: &[Path],
    branches: &mut Vec<Branch>,
    shown: &mut Vec<Shown>,
) -> Result<(), AllocError>
    requires order { AreBranches branches.old.items }
    ensures adds { IfOk result (λ _. spec.AddsPath layouts.now layout.now path.now before.now all.now branches.new.items
        shown.old.items shown.new.items) }
    ensures grows { AddsBranches branches.old.items branches.new.items }
{
    let from = Place {
        branch: None,
        layout,
    };
    match bind_member(alloc, layouts, from, 6, path, before, all, branches)? {
        Some(member) => {
            shown.push(Shown::Member(member))?;
            Ok(())
        }
        None => Ok(()),
    }
}

// Adds a child subquery, and what it shows.
fn bind_child_item(
    alloc: Global,
    layouts: &[Layout],
    layout: &Layout,
    day: i64,
    paths: &[Path],
    tail: &Tail,
    shown: &mut Vec<Shown>,
    children: &mut Vec<ChildPlan>,
) -> Result<(), AllocError>
    ensures adds { IfOk result (λ _. spec.AddsChild layouts.now layout.now day paths.now tail.now shown.old.items children.old.items
        shown.new.items children.new.items) }
    ensures few { IfOk result (λ _. sum_by child_shown children.new.items
        ≤ sum_by child_shown children.old.items + 20000 * related_shown (sum_by path_steps paths.now + tail_steps tail.now)) }
{
    let child = bind_child(alloc, layouts, layout, day, paths, tail)?;
    shown.push(Shown::Children {
        name: child.name,
        number: children.len(),
        object: child.object,
        members: child.members,
    })?;
    children.push(child.plan)?;
    Ok(())
}

// Adds one more of what is selected: these are the paths before it, and all of them.
#[tactic(auto, using(crate::proofs::Placing::unchanged))]
fn bind_item(
    alloc: Global,
    layouts: &[Layout],
    layout: &Layout,
    day: i64,
    item: &Item,
    before: &[Path],
    all: &[Path],
    branches: &mut Vec<Branch>,
    shown: &mut Vec<Shown>,
    children: &mut Vec<ChildPlan>,
) -> Result<(), AllocError>
    requires order { AreBranches branches.old.items }
    ensures adds { IfOk result (λ _. spec.AddsItem layouts.now layout.now day item.now before.now all.now branches.new.items
        shown.old.items children.old.items shown.new.items children.new.items) }
    ensures few { IfOk result (λ _. sum_by child_shown children.new.items
        ≤ sum_by child_shown children.old.items + item_children_shown item.now) }
    ensures grows { AddsBranches branches.old.items branches.new.items }
{
    match item {
        Item::Path(path) => bind_path_item(
            alloc, layouts, layout, path, before, all, branches, shown,
        ),
        Item::Child { paths, tail } => bind_child_item(
            alloc,
            layouts,
            layout,
            day,
            paths.as_slice(),
            tail,
            shown,
            children,
        ),
    }
}

/// What is selected, whose names are places, on this day. Paths that begin with the same relationship share what is shown of it,
/// where the first of them is.
///
/// # Errors
///
/// When out of memory. The branches that were added until then stay.
#[tactic(auto, using(crate::proofs::Placing::unchanged, crate::proofs::Picked::none_selected))]
pub(crate) fn bind_items(
    alloc: Global,
    layouts: &[Layout],
    layout: &Layout,
    day: i64,
    items: &[Item],
    branches: &mut Vec<Branch>,
) -> Result<Selection, AllocError>
    requires order { AreBranches branches.old.items }
    ensures binds { IfOk result (λ sel. spec.BindsItems layouts.now layout.now day items.now branches.new.items sel) }
    ensures own { IfOk result (λ sel. list_all is_flat_item items.now ≡ true
        → (sel.shown ≡ map (spec.own_shown layout.now) items.now) × (sel.children ≡ [])) }
    ensures few { IfOk result (λ sel. (length branches.new.items ≤ length branches.old.items + sum_by item_steps items.now)
        × (sum_by child_shown sel.children ≤ sum_by item_children_shown items.now)) }
    ensures grows { AddsBranches branches.old.items branches.new.items }
{
    let before = branches.len();
    let all = paths_in(alloc, items)?;
    let paths = all.as_slice();
    let mut shown = Vec::new(alloc);
    let mut children = Vec::new(alloc);
    let mut count = 0;
    for item in items {
        bind_item(
            alloc,
            layouts,
            layout,
            day,
            item,
            &paths[..count],
            paths,
            branches,
            &mut shown,
            &mut children,
        )?;
        count += count_of(item);
    }
    check_steps(branches.len(), before, steps_of(paths))?;
    Ok(Selection {
        shown: Items::from_vec(shown),
        children: Items::from_vec(children),
    })
}

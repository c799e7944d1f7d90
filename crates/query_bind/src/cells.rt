//! Queries whose rows are lines of cells: the values of the paths that they select.

ghost use Rattle.std.specs.Prelude.{◌≡◌, ℕ, ◌+◌, ◌≤◌, IfOk, None, length};
ghost use Rattle.std.specs.List.{sum_by};
ghost use Rattle.model.specs.Asking.{query_rules};
ghost use Rattle.model.specs.Paths.{Asked};
ghost use Rattle.model.specs.Rules.{first_refusal};
ghost use Rattle.model.specs.Sound.{IsSound};
ghost use Rattle.store_abstraction.specs.Layouts.{IsLayout};
ghost use Rattle.store_abstraction.specs.Plan.{OrgPlan};
ghost use Rattle.model.specs.Shown.{path_steps, query_steps};
ghost use Rattle.base_value.specs.Printing.{day_of_moment};
ghost use Rattle.query_plan.specs.paths.Branches.{AddsBranches, AreBranches};
ghost use Rattle.query_check.specs.Reaching.{Reaches};
ghost use Rattle.query_bind.specs.Cells.{MeansCells};
ghost use Rattle.query_bind.specs.inner.Cells as spec;
ghost use Rattle.query_bind.specs.inner.Ends.{Each};

use crate::binding::{most_of, skip_of};
use crate::choosing::bind_tail;
use crate::selecting::paths_in;
use crate::spots::bind_path;
use base_value::Items;
use query_plan::{Branch, Choice, Spot};
use soql::{Path, Query};
use std::alloc::{AllocError, Global};
use store_abstraction::Layout;

/// A query of one object whose rows are lines of cells.
#[derive(Drop)]
pub struct CellPlan {
    /// Where a row has the values of the paths that are selected, in their order.
    pub cells: Items<Spot>,
    /// Which records are rows.
    pub choice: Choice,
}

// Where the value of a path is.
fn bind_cell(
    layouts: &[Layout],
    layout: &Layout,
    path: &Path,
    branches: &mut Vec<Branch>,
) -> Result<Spot, AllocError>
    requires order { AreBranches branches.old.items }
    ensures binds { IfOk result (λ c. spec.BindsCell layouts.now layout.now branches.new.items path.now c) }
    ensures grows { AddsBranches branches.old.items branches.new.items }
    ensures few { length branches.new.items ≤ length branches.old.items + path_steps path.now }
{
    Ok(bind_path(layouts, layout, path, branches)?.spot)
}

// Where the values of paths are.
#[tactic(auto, using(crate::proofs::Placing::unchanged))]
fn bind_paths(
    alloc: Global,
    layouts: &[Layout],
    layout: &Layout,
    paths: &[Path],
    branches: &mut Vec<Branch>,
) -> Result<Items<Spot>, AllocError>
    requires order { AreBranches branches.old.items }
    ensures binds { IfOk result (λ cs. Each (spec.BindsCell layouts.now layout.now branches.new.items) paths.now cs) }
    ensures grows { AddsBranches branches.old.items branches.new.items }
    ensures few { length branches.new.items ≤ length branches.old.items + sum_by path_steps paths.now }
{
    let mut bound = Vec::new(alloc);
    for path in paths {
        bound.push(bind_cell(layouts, layout, path, branches)?)?;
    }
    Ok(Items::from_vec(bound))
}

/// The plan of a query of the layout's object whose rows are lines, on this day, by the layouts of all objects; of a flat query none of
/// them is looked at. If nothing refuses the query, the plan means it: its cells are the values of the paths that are selected. It has
/// no more branches than the query has steps to parents. Child subqueries have no cells.
///
/// # Errors
///
/// When out of memory.
pub fn bind_cells(
    alloc: Global,
    layouts: &[Layout],
    layout: &Layout,
    day: i64,
    query: &Query,
) -> Result<CellPlan, AllocError>
    ensures means { IfOk result (λ plan. (org : ℕ) (q : OrgPlan) (a : Asked) → Reaches org q a.tenant layouts.now query.now
        → IsLayout q a.tenant layout.now → IsSound a.tenant → day ≡ day_of_moment a.now
        → first_refusal (query_rules a.tenant layout.now.object query.now) ≡ None → MeansCells a layout.now.object query.now plan) }
    ensures few { IfOk result (λ plan. length plan.choice.branches ≤ query_steps query.now) }
{
    let mut branches = Vec::new(alloc);
    let paths = paths_in(alloc, query.select.as_slice())?;
    let cells = bind_paths(alloc, layouts, layout, paths.as_slice(), &mut branches)?;
    let tail = bind_tail(alloc, layouts, layout, day, &query.tail, &mut branches)?;
    let choice = Choice {
        branches: Items::from_vec(branches),
        check: tail.check,
        order: tail.order,
        skip: skip_of(query),
        most: most_of(query),
    };
    Ok(CellPlan { cells, choice })
}

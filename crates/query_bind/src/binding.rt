//! Queries whose names become places.

ghost use Rattle.std.specs.Prelude.{◌≡◌, ℕ, IfOk, None, [], true};
ghost use Rattle.model.specs.Asking.{query_rules};
ghost use Rattle.model.specs.Paths.{Asked};
ghost use Rattle.model.specs.Rules.{first_refusal};
ghost use Rattle.model.specs.Sound.{IsSound};
ghost use Rattle.store_abstraction.specs.Layouts.{IsLayout};
ghost use Rattle.store_abstraction.specs.Plan.{OrgPlan};
ghost use Rattle.base_value.specs.Printing.{day_of_moment};
ghost use Rattle.model.specs.Flat.{is_flat};
ghost use Rattle.query_plan.specs.Plans.{IsFew, Means};
ghost use Rattle.query_check.specs.Reaching.{Reaches};
ghost use Rattle.query_bind.specs.inner.Binding as spec;

use crate::choosing::bind_tail;
use crate::selecting::bind_items;
use base_value::Items;
use query_plan::{Choice, Plan};
use soql::Query;
use std::alloc::{AllocError, Global};
use store_abstraction::Layout;

/// How many rows a query leaves out first.
pub(crate) fn skip_of(query: &Query) -> usize
    ensures { result ≡ spec.skip_of query.now }
{
    match query.offset {
        Some(offset) => usize::from(offset),
        None => 0,
    }
}

/// How many rows a query takes at most.
pub(crate) fn most_of(query: &Query) -> Option<usize>
    ensures { result ≡ query.now.tail.limit }
{
    match query.tail.limit {
        Some(limit) => Some(limit as usize),
        None => None,
    }
}

/// The plan of a query of the layout's object, on this day, by the layouts of all objects; of a flat query none of them is looked at.
/// If nothing refuses the query, the plan means it. It has no more branches than the query has steps to parents, and a flat one none.
///
/// # Errors
///
/// When out of memory.
pub fn bind(
    alloc: Global,
    layouts: &[Layout],
    layout: &Layout,
    day: i64,
    query: &Query,
) -> Result<Plan, AllocError>
    ensures means { IfOk result (λ plan. (org : ℕ) (q : OrgPlan) (a : Asked) → Reaches org q a.tenant layouts.now query.now
        → IsLayout q a.tenant layout.now → IsSound a.tenant → day ≡ day_of_moment a.now
        → first_refusal (query_rules a.tenant layout.now.object query.now) ≡ None → Means a layout.now.object query.now plan) }
    ensures few { IfOk result (λ plan. IsFew query.now plan) }
    ensures flat { IfOk result (λ plan. is_flat query.now ≡ true → (plan.choice.branches ≡ []) × (plan.children ≡ [])) }
{
    let mut branches = Vec::new(alloc);
    let items = query.select.as_slice();
    let selection = bind_items(alloc, layouts, layout, day, items, &mut branches)?;
    let tail = bind_tail(alloc, layouts, layout, day, &query.tail, &mut branches)?;
    let choice = Choice {
        branches: Items::from_vec(branches),
        check: tail.check,
        order: tail.order,
        skip: skip_of(query),
        most: most_of(query),
    };
    Ok(Plan {
        shown: selection.shown,
        choice,
        children: selection.children,
    })
}

//! Why a query is refused: each rule is judged over its whole text before the next.

ghost use Rattle.std.specs.Prelude.{◌≡◌, ℕ, [], IfOk};
ghost use Rattle.model.specs.Asking.{query_rules};
ghost use Rattle.model.specs.Rules.{first_of, first_refusal};
ghost use Rattle.model.specs.Tenant.{Tenant};
ghost use Rattle.store_abstraction.specs.Layouts.{IsLayout};
ghost use Rattle.store_abstraction.specs.Plan.{OrgPlan};
ghost use Rattle.query_check.specs.Reaching.{Reaches};
ghost use Rattle.query_check.specs.Rules as spec;

use crate::items::items_refusal;
use crate::paths::child_layout;
use crate::rules::{Rule, tests_refusal};
use crate::tails::tail_refusal;
use model::Refusal;
use soql::{Item, Query};
use std::alloc::{AllocError, Global};
use store_abstraction::Layout;

// INVALID_FIELD: what is selected, then what is tested, then what is ordered by.
fn names_refusal(
    alloc: Global,
    layouts: &[Layout],
    layout: &Layout,
    query: &Query,
) -> Result<Option<Refusal>, AllocError>
    ensures { IfOk result (λ r. r ≡ spec.names_rule layouts.now layout.now query.now) }
{
    if let Some(refusal) = items_refusal(alloc, layouts, layout, query.select.as_slice())? {
        return Ok(Some(refusal));
    }
    tail_refusal(alloc, layouts, layout, &query.tail)
}

// Why a test of a child subquery is refused by a rule, if the item is one.
fn child_tests_refusal(
    alloc: Global,
    layouts: &[Layout],
    layout: &Layout,
    rule: Rule,
    item: &Item,
) -> Result<Option<Refusal>, AllocError>
    ensures { IfOk result (λ r. r ≡ spec.child_tests_rule layouts.now layout.now rule item.now) }
{
    match item {
        Item::Path(_) => Ok(None),
        Item::Child { paths: _, tail } => match child_layout(layouts, layout, tail.from.as_str()) {
            Some(child) => tests_refusal(alloc, layouts, child, rule, &tail.condition),
            None => Ok(None),
        },
    }
}

// The first refusal of the tests of child subqueries.
fn items_tests_refusal(
    alloc: Global,
    layouts: &[Layout],
    layout: &Layout,
    rule: Rule,
    items: &[Item],
) -> Result<Option<Refusal>, AllocError>
    ensures { IfOk result (λ r. r ≡ first_of (spec.child_tests_rule layouts.now layout.now rule) items.now) }
{
    for item in items {
        if let Some(refusal) = child_tests_refusal(alloc, layouts, layout, rule, item)? {
            return Ok(Some(refusal));
        }
    }
    Ok(None)
}

// The first refusal of all tests, those of child subqueries first.
fn all_tests_refusal(
    alloc: Global,
    layouts: &[Layout],
    layout: &Layout,
    rule: Rule,
    query: &Query,
) -> Result<Option<Refusal>, AllocError>
    ensures { IfOk result (λ r. r ≡ spec.all_tests_rule layouts.now layout.now rule query.now) }
{
    if let Some(refusal) = items_tests_refusal(
        alloc,
        layouts,
        layout,
        rule,
        query.select.as_slice(),
    )? {
        return Ok(Some(refusal));
    }
    tests_refusal(alloc, layouts, layout, rule, &query.tail.condition)
}

// The first refusal of a query, by the layouts alone.
fn refusal_in(
    alloc: Global,
    layouts: &[Layout],
    layout: &Layout,
    query: &Query,
) -> Result<Option<Refusal>, AllocError>
    ensures { IfOk result (λ r. r ≡ spec.query_rule layouts.now layout.now query.now) }
{
    if let Some(refusal) = names_refusal(alloc, layouts, layout, query)? {
        return Ok(Some(refusal));
    }
    if let Some(refusal) = all_tests_refusal(alloc, layouts, layout, Rule::Suits, query)? {
        return Ok(Some(refusal));
    }
    all_tests_refusal(alloc, layouts, layout, Rule::Id, query)
}

/// Why a query of the layout's object is refused, by the layouts of all objects: names that aren't there or are selected twice,
/// then operators and literals that don't suit, then texts that aren't ids. Of a flat query no other layout is looked at.
///
/// # Errors
///
/// When out of memory.
pub fn query_refusal(
    alloc: Global,
    layouts: &[Layout],
    layout: &Layout,
    query: &Query,
) -> Result<Option<Refusal>, AllocError>
    ensures { IfOk result (λ r. (org : ℕ) (q : OrgPlan) (t : Tenant) → IsLayout q t layout.now
        → Reaches org q t layouts.now query.now → r ≡ first_refusal (query_rules t layout.now.object query.now)) }
{
    refusal_in(alloc, layouts, layout, query)
}

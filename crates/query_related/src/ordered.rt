//! Children in their order, without the first few, and at most so many.

ghost use Rattle.std.specs.Prelude.{◌≡◌, IfOk, OnOk, drop, map};
ghost use Rattle.std.specs.List.{IsDistinct};
ghost use Rattle.std.specs.Ordering.{eq_by_cmp};
ghost use Rattle.model.specs.Ordered.{in_order};
ghost use Rattle.model.specs.Rows.{limited};
ghost use Rattle.query_plan.specs.order.Ranks.{rank_cmp};
ghost use Rattle.query_exec.specs.Ranks.{ranked_cmp};
ghost use Rattle.query_related.specs.inner.Taken.{kept_of};

use base_value::Items;
use query_exec::{Ranked, put_in_order};
use query_plan::{Child, Rank};
use std::alloc::{AllocError, Global};

// Without the first few, and at most so many.
fn cut(
    mut rows: Vec<Ranked<Rank, Child>>,
    skip: usize,
    most: Option<usize>,
) -> Result<Vec<Ranked<Rank, Child>>, AllocError>
    ensures { IfOk result (λ rest. rest.items ≡ limited most (drop skip rows.items)) }
{
    let mut rest = rows.split_off(skip.min(rows.len()))?;
    if let Some(most) = most {
        rest.truncate(most);
    }
    Ok(rest)
}

// The children without their ranks.
fn without_ranks(alloc: Global, rows: Vec<Ranked<Rank, Child>>) -> Result<Items<Child>, AllocError>
    ensures { IfOk result (λ children. children ≡ map kept_of rows.items) }
{
    let mut children = Items::new(alloc);
    for row in rows {
        children.push(row.kept)?;
    }
    Ok(children)
}

/// Children, no two of which have one id, in the order of their ranks and then of their ids, without the first few, and at most so
/// many.
///
/// # Errors
///
/// When out of memory.
pub(crate) fn chosen_children(
    alloc: Global,
    mut rows: Vec<Ranked<Rank, Child>>,
    skip: usize,
    most: Option<usize>,
) -> Result<Items<Child>, AllocError>
    ensures { IfOk result (λ children. IsDistinct (eq_by_cmp (ranked_cmp rank_cmp)) rows.items
        → children ≡ map kept_of (limited most (drop skip (in_order (ranked_cmp rank_cmp) rows.items)))) }
{
    put_in_order(&mut rows);
    without_ranks(alloc, cut(rows, skip, most)?)
}

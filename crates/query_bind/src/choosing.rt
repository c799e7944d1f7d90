//! The condition and the keys of a tail.

ghost use Rattle.std.specs.Prelude.{◌+◌, ◌≤◌, IfOk, length};
ghost use Rattle.model.specs.Shown.{tail_steps};
ghost use Rattle.query_plan.specs.paths.Branches.{AddsBranches, AreBranches};
ghost use Rattle.query_bind.specs.inner.Tails as spec;

use crate::branching::bind_where;
use crate::keys::bind_keys;
use base_value::Items;
use query_plan::{Branch, Check, SortKey};
use soql::Tail;
use std::alloc::{AllocError, Global};
use store_abstraction::Layout;

/// The condition and the keys of a tail.
#[derive(Drop)]
pub(crate) struct BoundTail {
    /// The rows that are taken, or all.
    pub check: Option<Check>,
    /// Their order.
    pub order: Items<SortKey>,
}

/// The condition and the keys of a tail, whose paths are bound, on this day.
///
/// # Errors
///
/// When out of memory. The branches that were added until then stay.
pub(crate) fn bind_tail(
    alloc: Global,
    layouts: &[Layout],
    layout: &Layout,
    day: i64,
    tail: &Tail,
    branches: &mut Vec<Branch>,
) -> Result<BoundTail, AllocError>
    requires order { AreBranches branches.old.items }
    ensures binds { IfOk result (λ b. spec.BindsTail layouts.now layout.now day tail.now branches.new.items b) }
    ensures few { length branches.new.items ≤ length branches.old.items + tail_steps tail.now }
    ensures grows { AddsBranches branches.old.items branches.new.items }
{
    let check = bind_where(alloc, layouts, layout, day, &tail.condition, branches)?;
    let order = bind_keys(alloc, layouts, layout, tail.order.as_slice(), branches)?;
    Ok(BoundTail { check, order })
}

//! Conditions whose paths are bound.

ghost use Rattle.std.specs.Prelude.{◌+◌, ◌-◌, ◌≤◌, IfOk, length};
ghost use Rattle.std.specs.List.{flat_map, sum_by};
ghost use Rattle.model.specs.Tests.{tests, tests_of};
ghost use Rattle.query_plan.specs.paths.Branches.{AddsBranches, AreBranches};
ghost use Rattle.query_bind.specs.inner.Ends.{Each};
ghost use Rattle.query_bind.specs.inner.Tails as spec;

use crate::conditions::{operand_of, operands_of, pattern_of};
use crate::spots::bind_path;
use base_value::{Boxed, Items};
use model::condition_laws;
use query_plan::{Branch, Check};
use soql::Cond;
use std::alloc::{AllocError, Global};
use store_abstraction::Layout;

// The condition whose paths are bound, on this day. It holds where the condition does, if each of its paths leads to a field and
// each text that is compared with ids is one.
#[cycle(bound_conditions)]
#[tactic(auto, using(crate::proofs::Placing::unchanged))]
fn bind_condition(
    alloc: Global,
    layouts: &[Layout],
    layout: &Layout,
    day: i64,
    cond: &Cond,
    branches: &mut Vec<Branch>,
) -> Result<Check, AllocError>
    requires order { AreBranches branches.old.items }
    ensures binds { IfOk result (λ check. spec.BindsCondition layouts.now layout.now day branches.new.items cond.now check) }
    ensures grows { AddsBranches branches.old.items branches.new.items }
    ensures few { length branches.new.items ≤ length branches.old.items + sum_by (λ x. length x.names - 1) (tests_of cond.now) }
{
    condition_laws();
    match cond {
        Cond::Test { path, op, literal } => {
            let bound = bind_path(layouts, layout, path, branches)?;
            Ok(Check::Test {
                spot: bound.spot,
                op: *op,
                with: operand_of(alloc, day, bound.family, literal)?,
            })
        }
        Cond::Like { path, pattern } => Ok(Check::Like {
            spot: bind_path(layouts, layout, path, branches)?.spot,
            pattern: pattern_of(alloc, pattern)?,
        }),
        Cond::In {
            path,
            negated,
            literals,
        } => {
            let bound = bind_path(layouts, layout, path, branches)?;
            Ok(Check::In {
                spot: bound.spot,
                negated: *negated,
                with: operands_of(alloc, day, bound.family, literals.as_slice())?,
            })
        }
        Cond::Not(part) => {
            let check = bind_condition(alloc, layouts, layout, day, part.get(), branches)?;
            Ok(Check::Not(Boxed::new(alloc, check)?))
        }
        Cond::And(parts) => {
            let checks = bind_conditions(alloc, layouts, layout, day, parts.as_slice(), branches)?;
            Ok(Check::And(checks))
        }
        Cond::Or(parts) => {
            let checks = bind_conditions(alloc, layouts, layout, day, parts.as_slice(), branches)?;
            Ok(Check::Or(checks))
        }
    }
}

#[cycle(bound_conditions)]
#[tactic(auto, using(crate::proofs::Placing::unchanged))]
fn bind_conditions(
    alloc: Global,
    layouts: &[Layout],
    layout: &Layout,
    day: i64,
    conds: &[Cond],
    branches: &mut Vec<Branch>,
) -> Result<Items<Check>, AllocError>
    requires order { AreBranches branches.old.items }
    ensures binds { IfOk result (λ checks. Each (spec.BindsCondition layouts.now layout.now day branches.new.items) conds.now checks) }
    ensures grows { AddsBranches branches.old.items branches.new.items }
    ensures few { length branches.new.items ≤ length branches.old.items + sum_by (λ x. length x.names - 1) (flat_map tests_of conds.now) }
{
    let mut checks = Vec::new(alloc);
    for cond in conds {
        checks.push(bind_condition(alloc, layouts, layout, day, cond, branches)?)?;
    }
    Ok(Items::from_vec(checks))
}

/// The condition of a tail, if there is one, whose paths are bound.
///
/// # Errors
///
/// When out of memory. The branches that were added until then stay.
#[tactic(auto, using(crate::proofs::Placing::unchanged))]
pub(crate) fn bind_where(
    alloc: Global,
    layouts: &[Layout],
    layout: &Layout,
    day: i64,
    cond: &Option<Cond>,
    branches: &mut Vec<Branch>,
) -> Result<Option<Check>, AllocError>
    requires order { AreBranches branches.old.items }
    ensures binds { IfOk result (λ check. spec.BindsWhere layouts.now layout.now day branches.new.items cond.now check) }
    ensures grows { AddsBranches branches.old.items branches.new.items }
    ensures few { length branches.new.items ≤ length branches.old.items + sum_by (λ x. length x.names - 1) (tests cond.now) }
{
    match cond {
        Some(cond) => Ok(Some(bind_condition(alloc, layouts, layout, day, cond, branches)?)),
        None => Ok(None),
    }
}

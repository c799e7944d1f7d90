//! Keys whose paths are bound.

ghost use Rattle.std.specs.Prelude.{◌+◌, ◌≤◌, IfOk, length};
ghost use Rattle.std.specs.List.{sum_by};
ghost use Rattle.model.specs.Shown.{path_steps};
ghost use Rattle.query_plan.specs.paths.Branches.{AddsBranches, AreBranches};
ghost use Rattle.query_bind.specs.inner.Ends as spec;

use crate::spots::bind_path;
use base_value::Items;
use query_plan::{Branch, SortKey};
use soql::OrderKey;
use std::alloc::{AllocError, Global};
use store_abstraction::Layout;

/// A key whose path is bound.
///
/// # Errors
///
/// When out of memory. The branches that were added until then stay.
#[tactic(auto, using(crate::proofs::Keyed::key_bound))]
pub(crate) fn bind_key(
    layouts: &[Layout],
    layout: &Layout,
    key: &OrderKey,
    branches: &mut Vec<Branch>,
) -> Result<SortKey, AllocError>
    requires order { AreBranches branches.old.items }
    ensures binds { IfOk result (λ k. spec.BindsKey layouts.now layout.now branches.new.items key.now k) }
    ensures grows { AddsBranches branches.old.items branches.new.items }
    ensures few { length branches.new.items ≤ length branches.old.items + path_steps key.now.path }
{
    let bound = bind_path(layouts, layout, &key.path, branches)?;
    Ok(SortKey {
        spot: bound.spot,
        descending: key.descending,
        nulls_last: key.nulls_last,
    })
}

/// Keys whose paths are bound.
///
/// # Errors
///
/// When out of memory. The branches that were added until then stay.
#[tactic(auto, using(crate::proofs::Placing::unchanged))]
pub(crate) fn bind_keys(
    alloc: Global,
    layouts: &[Layout],
    layout: &Layout,
    keys: &[OrderKey],
    branches: &mut Vec<Branch>,
) -> Result<Items<SortKey>, AllocError>
    requires order { AreBranches branches.old.items }
    ensures binds { IfOk result (λ ks. spec.Each (spec.BindsKey layouts.now layout.now branches.new.items) keys.now ks) }
    ensures grows { AddsBranches branches.old.items branches.new.items }
    ensures few { length branches.new.items ≤ length branches.old.items + sum_by (λ k. path_steps k.path) keys.now }
{
    let mut bound = Vec::new(alloc);
    for key in keys {
        bound.push(bind_key(layouts, layout, key, branches)?)?;
    }
    Ok(Items::from_vec(bound))
}

//! Where the values of paths are: at sites of the row's record, or of those of branches.

ghost use Rattle.std.specs.Prelude.{◌≡◌, ◌+◌, ◌-◌, ◌≤◌, IfOk, false, length};
ghost use Rattle.model.specs.Flat.{has_one_name};
ghost use Rattle.query_plan.specs.paths.Branches.{AddsBranches, AreBranches};
ghost use Rattle.query_bind.specs.inner.Spots as spec;

use base_value::Text;
use query_check::{Column, Family, column_in, own_name};
use query_plan::{Branch, Site, Spot, place_in};
use soql::Path;
use std::alloc::AllocError;
use store_abstraction::Layout;

/// Where a path's value is, and what its field holds.
#[derive(Clone, Copy, Debug)]
pub(crate) struct Bound {
    /// What the field holds.
    pub family: Family,
    /// Where a row has the value.
    pub spot: Spot,
}

// A field of a branch's record, or of the row's own; where there is none, the id.
fn bound_at(column: Option<Column>, branch: Option<usize>) -> Bound
    ensures { result ≡ spec.bound_at column branch }
{
    match column {
        Some(column) => Bound {
            family: column.family,
            spot: Spot {
                branch,
                site: column.site,
            },
        },
        None => Bound {
            family: Family::Ids,
            spot: Spot {
                branch,
                site: Site::Id,
            },
        },
    }
}

// The end of a path of several names.
#[tactic(auto, using(crate::proofs::Placing::unchanged))]
fn far_bound(
    layouts: &[Layout],
    layout: &Layout,
    names: &[Text],
    branches: &mut Vec<Branch>,
) -> Result<Bound, AllocError>
    requires order { AreBranches branches.old.items }
    ensures binds { IfOk result (λ b. has_one_name names.now ≡ false → spec.Binds layouts.now layout.now branches.new.items names.now b) }
    ensures grows { AddsBranches branches.old.items branches.new.items }
    ensures few { length branches.new.items ≤ length branches.old.items + (length names.now - 1) }
{
    let Some((last, before)) = names.split_last() else {
        return Ok(bound_at(None, None));
    };
    match place_in(layouts, layout, before, branches)? {
        Some(place) => Ok(bound_at(column_in(place.layout, last.as_str()), place.branch)),
        None => Ok(bound_at(None, None)),
    }
}

/// The end of a path. Branches that it needs and that are lacking are added behind the others; a path of one name needs none.
///
/// # Errors
///
/// When out of memory. The branches that were added until then stay.
#[tactic(auto, using(crate::proofs::Placing::unchanged))]
pub(crate) fn bind_path(
    layouts: &[Layout],
    layout: &Layout,
    path: &Path,
    branches: &mut Vec<Branch>,
) -> Result<Bound, AllocError>
    requires order { AreBranches branches.old.items }
    ensures binds { IfOk result (λ b. spec.Binds layouts.now layout.now branches.new.items path.now.names b) }
    ensures grows { AddsBranches branches.old.items branches.new.items }
    ensures few { length branches.new.items ≤ length branches.old.items + (length path.now.names - 1) }
{
    match own_name(path) {
        Some(name) => Ok(bound_at(column_in(layout, name.as_str()), None)),
        None => far_bound(layouts, layout, path.names.as_slice(), branches),
    }
}

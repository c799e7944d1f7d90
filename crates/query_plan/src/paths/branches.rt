//! The parents that a row needs, each once.

ghost use Rattle.std.specs.Prelude.{◌≡◌, ℕ, ◌+◌, ◌≤◌, List, [], ◌++◌, Option, Some, IfOk, IfSome, IfNone, length, slice_get};
ghost use Rattle.std.specs.Str.{chars};
ghost use Rattle.model.specs.Paths.{Asked};
ghost use Rattle.model.specs.Sound.{IsSound};
ghost use Rattle.model.specs.Tenant.{Tenant};
ghost use Rattle.model.specs.declared.record.Record.{Record};
ghost use Rattle.store_abstraction.specs.Layouts.{IsLayout, own_layouts};
ghost use Rattle.store_abstraction.specs.Plan.{OrgPlan};
ghost use Rattle.query_plan.specs.declared.paths.branches.Branch.{Branch};
ghost use Rattle.query_plan.specs.paths.Branches.{AreApart, AreBranches, AddsBranches, IsAmong, branch_records, record_above};
ghost use Rattle.query_plan.specs.paths.Branches.{FindsParent, FindsPlace};

use crate::paths::parents::{ParentStep, parent_in};
use crate::paths::ways::layout_in;
use base_value::Text;
use std::alloc::AllocError;
use store_abstraction::Layout;

/// A parent of a row's record, or a parent's parent: by a step from the row's record, or from that of a branch before it.
#[derive(Clone, Copy, Debug, PartialEq, Eq)]
pub struct Branch {
    /// The number of the branch from whose record the step leads; if there is none, it leads from the row's.
    pub above: Option<usize>,
    /// The step.
    pub step: ParentStep,
}

/// Where a path leads.
#[derive(Clone, Copy, Debug)]
pub struct Place<'a> {
    /// The number of the branch whose record has the path's last field; if there is none, the row's record has it.
    pub branch: Option<usize>,
    /// The layout of that record's object.
    pub layout: &'a Layout,
}

// The number of the first of these branches that is this one.
fn number_of(branches: &[Branch], branch: Branch) -> Option<usize>
    ensures found { IfSome result (λ n. slice_get branches.now n ≡ Some branch) }
    ensures missing { IfNone result ((n : ℕ) → slice_get branches.now n ≡ Some branch → ⊥) }
{
    branches.iter().position(|other| *other == branch)
}

// The number of this branch, which is added behind the others if it isn't among them.
fn find_or_add(branches: &mut Vec<Branch>, branch: Branch) -> Result<usize, AllocError>
    requires order { AreBranches branches.old.items }
    requires above { IsAmong branches.old.items branch.above }
    ensures there { IfOk result (λ n. slice_get branches.new.items n ≡ Some branch) }
    ensures grows { AddsBranches branches.old.items branches.new.items }
    ensures once { AreApart branches.old.items → AreApart branches.new.items }
    ensures few { length branches.new.items ≤ length branches.old.items + 1 }
{
    if let Some(number) = number_of(branches.as_slice(), branch) {
        return Ok(number);
    }
    let number = branches.len();
    branches.push(branch)?;
    Ok(number)
}

/// The place to which the parent relationship with this name leads from a place, by the layouts of all objects. A branch that is
/// there serves again; one that is lacking is added behind the others.
///
/// # Errors
///
/// When out of memory. No branch is added then.
pub fn step_from<'a>(
    layouts: &'a [Layout],
    from: Place<'a>,
    name: &str,
    branches: &mut Vec<Branch>,
) -> Result<Option<Place<'a>>, AllocError>
    requires order { AreBranches branches.old.items }
    requires above { IsAmong branches.old.items from.branch }
    ensures finds { IfOk result (λ place. (org : ℕ) (q : OrgPlan) (t : Tenant) → layouts.now ≡ own_layouts org q (Some t)
        → IsLayout q t from.entry.layout.now → IsSound t → FindsParent q t from.entry (chars name.now) branches.new.items place) }
    ensures among { IfOk result (λ place. IfSome place (λ p. IsAmong branches.new.items p.branch)) }
    // Whatever is returned.
    ensures grows { AddsBranches branches.old.items branches.new.items }
    ensures once { AreApart branches.old.items → AreApart branches.new.items }
    ensures few { length branches.new.items ≤ length branches.old.items + 1 }
{
    let Some(step) = parent_in(from.layout, name) else {
        return Ok(None);
    };
    let Some(layout) = layout_in(layouts, step.target) else {
        return Ok(None);
    };
    let above = from.branch;
    let number = find_or_add(branches, Branch { above, step })?;
    Ok(Some(Place {
        branch: Some(number),
        layout,
    }))
}

/// The place to which names of parent relationships lead from an object, by the layouts of all objects. A branch that is there
/// serves again; one that is lacking is added behind the others.
///
/// # Errors
///
/// When out of memory. The branches that were added until then stay.
pub fn place_in<'a>(
    layouts: &'a [Layout],
    layout: &'a Layout,
    names: &[Text],
    branches: &mut Vec<Branch>,
) -> Result<Option<Place<'a>>, AllocError>
    requires order { AreBranches branches.old.items }
    ensures finds { IfOk result (λ place. (org : ℕ) (q : OrgPlan) (t : Tenant) → layouts.now ≡ own_layouts org q (Some t)
        → IsLayout q t layout.now → IsSound t → FindsPlace q t layout.now.object names.now branches.new.items place) }
    // Whatever is returned.
    ensures grows { AddsBranches branches.old.items branches.new.items }
    ensures once { AreApart branches.old.items → AreApart branches.new.items }
    ensures few { length branches.new.items ≤ length branches.old.items + length names.now }
{
    let mut at = None;
    let mut end = layout;
    'names: for name in names {
        let Some(step) = parent_in(end, name.as_str()) else {
            return Ok(None);
        };
        let Some(next) = layout_in(layouts, step.target) else {
            return Ok(None);
        };
        let number = find_or_add(branches, Branch { above: at, step })?;
        at = Some(number);
        end = next;
    }
    Ok(Some(Place {
        branch: at,
        layout: end,
    }))
}

/// The laws of branches. The call does nothing.
pub fn branch_laws()
    // Later branches don't change the records of those before.
    ensures later { (a : Asked) (r : Record) (branches more : List Branch) (at : Option ℕ) → IsAmong branches at
        → record_above r (branch_records a r [] (branches ++ more)) at ≡ record_above r (branch_records a r [] branches) at }

    // There are as many records as branches.
    ensures many { (a : Asked) (r : Record) (branches : List Branch)
        → length (branch_records a r [] branches) ≡ length branches }
{}

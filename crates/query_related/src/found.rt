//! The children of records by the child subqueries of a plan.

ghost use Rattle.std.specs.Prelude.{◌≡◌, map};
ghost use Rattle.query_plan.specs.Plans.{children_by};
ghost use Rattle.store_kv.specs.Draft.{DraftTells, tables_of};
ghost use Rattle.query_related.specs.Children.{FindsOfTarget, subqueries_shown, subquery_shown};
ghost use Rattle.store_abstraction.specs.Calls.{Calls, ended};

use crate::children::those_referring;
use crate::ordered::chosen_children;
use crate::taken::taken_children;
use access_traits::Rights;
use base_value::{Id, Items};
use model::record_laws;
use query_plan::{Child, ChildPlan, rank_laws};
use std::alloc::Global;
use store_abstraction::{Layout, call_laws};
use store_kv::{Draft, Keeper, draft_laws};
use store_rows::StoreFail;

// The children of a record that a child subquery finds, in its order. The layouts are those of all objects.
fn found_children<K: Keeper, R: Rights>(
    alloc: Global,
    draft: &mut Draft<'_, K>,
    rights: &R,
    layouts: &[Layout],
    plan: &ChildPlan,
    target: &Id,
) -> Result<Items<Child>, StoreFail>
    ensures finds { DraftTells K.state draft.old draft.new
        → FindsOfTarget layouts.now (R.whose rights.now) target.now (λ a r. children_by a r plan.now) (tables_of K.state draft.old) result }
    ensures calls { Calls K.state (subquery_shown plan.now) (ended result) draft.old draft.new }
{
    draft_laws::<K>();
    call_laws::<K>();
    record_laws();
    rank_laws();
    let choice = &plan.choice;
    let records = those_referring(alloc, draft, rights, layouts, plan.step, target)?;
    let taken = taken_children(alloc, draft, rights, layouts, choice, records)?;
    let children = chosen_children(alloc, taken, choice.skip, choice.most)?;
    Ok(children)
}

/// Of each of some child subqueries the children of a record that it finds, in its order. The layouts are those of all objects.
///
/// # Errors
///
/// `Keeper` if the keeper failed, `Memory` if out of memory, `Damaged` never if the organisation's rows stand for a tenant whose
/// layouts they are and of whose user the rights are.
pub(crate) fn all_children<K: Keeper, R: Rights>(
    alloc: Global,
    draft: &mut Draft<'_, K>,
    rights: &R,
    layouts: &[Layout],
    plans: &[ChildPlan],
    target: &Id,
) -> Result<Items<Items<Child>>, StoreFail>
    ensures finds { DraftTells K.state draft.old draft.new
        → FindsOfTarget layouts.now (R.whose rights.now) target.now (λ a r. map (children_by a r) plans.now) (tables_of K.state draft.old) result }
    ensures calls { Calls K.state (subqueries_shown plans.now) (ended result) draft.old draft.new }
{
    draft_laws::<K>();
    call_laws::<K>();
    let mut all = Items::new(alloc);
    for plan in plans {
        let found = found_children(alloc, draft, rights, layouts, plan, target)?;
        all.push(found)?;
    }
    Ok(all)
}

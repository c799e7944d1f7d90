//! The relatives of a row by a plan.

ghost use Rattle.std.specs.Prelude.{◌≡◌, ◌*◌, [], Some, length, map};
ghost use Rattle.query_plan.specs.Plans.{children_by};
ghost use Rattle.query_related.specs.parents.Parents.{readable_shown};
ghost use Rattle.query_related.specs.Children.{subqueries_shown};
ghost use Rattle.store_abstraction.specs.Layouts.{own_layouts};
ghost use Rattle.query_plan.specs.paths.Branches.{branch_records};

use crate::found::all_children;
use crate::parents::records_of_branches;
use access_traits::Rights;
use base_value::Items;
use model::Record;
use query_exec::{Relatives, SeenRecord};
use query_plan::{Branch, Child, ChildPlan};
use std::alloc::Global;
use store_abstraction::Layout;
use store_kv::{Draft, Keeper};
use store_rows::StoreFail;

/// The relatives of a row by a plan: the parents that its branches name, and the children that its child subqueries find.
#[derive(Drop)]
pub struct PlanRelatives<'a, R> {
    /// What who asks may do with records.
    pub rights: &'a R,
    /// The layouts of all objects.
    pub layouts: &'a [Layout],
    /// The parents that a row needs.
    pub branches: &'a [Branch],
    /// The child subqueries.
    pub children: &'a [ChildPlan],
}

impl<R: Rights> Relatives for PlanRelatives<'_, R> {
    ghost whose = { λ s org q a. (s.layouts.now ≡ own_layouts org q (Some a.tenant)) × R.whose s.rights.now a.tenant a.user };

    ghost parents = { λ s a r. branch_records a r [] s.branches.now };

    ghost children = { λ s a r. map (children_by a r) s.children.now };

    ghost parents_shown = { λ s. readable_shown * length s.branches.now };

    ghost children_shown = { λ s. subqueries_shown s.children.now };

    fn parents_of<K: Keeper>(
        &self,
        alloc: Global,
        draft: &mut Draft<'_, K>,
        _layout: &Layout,
        item: &SeenRecord<'_>,
    ) -> Result<Items<Option<Record>>, StoreFail> {
        records_of_branches(alloc, draft, self.rights, self.layouts, self.branches, item)
    }

    fn children_of<K: Keeper>(
        &self,
        alloc: Global,
        draft: &mut Draft<'_, K>,
        _layout: &Layout,
        item: &SeenRecord<'_>,
    ) -> Result<Items<Items<Child>>, StoreFail> {
        let target = item.id();
        all_children(
            alloc,
            draft,
            self.rights,
            self.layouts,
            self.children,
            &target,
        )
    }
}

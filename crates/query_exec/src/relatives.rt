//! The records to which a row's record is related.

ghost use Rattle.std.specs.Prelude.{[], List, Option, ℕ};
ghost use Rattle.query_plan.specs.declared.plan.Child.{Child};
ghost use Rattle.query_exec.specs.Relatives.{FindsOfSeen};
ghost use Rattle.query_exec.specs.Seen.{seen_record};
ghost use Rattle.store_kv.specs.Draft.{DraftTells, tables_of};
ghost use Rattle.model.specs.Paths.{Asked};
ghost use Rattle.model.specs.declared.record.Record.{Record};
ghost use Rattle.store_abstraction.specs.Calls.{Calls, ended};
ghost use Rattle.store_abstraction.specs.Plan.{OrgPlan};

use crate::seen::SeenRecord;
use base_value::Items;
use model::Record;
use query_plan::Child;
use std::alloc::Global;
use store_abstraction::{Layout, call_laws};
use store_kv::{Draft, Keeper};
use store_rows::StoreFail;

/// The parents and the children of records, as who asks may read them.
pub trait Relatives {
    // Of whom it is so: of who asks in this organisation, by a plan by which its rows stand.
    ghost whose: { Self → (org : ℕ) → OrgPlan → Asked → Type 0 };

    // The records of a record's parents, or none where who asks may not read one.
    ghost parents: { Self → Asked → Record → List (Option Record) };

    // Those of a record's children that are written in its row.
    ghost children: { Self → Asked → Record → List (List Child) };

    // How many data rows are shown for the parents of a record at most.
    ghost parents_shown: { Self → ℕ };

    // The same for its children.
    ghost children_shown: { Self → ℕ };

    /// The records of the parents of a row's record.
    ///
    /// # Errors
    ///
    /// `Keeper` if the keeper failed, `Memory` if out of memory, `Damaged` never if the organisation's rows stand for a tenant whose
    /// layout and whose record it is, and of whose user the relatives are.
    fn parents_of<K: Keeper>(
        &self,
        alloc: Global,
        draft: &mut Draft<'_, K>,
        layout: &Layout,
        item: &SeenRecord<'_>,
    ) -> Result<Items<Option<Record>>, StoreFail>
        ensures finds { DraftTells K.state draft.old draft.new
            → FindsOfSeen layout.now (whose self.now) (seen_record item.now) (parents self.now) (tables_of K.state draft.old) result }
        ensures calls { Calls K.state (parents_shown self.now) (ended result) draft.old draft.new };

    /// The children of a row's record.
    ///
    /// # Errors
    ///
    /// As `parents_of`.
    fn children_of<K: Keeper>(
        &self,
        alloc: Global,
        draft: &mut Draft<'_, K>,
        layout: &Layout,
        item: &SeenRecord<'_>,
    ) -> Result<Items<Items<Child>>, StoreFail>
        ensures finds { DraftTells K.state draft.old draft.new
            → FindsOfSeen layout.now (whose self.now) (seen_record item.now) (children self.now) (tables_of K.state draft.old) result }
        ensures calls { Calls K.state (children_shown self.now) (ended result) draft.old draft.new };
}

/// No parents and no children: no table is read.
#[derive(Clone, Copy)]
pub struct NoRelatives;

impl Relatives for NoRelatives {
    ghost whose = { λ s org q a. Unit {0} };

    ghost parents = { λ s a r. [] };

    ghost children = { λ s a r. [] };

    ghost parents_shown = { λ s. 0 };

    ghost children_shown = { λ s. 0 };

    fn parents_of<K: Keeper>(
        &self,
        alloc: Global,
        _draft: &mut Draft<'_, K>,
        _layout: &Layout,
        _item: &SeenRecord<'_>,
    ) -> Result<Items<Option<Record>>, StoreFail> {
        call_laws::<K>();
        Ok(Items::new(alloc))
    }

    fn children_of<K: Keeper>(
        &self,
        alloc: Global,
        _draft: &mut Draft<'_, K>,
        _layout: &Layout,
        _item: &SeenRecord<'_>,
    ) -> Result<Items<Items<Child>>, StoreFail> {
        call_laws::<K>();
        Ok(Items::new(alloc))
    }
}

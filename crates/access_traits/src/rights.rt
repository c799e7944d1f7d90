//! Whose rights they are, and what is asked of them.

ghost use Rattle.std.specs.Prelude.{ℕ};
ghost use Rattle.store_kv.specs.Draft.{DraftTells, tables_of};
ghost use Rattle.model.specs.Tenant.{Tenant, User};
ghost use Rattle.access_traits.specs.Rights.{FindsFor, TellsReadable, level_shown, level_there};
ghost use Rattle.store_abstraction.specs.Calls.{Calls, ended};
ghost use Rattle.store_abstraction.specs.declared.layout.Layout.{Layout};

use base_value::{Id, Level};
use std::alloc::Global;
use store_abstraction::Layout;
use store_kv::{Draft, Keeper, KeptRow};
use store_rows::StoreFail;

/// What a user may do with an organisation's records, by their ids.
pub trait Rights {
    /// They are those of this user of this tenant.
    ghost whose: { Self → Tenant → User → Type 0 };

    /// The level on the record of an object that has this id: `Nothing` if there is none.
    ///
    /// # Errors
    ///
    /// `Keeper` if the keeper failed, `Memory` if out of memory, `Damaged` never if the organisation's rows stand for a tenant of
    /// whose user the rights are.
    fn level_at<K: Keeper>(
        &self,
        alloc: Global,
        draft: &mut Draft<'_, K>,
        org: u32,
        object: u16,
        id: &Id,
    ) -> Result<Level, StoreFail>
        ensures finds { DraftTells K.state draft.old draft.new
            → FindsFor org (whose self.now) (λ t u. level_there t u object id.now) (tables_of K.state draft.old) result }
        ensures calls { Calls K.state level_shown (ended result) draft.old draft.new };
}

/// What a user sees of the records of one object.
pub trait Sight {
    /// It is what this user of this tenant sees, by this layout.
    ghost sees: { Self → Layout → Tenant → User → Type 0 };

    /// How many data rows are shown for one record at most, its own aside.
    ghost shown: { ℕ };

    /// Whether the user may read the record of a row.
    ///
    /// # Errors
    ///
    /// `Keeper` if the keeper failed, `Memory` if out of memory, `Damaged` never if the organisation's rows stand for a tenant whose
    /// layout and whose record it is, and of whose user this is the sight.
    fn may_read<K: Keeper>(
        &self,
        alloc: Global,
        draft: &mut Draft<'_, K>,
        layout: &Layout,
        row: &KeptRow,
    ) -> Result<bool, StoreFail>
        ensures tells { DraftTells K.state draft.old draft.new
            → TellsReadable layout.now (sees self.now layout.now) row.now (tables_of K.state draft.old) result }
        ensures calls { Calls K.state shown (ended result) draft.old draft.new };
}

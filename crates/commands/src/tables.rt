//! Commands that make a printout of the tables.

ghost use Rattle.std.specs.Prelude.{◌≡◌, ◌<◌, ◌⊎◌, Bool, IfOk, IsErrOf, IsTrue, OnErr, is_ok, length, true, ℕ};
ghost use Rattle.store_kv.specs.Draft.{DraftTells, DraftWorks, count_of, removals_of, state_of, tables_of};
ghost use Rattle.store_kv.specs.State.{KeeperCause, Shows, StaysAfter, Steps, Tells, TrustedAfter, data_table};
ghost use Rattle.store_kv.specs.Tables.{Tables};
ghost use Rattle.store_rows.specs.declared.fail.StoreFail.TheVariants.{Keeper};
ghost use Rattle.model.specs.World.{World};
ghost use Rattle.store_abstraction.specs.Fails.{KeeperFailsOpening};
ghost use Rattle.store_abstraction.specs.Operations.{Does, IsChange, Judges};
ghost use Rattle.store_abstraction.specs.Stands.{Stands};
ghost use Rattle.commands.specs.Printed.{PrintoutText};
ghost use Rattle.commands.specs.Stops.{DoesOpened, Refuses, VersionAs};

use crate::printout::Printout;
use std::alloc::Global;
use store_abstraction::{Judged, OpenFail, finish, open_tables, stands_laws};
use store_kv::{Draft, Keeper};
use store_rows::StoreFail;

/// A command that makes a printout of the tables, and may change them.
pub trait TableWork {
    // What it comes to: the printout, and the world that it leaves.
    ghost does: { Self → World → PrintoutText × World };

    // Whether a refusal changes nothing.
    ghost keeps: { Bool };

    // How many rows are changed at most, and how many data rows are shown.
    ghost most: { Self → ℕ };

    ghost shown: { Self → (removed : ℕ) → ℕ };

    /// Judges it over opened tables, and puts what it changes into the draft. `organisations` is how many there are. A refusal is a
    /// printout too: it is made only once every call of the keeper has returned `Ok`.
    ///
    /// # Errors
    ///
    /// `Keeper` if the keeper failed, `Memory` if out of memory, `Damaged` never if the tables stand for a world.
    fn judge<K: Keeper>(
        &self,
        alloc: Global,
        draft: &mut Draft<'_, K>,
        organisations: u32,
    ) -> Result<Judged<Printout>, StoreFail>
        ensures judged { DraftTells K.state draft.old draft.new
            → (w : World) → Stands (tables_of K.state draft.old) w → length w ≡ organisations
            → Judges Stands (does self.now) w (tables_of K.state draft.new) result }
        ensures change { IsChange result → 0 < count_of draft.new }
        ensures done { keeps ≡ true → IfOk result (λ j. Refuses j → IsChange result → ⊥) }
        ensures works { DraftWorks K.state (most self.now) 0 (shown self.now (removals_of K.state data_table draft.old)) draft.old draft.new }
        ensures stays { StaysAfter (is_ok result) (state_of K.state draft.old) (state_of K.state draft.new) }
        ensures cause { KeeperCause (state_of K.state draft.old) (state_of K.state draft.new) (IsErrOf result Keeper) };
}

// Makes a printout of opened tables, and what it changes in one batch. The printout is made before the batch is applied. `organisations` is
// how many there are.
fn make_printout<K: Keeper, P: TableWork>(
    alloc: Global,
    keeper: &mut K,
    organisations: u32,
    work: &P,
) -> Result<Printout, StoreFail>
    ensures does { Tells (K.state keeper.old) (K.state keeper.new)
        → (w : World) → Stands (K.state keeper.old).tables w → length w ≡ organisations
        → Does Stands (P.does work.now) w (K.state keeper.new) result }
    ensures kept { Tells (K.state keeper.old) (K.state keeper.new) → OnErr result (Shows (K.state keeper.new) (K.state keeper.old).tables) }
    ensures refused { P.keeps ≡ true → Tells (K.state keeper.old) (K.state keeper.new)
        → IfOk result (λ p. p.status ≡ 65 → Shows (K.state keeper.new) (K.state keeper.old).tables) }
    ensures crash { (K.state keeper.old).tells → IsTrue (K.state keeper.old).trusted → IsTrue (K.state keeper.new).is_clean
        → (w : World) → Stands (K.state keeper.old).tables w → length w ≡ organisations
        → (m : Tables) → (K.state keeper.new).may_leave m
        → (K.state keeper.old).may_leave m ⊎ Stands m (P.does work.now w).1 }
    ensures steps { Steps (K.state keeper.old) (K.state keeper.new) }
    ensures stays { StaysAfter (is_ok result) (K.state keeper.old) (K.state keeper.new) }
    ensures cause { KeeperCause (K.state keeper.old) (K.state keeper.new) (IsErrOf result Keeper) }
{
    let mut draft = Draft::new(alloc, keeper);
    let judged = work.judge(alloc, &mut draft, organisations);
    finish(alloc, draft, judged)
}

/// Opens the tables, does the command's work unless it is refused, and returns the printout that is to be written.
pub(crate) fn printout_of_tables<K: Keeper, P: TableWork>(
    alloc: Global,
    keeper: &mut K,
    work: &P,
) -> Result<Printout, OpenFail>
    ensures does { Tells (K.state keeper.old) (K.state keeper.new) → (w : World) → Stands (K.state keeper.old).tables w
        → DoesOpened (P.does work.now) w (K.state keeper.new) result }
    ensures version { Tells (K.state keeper.old) (K.state keeper.new) → VersionAs (K.state keeper.old).tables result }
    ensures kept { Tells (K.state keeper.old) (K.state keeper.new) → OnErr result (Shows (K.state keeper.new) (K.state keeper.old).tables) }
    ensures refused { P.keeps ≡ true → Tells (K.state keeper.old) (K.state keeper.new)
        → IfOk result (λ p. p.status ≡ 65 → Shows (K.state keeper.new) (K.state keeper.old).tables) }
    ensures crash { (K.state keeper.old).tells → IsTrue (K.state keeper.old).trusted → IsTrue (K.state keeper.new).is_clean
        → (w : World) → Stands (K.state keeper.old).tables w → (m : Tables) → (K.state keeper.new).may_leave m
        → (K.state keeper.old).may_leave m ⊎ Stands m (P.does work.now w).1 }
    ensures steps { Steps (K.state keeper.old) (K.state keeper.new) }
    ensures trusted { TrustedAfter (is_ok result) (K.state keeper.new) }
    ensures cause { KeeperCause (K.state keeper.old) (K.state keeper.new) (KeeperFailsOpening result) }
{
    stands_laws();
    match open_tables(alloc, keeper) {
        Ok(organisations) => match make_printout(alloc, keeper, organisations, work) {
            Ok(printout) => Ok(printout),
            Err(fail) => Err(OpenFail::Store(fail)),
        },
        Err(fail) => Err(fail),
    }
}

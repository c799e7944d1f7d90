ghost use Rattle.std.specs.Prelude.{◌≡◌, ◌⊎◌, ℕ, IsTrue, is_ok};
ghost use Rattle.store_kv.specs.Draft.{ChangesNothing, DraftTells, DraftWorks, Held, count_of, keeper_of, state_of, tables_of};
ghost use Rattle.store_kv.specs.State.{StaysAfter, Tells};
ghost use Rattle.store_kv.specs.Tables.{Tables};
ghost use Rattle.store_abstraction.specs.Operations.{Ends, Finishes, IsChange};

use crate::judged::Judged;
use std::alloc::Global;
use store_kv::{Draft, Keeper};
use store_rows::StoreFail;

/// Ends an operation whose draft was judged: the draft is dropped, or committed if it holds changes.
///
/// # Errors
///
/// What judging stopped at, or the keeper at the commit. Nothing is changed then, though a crash may still leave all
/// changes made.
pub fn finish<K: Keeper, T: Drop>(
    alloc: Global,
    draft: Draft<'_, K>,
    judged: Result<Judged<T>, StoreFail>,
) -> Result<T, StoreFail>
    // Over a draft that was new at d.
    ensures ends { (d : Held K) (most gone shown : ℕ) → ChangesNothing d → DraftWorks K.state most gone shown d draft.entry
        → Tells (state_of K.state d) (K.state draft.exit.0.now)
        → Ends judged (state_of K.state d).tables (tables_of K.state draft.entry) (K.state draft.exit.0.now) result }

    // Also if the keeper is trusted no more: a crash leaves what it might have left before, or all changes made.
    ensures crash { (d : Held K) (most gone shown : ℕ) → ChangesNothing d → DraftWorks K.state most gone shown d draft.entry
        → StaysAfter (is_ok judged) (state_of K.state d) (state_of K.state draft.entry)
        → (state_of K.state d).tells → IsTrue (state_of K.state d).trusted → IsTrue (K.state draft.exit.0.now).is_clean
        → (m : Tables) → (K.state draft.exit.0.now).may_leave m → (state_of K.state d).may_leave m
        ⊎ (IsChange judged × DraftTells K.state d draft.entry × (m ≡ tables_of K.state draft.entry)) }
    ensures finishes { Finishes judged (count_of draft.entry) (state_of K.state draft.entry) (K.state draft.exit.0.now) result }
    ensures unasked { (IsChange judged → ⊥) → draft.exit.0.now ≡ keeper_of draft.entry }
{
    match judged {
        Ok(Judged::Same(answer)) => Ok(answer),
        Ok(Judged::Changed(answer)) => match draft.commit(alloc) {
            Ok(()) => Ok(answer),
            Err(fail) => Err(StoreFail::from(fail)),
        },
        Err(fail) => Err(fail),
    }
}

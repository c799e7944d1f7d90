//! What is asked, and how it is done.

ghost use Rattle.std.specs.Prelude.{◌≡◌, IfOk, IsTrue, pos, ℕ};
ghost use Rattle.cmd_auth.specs.Asking.{Doing};
ghost use Rattle.cmd_auth.specs.Judging.{JudgesAsked, JudgesFor, JudgesCalled, RefusesUncalled, behind_step, beside, changes_behind, shown_behind};
ghost use Rattle.store_kv.specs.Draft.{DraftTells, removals_of, tables_of};
ghost use Rattle.store_kv.specs.State.{data_table};
ghost use Rattle.model.specs.Callers.{named_by};
ghost use Rattle.store_abstraction.specs.Operations.{Drafts};
ghost use Rattle.base_value.specs.Dates.{is_moment};

use model::{Caller, tenant_laws};
use people_edit::caller_named;
use std::alloc::{AllocError, Global};
use store_abstraction::{Judged, call_laws};
use store_kv::{Draft, Keeper, draft_laws};
use store_rows::StoreFail;

/// What a user asks of an organisation.
pub trait Ask {
    /// What is answered.
    type Answer: Drop;

    // What it comes to of one who asks: the answer, and what becomes of the organisation.
    ghost does: { Self → Doing Self.Answer };

    // The answer to who isn't a user of an organisation.
    ghost refused: { Self → Self.Answer };

    // How many rows are changed at most.
    ghost most: { ℕ };

    // How many data rows are shown at most, over a draft that removes none.
    ghost shown: { Self → ℕ };

    /// Judges it for a caller, where no step is to be made.
    ///
    /// # Errors
    ///
    /// `Keeper` if the keeper failed, `Memory` if out of memory, `Damaged` never if the rows of the caller's organisation stand for a
    /// tenant.
    fn judge<K: Keeper>(
        &self,
        alloc: Global,
        draft: &mut Draft<'_, K>,
        caller: &Caller,
        now: u64,
    ) -> Result<Judged<Self::Answer>, StoreFail>
        requires { IsTrue (is_moment (pos now)) }
        ensures what { DraftTells K.state draft.old draft.new
            → JudgesAsked (does self.now) caller.now now (tables_of K.state draft.old) (tables_of K.state draft.new) result }
        ensures drafts { Drafts K.state most 0 (beside (shown self.now) (removals_of K.state data_table draft.old)) result draft.old draft.new };

    /// What is answered to who isn't a user of an organisation.
    ///
    /// # Errors
    ///
    /// When out of memory.
    fn refuse(&self, alloc: Global) -> Result<Self::Answer, AllocError>
        ensures { IfOk result (λ x. x ≡ refused self.now) };
}

// What it comes to behind a step: what the step changed is to be made, whatever the request itself changes.
fn behind_step<X: Drop>(
    made: bool,
    judged: Result<Judged<X>, StoreFail>,
) -> Result<Judged<X>, StoreFail>
    ensures { result ≡ behind_step made judged }
{
    if !made {
        return judged;
    }
    match judged {
        Ok(Judged::Same(x) | Judged::Changed(x)) => Ok(Judged::Changed(x)),
        Err(fail) => Err(fail),
    }
}

// Makes the step of a change of a type that is under way in the caller's organisation, and then judges what the caller asks, over
// the same draft: so both are done, or neither.
fn answer_called<K: Keeper, A: Ask>(
    alloc: Global,
    draft: &mut Draft<'_, K>,
    asked: &A,
    caller: &Caller,
    now: u64,
) -> Result<Judged<A::Answer>, StoreFail>
    requires { IsTrue (is_moment (pos now)) }
    ensures what { DraftTells K.state draft.old draft.new
        → JudgesCalled (A.does asked.now) (A.refused asked.now) caller.now now (tables_of K.state draft.old) (tables_of K.state draft.new) result }
    ensures drafts { Drafts K.state (changes_behind A.most) 0
        (shown_behind (A.shown asked.now) (removals_of K.state data_table draft.old)) result draft.old draft.new }
{
    draft_laws::<K>();
    call_laws::<K>();
    tenant_laws();
    match retype_step::step(alloc, draft, caller.org) {
        Ok(made) => {
            let judged = asked.judge(alloc, draft, caller, now);
            behind_step(made, judged)
        }
        Err(fail) => Err(fail),
    }
}

// What is answered to who isn't a user of an organisation: nothing changes.
fn refuse<A: Ask>(alloc: Global, asked: &A) -> Result<Judged<A::Answer>, StoreFail>
    ensures { RefusesUncalled (A.refused asked.now) result }
{
    match asked.refuse(alloc) {
        Ok(answer) => Ok(Judged::Same(answer)),
        Err(_) => Err(StoreFail::Memory),
    }
}

/// Judges what is asked by the user with this id in the organisation with this id, if the secret is the user's.
///
/// # Errors
///
/// As `judge` of what is asked.
pub fn answer_asked<K: Keeper, A: Ask>(
    alloc: Global,
    draft: &mut Draft<'_, K>,
    asked: &A,
    org: &str,
    user: &str,
    secret: &str,
    now: u64,
) -> Result<Judged<A::Answer>, StoreFail>
    requires { IsTrue (is_moment (pos now)) }
    ensures what { DraftTells K.state draft.old draft.new
        → JudgesFor (A.does asked.now) (A.refused asked.now) now (named_by org.now user.now secret.now) (tables_of K.state draft.old)
        (tables_of K.state draft.new) result }
    ensures drafts { Drafts K.state (changes_behind A.most) 0
        (shown_behind (A.shown asked.now) (removals_of K.state data_table draft.old)) result draft.old draft.new }
{
    draft_laws::<K>();
    call_laws::<K>();
    match caller_named(alloc, draft, org, user, secret) {
        Ok(Some(caller)) => answer_called(alloc, draft, asked, &caller, now),
        Ok(None) => refuse(alloc, asked),
        Err(fail) => Err(fail),
    }
}

//! Edits that are judged before they are made.

ghost use Rattle.std.specs.Prelude.{◌≡◌, ◌∷◌, [], ℕ, IfErr, IfOk};
ghost use Rattle.store_edit.specs.Edits.{Decides, DraftsEdit, MakesEdit};
ghost use Rattle.store_edit.specs.Rows.{AreFew, AreSpelled, change_to};
ghost use Rattle.store_kv.specs.Draft.{DraftTells, tables_of};
ghost use Rattle.store_rows.specs.declared.fail.StoreFail.TheVariants.{Memory};
ghost use Rattle.store_rows.specs.Forms.{FitsForm};
ghost use Rattle.model.specs.Paths.{Asked};
ghost use Rattle.model.specs.Tenant.{Tenant};
ghost use Rattle.model.specs.Verdict.{Done, Verdict};
ghost use Rattle.store_abstraction.specs.Calls.{Calls, ended_edit};
ghost use Rattle.store_abstraction.specs.Fails.{of_store};
ghost use Rattle.store_abstraction.specs.Plan.{OrgPlan};

use crate::changes::{make_changes, put_row};
use crate::decided::Decided;
use std::alloc::Global;
use store_abstraction::{EditFail, call_laws, local_laws};
use store_kv::{Draft, Keeper, draft_laws};
use store_rows::RowForm;

/// An edit that is decided, and puts one row alone.
///
/// # Errors
///
/// `Store` with `Memory` if out of memory.
pub fn one_row<A: Drop, R: RowForm>(
    alloc: Global,
    answer: A,
    row: &R,
) -> Result<Decided<A>, EditFail>
    requires { FitsForm R.form row.now }
    ensures answers { IfOk result (λ x. x.answer ≡ answer) }
    ensures made { IfOk result (λ x. AreSpelled (change_to R.form row.now ∷ []) x.changes.items) }
    ensures cause { IfErr result (λ e. e ≡ of_store Memory) }
{
    let mut changes = Vec::new(alloc);
    put_row(alloc, &mut changes, row)?;
    Ok(Decided { answer, changes })
}

/// An edit of one organisation.
pub trait Edit {
    /// What it answers once it is made.
    type Answer: Drop;

    /// What it comes to.
    ghost verdict: { Self → Asked → Verdict };

    /// What the verdict calls this answer.
    ghost answered: { Self.Answer → Done };

    /// How the organisation's rows are kept then.
    ghost planned: { Self → OrgPlan → Tenant → OrgPlan → Type 0 };

    /// What it asks for has its form, for who asks.
    ghost fits: { Self → Asked → Type 0 };

    /// How many rows it changes at most, and how many data rows it removes and is shown at most.
    ghost most: { ℕ };

    ghost gone: { ℕ };

    ghost shown: { ℕ };

    /// Judges the edit: what it answers, and the changes that make it. Nothing is changed yet.
    ///
    /// # Errors
    ///
    /// `Refused` as its verdict says. `Store` with `Keeper` if the keeper failed, `Memory` if out of memory, `Damaged` never if
    /// the organisation's rows stand for a tenant and what is asked for is of its form.
    fn judge<K: Keeper>(
        &self,
        alloc: Global,
        draft: &mut Draft<'_, K>,
        org: u32,
    ) -> Result<Decided<Self::Answer>, EditFail>
        ensures what { DraftTells K.state draft.old draft.new
            → Decides org (verdict self.now) answered (planned self.now) (fits self.now) (tables_of K.state draft.old) result }
        ensures few { IfOk result (λ x. AreFew most gone x.changes.items) }
        ensures calls { Calls K.state shown (ended_edit result) draft.old draft.new };
}

/// Makes an edit, and returns what it answers.
///
/// # Errors
///
/// As the edit is judged; nothing is changed then. `Memory` too if out of memory while its changes are made.
pub fn make_edit<E: Edit, K: Keeper>(
    alloc: Global,
    draft: &mut Draft<'_, K>,
    org: u32,
    edit: &E,
) -> Result<E::Answer, EditFail>
    ensures what { DraftTells K.state draft.old draft.new
        → MakesEdit org (E.verdict edit.now) E.answered (E.planned edit.now) (E.fits edit.now) (tables_of K.state draft.old)
        (tables_of K.state draft.new) result }
    ensures makes { DraftsEdit K.state E.most E.gone E.shown result draft.old draft.new }
{
    draft_laws::<K>();
    call_laws::<K>();
    local_laws();
    let decided = edit.judge(alloc, draft, org)?;
    make_changes(alloc, draft, decided.changes)?;
    Ok(decided.answer)
}

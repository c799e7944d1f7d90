//! The end of a change of a field's type before its time.

ghost use Rattle.std.specs.Prelude.{◌≡◌, IfOk, Some};
ghost use Rattle.store_kv.specs.Draft.{DraftTells, tables_of};
ghost use Rattle.store_rows.specs.Forms.{FitsForm};
ghost use Rattle.store_rows.specs.Rows.{job_form};
ghost use Rattle.model.specs.Retyping.{cancel_retype};
ghost use Rattle.model.specs.RuleFormulas.{is_copy};
ghost use Rattle.model.specs.Tenant.{Tenant};
ghost use Rattle.model.specs.Verdict.{done};
ghost use Rattle.retype_request.specs.inner.Cancelling.{CancelsTo, copying_by};
ghost use Rattle.store_abstraction.specs.Calls.{Calls, ended_edit};
ghost use Rattle.store_abstraction.specs.Local.{StandsIn};
ghost use Rattle.store_abstraction.specs.Plan.{OrgPlan};
ghost use Rattle.retype_cutover.specs.Switch.{any_plan};

use crate::rows::row_of;
use base_value::{Outcome, Phase};
use model::Refusal;
use model_invariant::jobs_sound;
use retype_cutover::switch_laws;
use std::alloc::Global;
use store_abstraction::{EditFail, call_laws, change_row};
use store_edit::{Decided, Edit, one_row};
use store_kv::{Draft, Keeper};
use store_rows::JobRow;

// Whether values are being copied.
fn is_copy(phase: Phase) -> bool
    ensures { result ≡ is_copy phase }
{
    matches!(phase, Phase::Copy)
}

// The row of the change that copies, if there is one.
fn copying(row: Option<JobRow>) -> Option<JobRow>
    ensures { result ≡ copying_by row }
{
    match row {
        None => None,
        Some(row) => { if is_copy(row.phase) { Some(row) } else { None } }
    }
}

// The row of the change that copies, once it is called off: what it has copied is cleared from the first record on. No record has
// failed while it copies.
fn row_to_clear<K: Keeper>(
    alloc: Global,
    draft: &mut Draft<'_, K>,
    org: u32,
) -> Result<JobRow, EditFail>
    ensures cancels { DraftTells K.state draft.old draft.new
        → (q : OrgPlan) (t : Tenant) → StandsIn org q (tables_of K.state draft.old) (Some t) → CancelsTo org q t result }
    ensures own { IfOk result (λ row. row.org ≡ org) }
    ensures fits { IfOk result (FitsForm job_form) }
    ensures calls { Calls K.state 0 (ended_edit result) draft.old draft.new }
{
    call_laws::<K>();
    let Some(row) = copying(change_row(alloc, draft, org)?) else {
        return Err(EditFail::Refused(Refusal::NotFound));
    };
    Ok(row_of(
        org,
        row.object,
        row.field,
        row.kind,
        row.twin,
        Phase::Clear,
        Outcome::Cancelled,
    )?)
}

/// Calls the change of a field's type off, while it copies.
///
/// It is refused if none copies.
#[derive(Drop)]
pub struct CancelRetype;

impl Edit for CancelRetype {
    type Answer = ();

    ghost verdict = { λ e a. cancel_retype a.tenant };

    ghost answered = { λ _. done };

    ghost planned = { λ e. any_plan };

    ghost fits = { λ e a. Unit {0} };

    ghost most = { 1 };

    ghost gone = { 0 };

    ghost shown = { 0 };

    fn judge<K: Keeper>(
        &self,
        alloc: Global,
        draft: &mut Draft<'_, K>,
        org: u32,
    ) -> Result<Decided<()>, EditFail> {
        call_laws::<K>();
        jobs_sound();
        switch_laws();
        let row = row_to_clear(alloc, draft, org)?;
        one_row(alloc, (), &row)
    }
}

//! The step of an organisation.

ghost use Rattle.std.specs.Prelude.{◌≡◌, ◌+◌, IfErr, IfOk, IfSome, None, Ok, Some, false};
ghost use Rattle.retype_step.specs.Background.{DraftsStep, StepsIn};
ghost use Rattle.retype_step.specs.inner.Deciding.{AreStep, DecidesStep, ReadsStep, TakesStep};
ghost use Rattle.store_kv.specs.Draft.{DraftReads, DraftTells, removals_of, tables_of};
ghost use Rattle.model.specs.Retyping.{job_is_done};
ghost use Rattle.model.specs.Tenant.{Job, Tenant};
ghost use Rattle.store_abstraction.specs.Calls.{Calls, ended};
ghost use Rattle.store_abstraction.specs.Local.{StandsIn};
ghost use Rattle.store_abstraction.specs.Metadata.{job_of};
ghost use Rattle.store_abstraction.specs.Plan.{OrgPlan};

use crate::backfill::progress_laws;
use crate::deciding::changes_of;
use crate::reading::{busy_row, page_of};
use model_invariant::jobs_sound;
use record_index::pivot_laws;
use record_read::data_laws;
use retype_cutover::switch_laws;
use std::alloc::Global;
use store_abstraction::{call_laws, local_laws, metadata_laws};
use store_edit::make_changes;
use store_kv::{Change, Draft, Keeper, draft_laws};
use store_rows::{JobRow, StoreFail};

// The changes of a step of the change with this row, which is under way. It only reads.
fn changes_by<K: Keeper>(
    alloc: Global,
    draft: &mut Draft<'_, K>,
    org: u32,
    row: JobRow,
) -> Result<Vec<Change>, StoreFail>
    ensures takes { DraftTells K.state draft.old draft.new
        → (q : OrgPlan) (t : Tenant) (j : Job) → StandsIn org q (tables_of K.state draft.old) (Some t)
        → t.job ≡ Some j → job_is_done j.phase ≡ false → row ≡ job_of org q j → TakesStep org q t result }
    ensures form { IfOk result (λ changes. AreStep org changes.items) }
    ensures calls { Calls K.state (100 + removals_of K.state 7 draft.old) (ended result) draft.old draft.new }
{
    call_laws::<K>();
    data_laws();
    pivot_laws();
    metadata_laws();
    jobs_sound();
    switch_laws();
    progress_laws();
    match page_of(alloc, draft, org, row) {
        Ok(page) => match changes_of(alloc, org, page) {
            Ok(changes) => Ok(changes),
            Err(fail) => Err(StoreFail::from(fail)),
        },
        Err(fail) => Err(fail),
    }
}

// The changes of the step, if there is one to make. It only reads.
fn judge<K: Keeper>(
    alloc: Global,
    draft: &mut Draft<'_, K>,
    org: u32,
) -> Result<Option<Vec<Change>>, StoreFail>
    ensures decides { DraftTells K.state draft.old draft.new → (q : OrgPlan) (t : Tenant)
        → StandsIn org q (tables_of K.state draft.old) (Some t) → DecidesStep org q t result }
    ensures form { IfOk result (λ found. IfSome found (λ changes. AreStep org changes.items)) }
    ensures reads { ReadsStep K.state result draft.old draft.new }
{
    draft_laws::<K>();
    call_laws::<K>();
    match busy_row(alloc, draft, org) {
        Ok(None) => Ok(None),
        Ok(Some(row)) => match changes_by(alloc, draft, org, row) {
            Ok(changes) => Ok(Some(changes)),
            Err(fail) => Err(fail),
        },
        Err(fail) => Err(fail),
    }
}

/// Makes the step of the change of a field's type that is under way in an organisation, and returns whether there was one.
///
/// # Errors
///
/// `Keeper` if the keeper failed, `Memory` if out of memory, `Damaged` never if the organisation's rows stand for a tenant. Unless out of
/// memory while the changes are made, nothing is changed then.
pub fn step<K: Keeper>(alloc: Global, draft: &mut Draft<'_, K>, org: u32) -> Result<bool, StoreFail>
    ensures what { DraftTells K.state draft.old draft.new
        → StepsIn org (tables_of K.state draft.old) (tables_of K.state draft.new) result }
    ensures drafts { DraftsStep K.state result draft.old draft.new }
{
    draft_laws::<K>();
    call_laws::<K>();
    local_laws();
    match judge(alloc, draft, org) {
        Ok(None) => Ok(false),
        Ok(Some(changes)) => {
            make_changes(alloc, draft, changes)?;
            Ok(true)
        }
        Err(fail) => Err(fail),
    }
}

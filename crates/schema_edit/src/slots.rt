//! Slots that a new field may take.

ghost use Rattle.std.specs.Prelude.{◌≡◌, ◌<◌, ◌≤◌, ◌==◌, ℕ, IsTrue, length};
ghost use Rattle.std.specs.List.{list_any};
ghost use Rattle.schema_edit.specs.Slots.{IsLeastFree};
ghost use Rattle.schema_edit.specs.inner.Relations.{is_changing};
ghost use Rattle.model.specs.Retyping.{job_is_done};
ghost use Rattle.store_abstraction.specs.Plan.{slot_count};
ghost use Rattle.store_abstraction.specs.Records.{has_free};

use base_value::Phase;
use store_abstraction::{FieldPlace, JobPlace, Layout};

// Whether one of the fields has this slot.
fn is_of_field(fields: &[FieldPlace], slot: u8) -> bool
    ensures { result ≡ list_any (λ f. f.slot == slot) fields.now }
{
    fields.iter().any(|field| field.slot == slot)
}

// Whether a change is done.
fn is_done(phase: Phase) -> bool
    ensures { result ≡ job_is_done phase }
{
    matches!(phase, Phase::Done)
}

// Whether it is the slot of a change that isn't done.
fn is_changing(job: &Option<JobPlace>, slot: u8) -> bool
    ensures { result ≡ is_changing job.now slot }
{
    match job {
        None => false,
        Some(job) => !is_done(job.phase) && job.twin == slot,
    }
}

fn is_free(layout: &Layout, slot: u8) -> bool
    ensures { result ≡ has_free layout.now slot }
{
    !is_of_field(layout.fields.as_slice(), slot) && !is_changing(&layout.job, slot)
}

// The last of the slots that a record has.
const LAST_SLOT: u8 = 47;

/// The slot of a new field: the least that is no field's and not that of a change that isn't done.
///
/// An object with at most 40 fields has one below 48.
pub fn free_slot(layout: &Layout) -> u8
    ensures least { (s : ℕ) → s < slot_count → IsTrue (has_free layout.now s) → IsLeastFree layout.now result }
    ensures within { result < slot_count }
{
    let mut slot = 0;
    while slot < LAST_SLOT && !is_free(layout, slot) {
        slot += 1;
    }
    slot
}

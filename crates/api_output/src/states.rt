//! The body of the reply that says how far the change of a field's type is.

ghost use Rattle.std.specs.Prelude.{◌≡◌, IfOk, codes, encode_utf8_all};
ghost use Rattle.std.specs.Str.{chars};
ghost use Rattle.base_json.specs.Whole.{joined};
ghost use Rattle.model.specs.Replies.{job_json, outcome_name, phase_name};
ghost use Rattle.model.specs.RowsJson.{member_json, object_json};
ghost use Rattle.model.specs.Tenant.{Job, Tenant};
ghost use Rattle.api_output.specs.States.{IsStateOf};
ghost use Rattle.api_output.specs.inner.Parts.{Wrote};
ghost use Rattle.api_output.specs.inner.States.{outcome_member, phase_member, place_members, progress_members, record_json, state_members};

use crate::parts::{id_text, write_mark, write_name, write_text, write_text_member};
use base_json::{Mark, Writer};
use base_value::{Bytes, Id, Outcome, Phase};
use std::alloc::{AllocError, Global};

// ---- which field it is

// The members that name the object and its field.
fn write_place(
    alloc: Global,
    writer: &mut Writer,
    object: &str,
    field: &str,
) -> Result<(), AllocError>
    ensures { Wrote result writer.old writer.new (joined (place_members (chars object.now) (chars field.now))) }
{
    write_text_member(alloc, writer, "object", object)?;
    write_mark(alloc, writer, Mark::Comma)?;
    write_text_member(alloc, writer, "field", field)
}

// ---- how far it is

fn phase_name(phase: Phase) -> &'static str
    ensures { chars result.now ≡ phase_name phase }
{
    match phase {
        Phase::Copy => "Copy",
        Phase::Clear => "Clear",
        Phase::Done => "Done",
    }
}

fn outcome_name(outcome: Outcome) -> &'static str
    ensures { chars result.now ≡ outcome_name outcome }
{
    match outcome {
        Outcome::Open => "Open",
        Outcome::Switched => "Switched",
        Outcome::Failed => "Failed",
        Outcome::Cancelled => "Cancelled",
    }
}

// The member that has the phase.
fn write_phase(alloc: Global, writer: &mut Writer, phase: Phase) -> Result<(), AllocError>
    ensures { Wrote result writer.old writer.new (phase_member phase) }
{
    write_text_member(alloc, writer, "phase", phase_name(phase))
}

// The member that has the outcome.
fn write_outcome(alloc: Global, writer: &mut Writer, outcome: Outcome) -> Result<(), AllocError>
    ensures { Wrote result writer.old writer.new (outcome_member outcome) }
{
    write_text_member(alloc, writer, "outcome", outcome_name(outcome))
}

// An id, or null.
fn write_id(alloc: Global, writer: &mut Writer, id: Option<Id>) -> Result<(), AllocError>
    ensures { Wrote result writer.old writer.new (record_json id) }
{
    match id {
        Some(id) => {
            let text = id_text(alloc, &id)?;
            write_text(alloc, writer, text.as_str())
        }
        None => writer.null(alloc),
    }
}

// The member that has the record that didn't convert.
fn write_failed(alloc: Global, writer: &mut Writer, failed: Option<Id>) -> Result<(), AllocError>
    ensures { Wrote result writer.old writer.new (member_json (codes "record") (record_json failed)) }
{
    write_name(alloc, writer, "record")?;
    write_id(alloc, writer, failed)
}

// The members that say how far it is.
fn write_progress(
    alloc: Global,
    writer: &mut Writer,
    phase: Phase,
    outcome: Outcome,
    failed: Option<Id>,
) -> Result<(), AllocError>
    ensures { Wrote result writer.old writer.new (joined (progress_members phase outcome failed)) }
{
    write_phase(alloc, writer, phase)?;
    write_mark(alloc, writer, Mark::Comma)?;
    write_outcome(alloc, writer, outcome)?;
    write_mark(alloc, writer, Mark::Comma)?;
    write_failed(alloc, writer, failed)
}

// ---- the body

// The object.
fn write_state(
    alloc: Global,
    writer: &mut Writer,
    object: &str,
    field: &str,
    phase: Phase,
    outcome: Outcome,
    failed: Option<Id>,
) -> Result<(), AllocError>
    ensures { Wrote result writer.old writer.new (object_json (state_members (chars object.now) (chars field.now) phase outcome failed)) }
{
    write_mark(alloc, writer, Mark::OpenObject)?;
    write_place(alloc, writer, object, field)?;
    write_mark(alloc, writer, Mark::Comma)?;
    write_progress(alloc, writer, phase, outcome, failed)?;
    write_mark(alloc, writer, Mark::CloseObject)
}

/// The body of the reply that says how far the change of a field's type is: the names of the object and of the field, the phase,
/// the outcome, and the record that didn't convert, if there is one.
///
/// # Errors
///
/// When out of memory.
pub fn state_body(
    alloc: Global,
    object: &str,
    field: &str,
    phase: Phase,
    outcome: Outcome,
    failed: Option<Id>,
) -> Result<Bytes, AllocError>
    ensures { IfOk result (λ body. (t : Tenant) (j : Job)
        → IsStateOf t j (chars object.now) (chars field.now) phase outcome failed → body ≡ encode_utf8_all (job_json t j)) }
{
    let mut writer = Writer::new(alloc);
    write_state(alloc, &mut writer, object, field, phase, outcome, failed)?;
    Ok(writer.finish())
}

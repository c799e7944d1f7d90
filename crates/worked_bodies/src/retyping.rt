//! Bodies on the change of a field's type: what that of a request says, or `none`, and that of the reply which says how far it is.

use crate::bodies::shown_kind;
use crate::line::first_of;
use crate::refusals::text_of;
use api_input::{NewRetype, new_retype};
use api_output::state_body;
use base_value::{Id, Outcome, Phase};
use std::alloc::{AllocError, Global};

fn shown_retype(alloc: Global, new: &NewRetype) -> Result<String, AllocError> {
    let object = new.object.as_str();
    let field = new.field.as_str();
    let kind = shown_kind(alloc, &new.kind)?;
    format!(in alloc; "{object} {field} {kind}")
}

/// The change of a field's type: the object, the field, and the type that it is to have.
pub(crate) fn retype(alloc: Global, body: &[u8]) -> Result<String, AllocError> {
    match new_retype(alloc, body)? {
        Some(new) => shown_retype(alloc, &new),
        None => String::from_str(alloc, "none"),
    }
}

// The phase that a letter names: `a` copies, `b` clears, and any other is done.
fn phase_by(letter: &str) -> Phase {
    match letter {
        "a" => Phase::Copy,
        "b" => Phase::Clear,
        _ => Phase::Done,
    }
}

// The outcome that a letter names: `a` is none yet, `b` the switch, `c` a failure, and any other a cancellation.
fn outcome_by(letter: &str) -> Outcome {
    match letter {
        "a" => Outcome::Open,
        "b" => Outcome::Switched,
        "c" => Outcome::Failed,
        _ => Outcome::Cancelled,
    }
}

/// The body of the reply that says how far a change is: the object, the field, the letters of the phase and of the outcome, and the
/// id of the record that didn't convert, if there is one.
pub(crate) fn state(alloc: Global, arguments: &str) -> Result<String, AllocError> {
    let (object, rest) = first_of(arguments);
    let (field, rest) = first_of(rest);
    let (phase, rest) = first_of(rest);
    let (outcome, id) = first_of(rest);
    let phase = phase_by(phase);
    let outcome = outcome_by(outcome);
    let failed = Id::read(id).ok();
    text_of(
        alloc,
        &state_body(alloc, object, field, phase, outcome, failed)?,
    )
}

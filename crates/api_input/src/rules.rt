//! What bodies say of validation rules.

ghost use Rattle.std.specs.Prelude.{◌≡◌, IfOk};
ghost use Rattle.std.specs.Option.{option_map};
ghost use Rattle.model_requests.specs.Forms as model;
ghost use Rattle.model_requests.specs.Requests.{adds_validation_rule};
ghost use Rattle.api_input.specs.Bodies.{request_in};
ghost use Rattle.api_input.specs.inner.Outcomes.{Gives};
ghost use Rattle.api_input.specs.inner.Said.{said};

use crate::body::{Body, members_in};
use crate::fail::{BodyFail, or_none};
use crate::name::Name;
use model::{NewValidationRule, is_name};
use std::alloc::{AllocError, Global};

fn read_rule(alloc: Global, body: &Body) -> Result<NewValidationRule, BodyFail>
    ensures { Gives adds_validation_rule result (model.validation_request (said body.now)) }
{
    body.check_form(
        &[Name::Object, Name::Name, Name::Formula, Name::Message],
        &[],
    )?;
    let object = body.text(Name::Object)?;
    let name = body.text(Name::Name)?;
    let formula = body.text(Name::Formula)?;
    let message = body.text(Name::Message)?;
    if !is_name(message.as_str()) {
        return Err(BodyFail::Form);
    }
    Ok(NewValidationRule {
        object: object.copy(alloc)?,
        name: name.copy(alloc)?,
        formula: formula.copy(alloc)?,
        message: message.copy(alloc)?,
    })
}

fn rule_in_bytes(alloc: Global, body: &[u8]) -> Result<NewValidationRule, BodyFail>
    ensures { Gives adds_validation_rule result (request_in model.validation_request body.now) }
{
    let members = members_in(alloc, body)?;
    read_rule(alloc, &Body::new(members.as_slice()))
}

/// The validation rule that a body says is to be added; none if it isn't of that form.
///
/// # Errors
///
/// When out of memory.
pub fn new_validation_rule(
    alloc: Global,
    body: &[u8],
) -> Result<Option<NewValidationRule>, AllocError>
    ensures { IfOk result (λ new. option_map adds_validation_rule new ≡ request_in model.validation_request body.now) }
{
    or_none(rule_in_bytes(alloc, body))
}

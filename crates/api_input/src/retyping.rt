//! What bodies say of the change of a field's type.

ghost use Rattle.std.specs.Prelude.{◌≡◌, IfOk};
ghost use Rattle.std.specs.Option.{option_map};
ghost use Rattle.model_requests.specs.PeopleForms as model;
ghost use Rattle.api_input.specs.Bodies.{begins_new_retype, request_in};
ghost use Rattle.api_input.specs.inner.Outcomes.{Gives};
ghost use Rattle.api_input.specs.inner.Said.{said};

use crate::body::{Body, members_in};
use crate::fail::{BodyFail, or_none};
use crate::name::Name;
use crate::types::type_in;
use base_value::Text;
use model::SpelledType;
use std::alloc::{AllocError, Global};

/// What a body says of the change of a field's type.
#[derive(Debug, Drop)]
pub struct NewRetype {
    /// The name of the field's object.
    pub object: Text,
    /// The field's name.
    pub field: Text,
    /// The type that it is to have.
    pub kind: SpelledType,
}

fn read_retype(alloc: Global, body: &Body) -> Result<NewRetype, BodyFail>
    ensures { Gives begins_new_retype result (model.retype_request (said body.now)) }
{
    body.check_form(&[Name::Object, Name::Field, Name::Type], &[])?;
    let object = body.text(Name::Object)?;
    let field = body.text(Name::Field)?;
    let kind = type_in(alloc, body, Name::Type)?;
    Ok(NewRetype {
        object: object.copy(alloc)?,
        field: field.copy(alloc)?,
        kind,
    })
}

fn retype_in_bytes(alloc: Global, body: &[u8]) -> Result<NewRetype, BodyFail>
    ensures { Gives begins_new_retype result (request_in model.retype_request body.now) }
{
    let members = members_in(alloc, body)?;
    read_retype(alloc, &Body::new(members.as_slice()))
}

/// The change of a field's type that a body says is to begin; none if it isn't of that form. A type that isn't within its bounds
/// isn't of the form.
///
/// # Errors
///
/// When out of memory.
pub fn new_retype(alloc: Global, body: &[u8]) -> Result<Option<NewRetype>, AllocError>
    ensures { IfOk result (λ new. option_map begins_new_retype new ≡ request_in model.retype_request body.now) }
{
    or_none(retype_in_bytes(alloc, body))
}

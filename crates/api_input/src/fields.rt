//! What bodies say of fields.

ghost use Rattle.std.specs.Prelude.{◌≡◌, IfOk, None};
ghost use Rattle.std.specs.Option.{option_map};
ghost use Rattle.model.specs.TypeForms as types;
ghost use Rattle.model_requests.specs.Forms as model;
ghost use Rattle.model.specs.NewFields.{type_with};
ghost use Rattle.model_requests.specs.Requests.{adds_field};
ghost use Rattle.model.specs.SoundMetadata.{may_be_required};
ghost use Rattle.api_input.specs.Bodies.{request_in};
ghost use Rattle.api_input.specs.inner.Outcomes.{Gives};
ghost use Rattle.api_input.specs.inner.Said.{said};

use crate::body::{Body, members_in};
use crate::fail::{BodyFail, or_none};
use crate::name::Name;
use crate::types::type_in;
use base_value::{FieldType, OnDelete, suits_indexed, suits_unique};
use model::{NewField, SpelledType};
use std::alloc::{AllocError, Global};

// Whether a field of the type may be required: all but a lookup that is cleared.
fn may_be_required(kind: &SpelledType) -> bool
    ensures { result ≡ may_be_required (type_with None kind.now) }
{
    match kind {
        SpelledType::Plain(FieldType::Lookup { on_delete, .. })
        | SpelledType::LookupTo { on_delete, .. } => match on_delete {
            OnDelete::Clear => false,
            OnDelete::Restrict => true,
        },
        SpelledType::Plain(_) => true,
    }
}

// Whether the flags suit the type.
fn flags_suit(kind: &SpelledType, required: bool, unique: bool, indexed: bool) -> bool
    ensures { result ≡ types.flags_suit kind.now required unique indexed }
{
    (!required || may_be_required(kind))
        && match kind {
            SpelledType::Plain(kind) => {
                (!unique || suits_unique(kind)) && (!indexed || suits_indexed(kind))
            }
            SpelledType::LookupTo { .. } => !unique && !indexed,
        }
}

fn read_field(alloc: Global, body: &Body) -> Result<NewField, BodyFail>
    ensures { Gives adds_field result (model.field_request (said body.now)) }
{
    body.check_form(
        &[Name::Object, Name::Name, Name::Type],
        &[Name::Required, Name::Unique, Name::Indexed],
    )?;
    let object = body.text(Name::Object)?;
    let name = body.text(Name::Name)?;
    let kind = type_in(alloc, body, Name::Type)?;
    let required = body.flag(Name::Required)?;
    let unique = body.flag(Name::Unique)?;
    let indexed = body.flag(Name::Indexed)?;
    if !flags_suit(&kind, required, unique, indexed) {
        return Err(BodyFail::Form);
    }
    Ok(NewField {
        members: body.member_names(alloc)?,
        object: object.copy(alloc)?,
        name: name.copy(alloc)?,
        kind,
        required,
        unique,
        indexed,
    })
}

fn field_in_bytes(alloc: Global, body: &[u8]) -> Result<NewField, BodyFail>
    ensures { Gives adds_field result (request_in model.field_request body.now) }
{
    let members = members_in(alloc, body)?;
    read_field(alloc, &Body::new(members.as_slice()))
}

/// The field that a body says is to be added; none if it isn't of that form.
///
/// # Errors
///
/// When out of memory.
pub fn new_field(alloc: Global, body: &[u8]) -> Result<Option<NewField>, AllocError>
    ensures { IfOk result (λ new. option_map adds_field new ≡ request_in model.field_request body.now) }
{
    or_none(field_in_bytes(alloc, body))
}

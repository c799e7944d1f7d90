//! What bodies say of sharing rules and of manual shares.

ghost use Rattle.std.specs.Prelude.{◌≡◌, IfOk, codes};
ghost use Rattle.std.specs.Option.{option_map};
ghost use Rattle.model_requests.specs.Forms as model;
ghost use Rattle.model.specs.Members.{levels};
ghost use Rattle.model_requests.specs.Requests.{adds_sharing_rule, shares};
ghost use Rattle.api_input.specs.Bodies.{request_in};
ghost use Rattle.api_input.specs.inner.Names.{name_of};
ghost use Rattle.api_input.specs.inner.Outcomes.{Gives};
ghost use Rattle.api_input.specs.inner.Said.{said};
ghost use Rattle.api_input.specs.inner.Spelled.{choice_member, principal_member};

use crate::body::{Body, members_in};
use crate::fail::{BodyFail, or_none};
use crate::name::Name;
use crate::principals::{as_principal, principal_in};
use base_value::Level;
use model::{NewShare, NewSharingRule, Spelled, SpelledSource};
use std::alloc::{AllocError, Global};

// ---- what they share

// The principal in a member.
fn principal_of(alloc: Global, body: &Body, name: Name) -> Result<Spelled, BodyFail>
    ensures { Gives (λ principal. principal) result (principal_member (said body.now) (name_of name)) }
{
    principal_in(alloc, body.text(name)?)
}

// The member `level`.
fn level_in(body: &Body) -> Result<Level, BodyFail>
    ensures { Gives (λ level. level) result (choice_member (said body.now) (codes "level") levels) }
{
    body.table_entry(Name::Level, &[("Read", Level::Read), ("Edit", Level::Edit)])
}

// ---- shares

fn read_share(alloc: Global, body: &Body) -> Result<NewShare, BodyFail>
    ensures { Gives shares result (model.share_request (said body.now)) }
{
    body.check_form(&[Name::Record, Name::To, Name::Level], &[])?;
    let text = body.text(Name::Record)?;
    let to = principal_of(alloc, body, Name::To)?;
    let level = level_in(body)?;
    let members = body.member_names(alloc)?;
    let item = text.copy(alloc)?;
    Ok(NewShare {
        members,
        item,
        to,
        level,
    })
}

fn share_in_bytes(alloc: Global, body: &[u8]) -> Result<NewShare, BodyFail>
    ensures { Gives shares result (request_in model.share_request body.now) }
{
    let members = members_in(alloc, body)?;
    read_share(alloc, &Body::new(members.as_slice()))
}

/// The manual share that a body says is to be made; none if it isn't of that form.
///
/// # Errors
///
/// When out of memory.
pub fn new_share(alloc: Global, body: &[u8]) -> Result<Option<NewShare>, AllocError>
    ensures { IfOk result (λ new. option_map shares new ≡ request_in model.share_request body.now) }
{
    or_none(share_in_bytes(alloc, body))
}

// ---- sharing rules

// The records that a rule covers: just one of `from` and `formula` is there.
fn source_in(alloc: Global, body: &Body) -> Result<SpelledSource, BodyFail>
    ensures { Gives (λ source. source) result (model.source_in (said body.now)) }
{
    match body.entry(Name::From) {
        None => {
            let text = body.text(Name::Formula)?;
            Ok(SpelledSource::Criteria(text.copy(alloc)?))
        }
        Some(value) => {
            if body.entry(Name::Formula).is_some() {
                return Err(BodyFail::Form);
            }
            Ok(SpelledSource::Owner(as_principal(alloc, value)?))
        }
    }
}

fn read_sharing_rule(alloc: Global, body: &Body) -> Result<NewSharingRule, BodyFail>
    ensures { Gives adds_sharing_rule result (model.sharing_rule_request (said body.now)) }
{
    body.check_form(
        &[Name::Object, Name::Name, Name::To, Name::Level],
        &[Name::From, Name::Formula],
    )?;
    let object = body.text(Name::Object)?;
    let name = body.text(Name::Name)?;
    let to = principal_of(alloc, body, Name::To)?;
    let level = level_in(body)?;
    let source = source_in(alloc, body)?;
    let members = body.member_names(alloc)?;
    let object = object.copy(alloc)?;
    let name = name.copy(alloc)?;
    Ok(NewSharingRule {
        members,
        object,
        name,
        source,
        to,
        level,
    })
}

fn sharing_rule_in_bytes(alloc: Global, body: &[u8]) -> Result<NewSharingRule, BodyFail>
    ensures { Gives adds_sharing_rule result (request_in model.sharing_rule_request body.now) }
{
    let members = members_in(alloc, body)?;
    read_sharing_rule(alloc, &Body::new(members.as_slice()))
}

/// The sharing rule that a body says is to be added; none if it isn't of that form.
///
/// # Errors
///
/// When out of memory.
pub fn new_sharing_rule(alloc: Global, body: &[u8]) -> Result<Option<NewSharingRule>, AllocError>
    ensures { IfOk result (λ new. option_map adds_sharing_rule new ≡ request_in model.sharing_rule_request body.now) }
{
    or_none(sharing_rule_in_bytes(alloc, body))
}

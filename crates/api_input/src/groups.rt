//! What bodies say of groups.

ghost use Rattle.std.specs.Prelude.{◌≡◌, IfOk, List, codes, ℕ};
ghost use Rattle.std.specs.Option.{option_map};
ghost use Rattle.model.specs.Members.{if_any};
ghost use Rattle.model_requests.specs.PeopleForms as model;
ghost use Rattle.model_requests.specs.Requests.{adds_group, sets_group};
ghost use Rattle.api_input.specs.Bodies.{request_in};
ghost use Rattle.api_input.specs.inner.Outcomes.{Gives};
ghost use Rattle.api_input.specs.inner.Said.{said};

use crate::body::{Body, members_in};
use crate::copies::copy_of;
use crate::fail::{BodyFail, or_none};
use crate::name::Name;
use crate::principals::as_principals;
use base_value::{Items, Text};
use model::{GroupChange, Spelled};
use std::alloc::{AllocError, Global};

fn read_group(alloc: Global, body: &Body) -> Result<Text, BodyFail>
    ensures { Gives adds_group result (model.group_request (said body.now)) }
{
    body.check_form(&[Name::Name], &[])?;
    let name = body.text(Name::Name)?;
    Ok(name.copy(alloc)?)
}

fn group_in_bytes(alloc: Global, body: &[u8]) -> Result<Text, BodyFail>
    ensures { Gives adds_group result (request_in model.group_request body.now) }
{
    let members = members_in(alloc, body)?;
    read_group(alloc, &Body::new(members.as_slice()))
}

/// The name of the group that a body says is to be added; none if it isn't of that form.
///
/// # Errors
///
/// When out of memory.
pub fn new_group(alloc: Global, body: &[u8]) -> Result<Option<Text>, AllocError>
    ensures { IfOk result (λ name. option_map adds_group name ≡ request_in model.group_request body.now) }
{
    or_none(group_in_bytes(alloc, body))
}

// The member `members`, if it is there: principals, all different.
fn members_if_any(alloc: Global, body: &Body) -> Result<Option<Items<Spelled>>, BodyFail>
    ensures { Gives (λ members. members) result (if_any model.as_principals (said body.now) (codes "members")) }
{
    match body.entry(Name::Members) {
        Some(json) => Ok(Some(as_principals(alloc, json)?)),
        None => Ok(None),
    }
}

fn read_group_change(alloc: Global, body: &Body) -> Result<GroupChange, BodyFail>
    ensures { (group : List ℕ) → Gives (sets_group group) result (model.group_change_request group (said body.now)) }
{
    body.check_change(&[Name::Members, Name::Name])?;
    let name = body.text_if_any(Name::Name)?;
    let members = members_if_any(alloc, body)?;
    let name = copy_of(alloc, name)?;
    Ok(GroupChange { members, name })
}

fn group_change_in_bytes(alloc: Global, body: &[u8]) -> Result<GroupChange, BodyFail>
    ensures { (group : List ℕ) → Gives (sets_group group) result (request_in (model.group_change_request group) body.now) }
{
    let members = members_in(alloc, body)?;
    read_group_change(alloc, &Body::new(members.as_slice()))
}

/// The change of a group that a body says, whose members are all different; none if it isn't of that form.
///
/// # Errors
///
/// When out of memory.
pub fn group_change(alloc: Global, body: &[u8]) -> Result<Option<GroupChange>, AllocError>
    ensures { IfOk result (λ change. (group : List ℕ)
        → option_map (sets_group group) change ≡ request_in (model.group_change_request group) body.now) }
{
    or_none(group_change_in_bytes(alloc, body))
}

//! What bodies say of users, roles and the organisation.

ghost use Rattle.std.specs.Prelude.{◌≡◌, IfOk, IfSome, IsTrue, List, ℕ, true};
ghost use Rattle.std.specs.List.{list_all};
ghost use Rattle.std.specs.Option.{option_copied, option_map};
ghost use Rattle.std.specs.Str.{chars};
ghost use Rattle.base_value.specs.Id.{is_digit62};
ghost use Rattle.base_value.specs.Numerals.{is_within};
ghost use Rattle.model.specs.Cases.{in_case};
ghost use Rattle.model.specs.Limits.{secret_least, secret_most};
ghost use Rattle.model.specs.Organisations.{is_secret};
ghost use Rattle.model_requests.specs.PeopleForms as model;
ghost use Rattle.model_requests.specs.Requests.{adds_user, sets_organisation, sets_role, sets_user};
ghost use Rattle.api_input.specs.Bodies.{adds_new_role, request_in};
ghost use Rattle.api_input.specs.inner.Outcomes.{Gives};
ghost use Rattle.api_input.specs.inner.Said.{said};

use crate::body::{Body, members_in};
use crate::copies::{copy_of, copy_or_none};
use crate::fail::{BodyFail, or_none};
use crate::name::Name;
use base_value::{Text, character_count};
use model::{NewUser, RoleChange, SECRET_LEAST, SECRET_MOST, UserChange};
use std::alloc::{AllocError, Global};

/// What a body says of a new role.
#[derive(Debug, Drop)]
pub struct NewRole {
    /// Its name.
    pub name: Text,
    /// The text of its parent's id, if it is to have a parent.
    pub parent: Option<Text>,
}

// ---- secrets

fn are_letters_or_digits(text: &str) -> bool
    ensures { result ≡ list_all is_digit62 (chars text.now) }
{
    text.chars().all(|c| c.is_ascii_alphanumeric())
}

// Whether a secret may have so many characters.
fn is_secret_length(count: usize) -> bool
    ensures { result ≡ is_within secret_least secret_most count }
{
    SECRET_LEAST <= count && count <= SECRET_MOST
}

// Whether a text is a secret: 16 to 64 ASCII letters and digits.
#[tactic(auto, unfolding(model::specs::Organisations::is_secret))]
fn is_secret(secret: &str) -> bool
    ensures { result ≡ is_secret (chars secret.now) }
{
    are_letters_or_digits(secret) && is_secret_length(character_count(secret))
}

// ---- users

fn read_user(alloc: Global, body: &Body) -> Result<NewUser, BodyFail>
    ensures gives { Gives adds_user result (model.user_request (said body.now)) }
    ensures secret { IfOk result (λ new. IsTrue (is_secret new.secret)) }
{
    body.check_form(&[Name::Name, Name::Secret, Name::Role, Name::Admin], &[])?;
    let name = body.text(Name::Name)?;
    let secret = body.text(Name::Secret)?;
    let role = body.text_or_null(Name::Role)?;
    let admin = body.truth(Name::Admin)?;
    if !is_secret(secret.as_str()) {
        return Err(BodyFail::Form);
    }
    Ok(NewUser {
        name: name.copy(alloc)?,
        secret: secret.copy(alloc)?,
        role: copy_of(alloc, role)?,
        admin,
    })
}

fn user_in_bytes(alloc: Global, body: &[u8]) -> Result<NewUser, BodyFail>
    ensures gives { Gives adds_user result (request_in model.user_request body.now) }
    ensures secret { IfOk result (λ new. IsTrue (is_secret new.secret)) }
{
    let members = members_in(alloc, body)?;
    read_user(alloc, &Body::new(members.as_slice()))
}

/// The user that a body says is to be added, whose secret is one; none if it isn't of that form.
///
/// # Errors
///
/// When out of memory.
pub fn new_user(alloc: Global, body: &[u8]) -> Result<Option<NewUser>, AllocError>
    ensures gives { IfOk result (λ new. option_map adds_user new ≡ request_in model.user_request body.now) }
    ensures secret { IfOk result (λ new. IfSome new (λ user. IsTrue (is_secret user.secret))) }
{
    or_none(user_in_bytes(alloc, body))
}

// Whether a secret that a user is to have, if there is one, is one.
fn is_secret_if_any(secret: Option<&Text>) -> bool
    ensures { result ≡ in_case (option_copied secret.entry) true is_secret }
{
    match secret {
        Some(secret) => is_secret(secret.as_str()),
        None => true,
    }
}

fn read_user_change(alloc: Global, body: &Body) -> Result<UserChange, BodyFail>
    ensures gives { (user : List ℕ) → Gives (sets_user user) result (model.user_change_request user (said body.now)) }
    ensures secret { IfOk result (λ change. IsTrue (in_case change.secret true is_secret)) }
{
    body.check_change(&[
        Name::Role,
        Name::Name,
        Name::Secret,
        Name::Admin,
        Name::Active,
    ])?;
    let role = body.text_or_null_if_any(Name::Role)?;
    let name = body.text_if_any(Name::Name)?;
    let secret = body.text_if_any(Name::Secret)?;
    let admin = body.truth_if_any(Name::Admin)?;
    let active = body.truth_if_any(Name::Active)?;
    if !is_secret_if_any(secret) {
        return Err(BodyFail::Form);
    }
    let role = copy_or_none(alloc, role)?;
    let name = copy_of(alloc, name)?;
    let secret = copy_of(alloc, secret)?;
    Ok(UserChange {
        role,
        name,
        secret,
        admin,
        active,
    })
}

fn user_change_in_bytes(alloc: Global, body: &[u8]) -> Result<UserChange, BodyFail>
    ensures gives { (user : List ℕ) → Gives (sets_user user) result (request_in (model.user_change_request user) body.now) }
    ensures secret { IfOk result (λ change. IsTrue (in_case change.secret true is_secret)) }
{
    let members = members_in(alloc, body)?;
    read_user_change(alloc, &Body::new(members.as_slice()))
}

/// The change of a user that a body says, whose secret is one if it has any; none if it isn't of that form.
///
/// # Errors
///
/// When out of memory.
pub fn user_change(alloc: Global, body: &[u8]) -> Result<Option<UserChange>, AllocError>
    ensures gives { IfOk result (λ change. (user : List ℕ)
        → option_map (sets_user user) change ≡ request_in (model.user_change_request user) body.now) }
    ensures secret { IfOk result (λ change. IfSome change (λ b. IsTrue (in_case b.secret true is_secret))) }
{
    or_none(user_change_in_bytes(alloc, body))
}

// ---- roles

fn read_role(alloc: Global, body: &Body) -> Result<NewRole, BodyFail>
    ensures { Gives adds_new_role result (model.role_request (said body.now)) }
{
    body.check_form(&[Name::Name, Name::Parent], &[])?;
    let name = body.text(Name::Name)?;
    let parent = body.text_or_null(Name::Parent)?;
    Ok(NewRole {
        name: name.copy(alloc)?,
        parent: copy_of(alloc, parent)?,
    })
}

fn role_in_bytes(alloc: Global, body: &[u8]) -> Result<NewRole, BodyFail>
    ensures { Gives adds_new_role result (request_in model.role_request body.now) }
{
    let members = members_in(alloc, body)?;
    read_role(alloc, &Body::new(members.as_slice()))
}

/// The role that a body says is to be added; none if it isn't of that form.
///
/// # Errors
///
/// When out of memory.
pub fn new_role(alloc: Global, body: &[u8]) -> Result<Option<NewRole>, AllocError>
    ensures { IfOk result (λ new. option_map adds_new_role new ≡ request_in model.role_request body.now) }
{
    or_none(role_in_bytes(alloc, body))
}

fn read_role_change(alloc: Global, body: &Body) -> Result<RoleChange, BodyFail>
    ensures { (role : List ℕ) → Gives (sets_role role) result (model.role_change_request role (said body.now)) }
{
    body.check_change(&[Name::Parent, Name::Name])?;
    let parent = body.text_or_null_if_any(Name::Parent)?;
    let name = body.text_if_any(Name::Name)?;
    let parent = copy_or_none(alloc, parent)?;
    let name = copy_of(alloc, name)?;
    Ok(RoleChange { parent, name })
}

fn role_change_in_bytes(alloc: Global, body: &[u8]) -> Result<RoleChange, BodyFail>
    ensures { (role : List ℕ) → Gives (sets_role role) result (request_in (model.role_change_request role) body.now) }
{
    let members = members_in(alloc, body)?;
    read_role_change(alloc, &Body::new(members.as_slice()))
}

/// The change of a role that a body says; none if it isn't of that form.
///
/// # Errors
///
/// When out of memory.
pub fn role_change(alloc: Global, body: &[u8]) -> Result<Option<RoleChange>, AllocError>
    ensures { IfOk result (λ change. (role : List ℕ)
        → option_map (sets_role role) change ≡ request_in (model.role_change_request role) body.now) }
{
    or_none(role_change_in_bytes(alloc, body))
}

// ---- the organisation

fn read_organisation(alloc: Global, body: &Body) -> Result<Text, BodyFail>
    ensures { Gives sets_organisation result (model.organisation_request (said body.now)) }
{
    body.check_form(&[Name::Name], &[])?;
    let name = body.text(Name::Name)?;
    Ok(name.copy(alloc)?)
}

fn organisation_in_bytes(alloc: Global, body: &[u8]) -> Result<Text, BodyFail>
    ensures { Gives sets_organisation result (request_in model.organisation_request body.now) }
{
    let members = members_in(alloc, body)?;
    read_organisation(alloc, &Body::new(members.as_slice()))
}

/// The name that a body says the organisation is to have; none if it isn't of that form.
///
/// # Errors
///
/// When out of memory.
pub fn organisation_name(alloc: Global, body: &[u8]) -> Result<Option<Text>, AllocError>
    ensures { IfOk result (λ name. option_map sets_organisation name ≡ request_in model.organisation_request body.now) }
{
    or_none(organisation_in_bytes(alloc, body))
}

//! What the bodies of requests ask for.

ghost use Rattle.std.specs.Prelude.{◌≡◌, IfOk, IsTrue, List, true, ℕ};
ghost use Rattle.api_edit.specs.inner.Edits.{Asks, form_of};
ghost use Rattle.api_input.specs.Bodies.{adds_new_role, begins_new_retype, request_in, values_request};
ghost use Rattle.record_input.specs.Given.{IsInJson};
ghost use Rattle.model.specs.Cases.{in_case};
ghost use Rattle.model.specs.Organisations.{is_secret};
ghost use Rattle.model_requests.specs.RequestOf.{request_of, request_or};
ghost use Rattle.model_requests.specs.Requests.{Request, adds_field, adds_object, adds_sharing_rule, adds_validation_rule, sets_object, shares};
ghost use Rattle.model_requests.specs.Requests.{adds_group, adds_user, sets_group, sets_organisation, sets_role, sets_user};
ghost use Rattle.model.specs.declared.record_bodies.Assignment.{Assignment};
ghost use Rattle.model_requests.specs.declared.route.Route.TheVariants.{AddField, AddObject, AddSharingRule, AddValidationRule, BeginRetype, SetObject, Share};
ghost use Rattle.model_requests.specs.declared.route.Route.TheVariants.{AddGroup, AddRole, AddUser, SetGroup, SetOrganisation, SetRole, SetUser};

use api_input::{
    NewRetype, NewRole, field_values, group_change, new_field, new_group, new_object, new_retype,
    new_role, new_share, new_sharing_rule, new_user, new_validation_rule, object_change,
    organisation_name, role_change, user_change,
};
use base_value::{Items, Text};
use model::{
    Assignment, GroupChange, NewField, NewObject, NewShare, NewSharingRule, NewUser,
    NewValidationRule, ObjectChange, Refusal, RoleChange, UserChange,
};
use std::alloc::{AllocError, Global};
use store_abstraction::EditFail;
use store_rows::StoreFail;

// What was read, where a body that isn't of its form is refused.
fn form_of<T>(read: Result<Option<T>, AllocError>) -> Result<T, EditFail>
    ensures { result ≡ form_of read }
{
    match read {
        Ok(Some(new)) => Ok(new),
        Ok(None) => Err(EditFail::Refused(Refusal::BodyForm)),
        Err(_) => Err(EditFail::Store(StoreFail::Memory)),
    }
}

/// The values that a body gives to the fields of a record, new or not, all in JSON, by which any request may be made.
///
/// # Errors
///
/// `Refused` with `BodyForm` if the body isn't of that form; `Store` with `Memory` if out of memory.
pub(crate) fn values_in(alloc: Global, body: &[u8]) -> Result<Items<Assignment>, EditFail>
    ensures values { (make : List Assignment → Request) → Asks make (request_or (request_in (values_request make) body.now)) result }
    ensures json { IfOk result IsInJson }
{
    form_of(field_values(alloc, body))
}

/// The object that a body asks for.
///
/// # Errors
///
/// `Refused` with `BodyForm` if the body isn't of that form; `Store` with `Memory` if out of memory.
pub(crate) fn object_in(alloc: Global, body: &[u8]) -> Result<NewObject, EditFail>
    ensures { Asks adds_object (request_of AddObject body.now) result }
{
    form_of(new_object(alloc, body))
}

/// The change of an object that a body asks for.
///
/// # Errors
///
/// `Refused` with `BodyForm` if the body isn't of that form; `Store` with `Memory` if out of memory.
pub(crate) fn object_change_in(alloc: Global, body: &[u8]) -> Result<ObjectChange, EditFail>
    ensures { (object : List ℕ) → Asks (sets_object object) (request_of (SetObject object) body.now) result }
{
    form_of(object_change(alloc, body))
}

/// The validation rule that a body asks for.
///
/// # Errors
///
/// `Refused` with `BodyForm` if the body isn't of that form; `Store` with `Memory` if out of memory.
pub(crate) fn rule_in(alloc: Global, body: &[u8]) -> Result<NewValidationRule, EditFail>
    ensures { Asks adds_validation_rule (request_of AddValidationRule body.now) result }
{
    form_of(new_validation_rule(alloc, body))
}

/// The field that a body asks for.
///
/// # Errors
///
/// `Refused` with `BodyForm` if the body isn't of that form; `Store` with `Memory` if out of memory.
pub(crate) fn field_in(alloc: Global, body: &[u8]) -> Result<NewField, EditFail>
    ensures { Asks adds_field (request_of AddField body.now) result }
{
    form_of(new_field(alloc, body))
}

/// The user that a body asks for, whose secret is one.
///
/// # Errors
///
/// `Refused` with `BodyForm` if the body isn't of that form; `Store` with `Memory` if out of memory.
pub(crate) fn user_in(alloc: Global, body: &[u8]) -> Result<NewUser, EditFail>
    ensures asks { Asks adds_user (request_of AddUser body.now) result }
    ensures secret { IfOk result (λ new. IsTrue (is_secret new.secret)) }
{
    form_of(new_user(alloc, body))
}

/// The change of a user that a body asks for, whose secret is one.
///
/// # Errors
///
/// `Refused` with `BodyForm` if the body isn't of that form; `Store` with `Memory` if out of memory.
pub(crate) fn user_change_in(alloc: Global, body: &[u8]) -> Result<UserChange, EditFail>
    ensures asks { (user : List ℕ) → Asks (sets_user user) (request_of (SetUser user) body.now) result }
    ensures secret { IfOk result (λ change. IsTrue (in_case change.secret true is_secret)) }
{
    form_of(user_change(alloc, body))
}

/// The role that a body asks for.
///
/// # Errors
///
/// `Refused` with `BodyForm` if the body isn't of that form; `Store` with `Memory` if out of memory.
pub(crate) fn role_in(alloc: Global, body: &[u8]) -> Result<NewRole, EditFail>
    ensures { Asks adds_new_role (request_of AddRole body.now) result }
{
    form_of(new_role(alloc, body))
}

/// The change of a role that a body asks for.
///
/// # Errors
///
/// `Refused` with `BodyForm` if the body isn't of that form; `Store` with `Memory` if out of memory.
pub(crate) fn role_change_in(alloc: Global, body: &[u8]) -> Result<RoleChange, EditFail>
    ensures { (role : List ℕ) → Asks (sets_role role) (request_of (SetRole role) body.now) result }
{
    form_of(role_change(alloc, body))
}

/// The name of the group that a body asks for.
///
/// # Errors
///
/// `Refused` with `BodyForm` if the body isn't of that form; `Store` with `Memory` if out of memory.
pub(crate) fn group_in(alloc: Global, body: &[u8]) -> Result<Text, EditFail>
    ensures { Asks adds_group (request_of AddGroup body.now) result }
{
    form_of(new_group(alloc, body))
}

/// The change of a group that a body asks for.
///
/// # Errors
///
/// `Refused` with `BodyForm` if the body isn't of that form; `Store` with `Memory` if out of memory.
pub(crate) fn group_change_in(alloc: Global, body: &[u8]) -> Result<GroupChange, EditFail>
    ensures { (group : List ℕ) → Asks (sets_group group) (request_of (SetGroup group) body.now) result }
{
    form_of(group_change(alloc, body))
}

/// The name that a body asks for the organisation to have.
///
/// # Errors
///
/// `Refused` with `BodyForm` if the body isn't of that form; `Store` with `Memory` if out of memory.
pub(crate) fn organisation_in(alloc: Global, body: &[u8]) -> Result<Text, EditFail>
    ensures { Asks sets_organisation (request_of SetOrganisation body.now) result }
{
    form_of(organisation_name(alloc, body))
}

/// The manual share that a body asks for.
///
/// # Errors
///
/// `Refused` with `BodyForm` if the body isn't of that form; `Store` with `Memory` if out of memory.
pub(crate) fn share_in(alloc: Global, body: &[u8]) -> Result<NewShare, EditFail>
    ensures { Asks shares (request_of Share body.now) result }
{
    form_of(new_share(alloc, body))
}

/// The sharing rule that a body asks for.
///
/// # Errors
///
/// `Refused` with `BodyForm` if the body isn't of that form; `Store` with `Memory` if out of memory.
pub(crate) fn sharing_rule_in(alloc: Global, body: &[u8]) -> Result<NewSharingRule, EditFail>
    ensures { Asks adds_sharing_rule (request_of AddSharingRule body.now) result }
{
    form_of(new_sharing_rule(alloc, body))
}

/// The change of a field's type that a body asks for, whose type is within its bounds.
///
/// # Errors
///
/// `Refused` with `BodyForm` if the body isn't of that form; `Store` with `Memory` if out of memory.
pub(crate) fn retype_in(alloc: Global, body: &[u8]) -> Result<NewRetype, EditFail>
    ensures { Asks begins_new_retype (request_of BeginRetype body.now) result }
{
    form_of(new_retype(alloc, body))
}

//! What bodies say of objects.

ghost use Rattle.std.specs.Prelude.{◌≡◌, ◌∷◌, ◌++◌, ◌&&◌, [], IfOk, List, OnOk, not, ℕ, bytes_eq, codes, if◌then◌else◌, is_some, true};
ghost use Rattle.std.specs.Bool.{beq};
ghost use Rattle.std.specs.Option.{option_map};
ghost use Rattle.model.specs.Cases.{in_case};
ghost use Rattle.model.specs.Fields.{by_parent};
ghost use Rattle.model_requests.specs.Forms as model;
ghost use Rattle.model.specs.Members.{if_any, member_names};
ghost use Rattle.model_requests.specs.Requests.{adds_object, sets_object};
ghost use Rattle.api_input.specs.Bodies.{request_in};
ghost use Rattle.api_input.specs.inner.Outcomes.{Gives};
ghost use Rattle.api_input.specs.inner.Said.{said};
ghost use Rattle.api_input.specs.inner.Spelled.{body_of, choice_member, member_object};

use crate::body::{Body, append_names, members_in};
use crate::fail::{BodyFail, or_none};
use crate::name::Name;
use base_json::Member;
use base_value::{Access, Items, Text, is_text};
use model::{NewMaster, NewObject, ObjectChange};
use std::alloc::{AllocError, Global};

// The member `access`.
fn access_in(body: &Body) -> Result<Access, BodyFail>
    ensures { Gives (λ a. a) result (choice_member (said body.now) (codes "access") model.accesses) }
{
    body.table_entry(
        Name::Access,
        &[
            ("Private", Access::Private),
            ("Read", Access::Read),
            ("ReadWrite", Access::ReadWrite),
            ("ControlledByParent", Access::ControlledByParent),
        ],
    )
}

// The member `access`, if it is there.
fn access_if_any(body: &Body) -> Result<Option<Access>, BodyFail>
    ensures { Gives (λ a. a) result (if_any model.as_access (said body.now) (codes "access")) }
{
    match body.entry(Name::Access) {
        Some(_) => Ok(Some(access_in(body)?)),
        None => Ok(None),
    }
}

fn is_by_parent(access: Access) -> bool
    ensures { result ≡ by_parent access }
{
    match access {
        Access::ControlledByParent => true,
        _ => false,
    }
}

fn master_form(alloc: Global, body: &Body) -> Result<NewMaster, BodyFail>
    ensures { Gives (λ m. m) result (model.master_form (said body.now)) }
{
    body.check_form(&[Name::Field, Name::Parent, Name::Child], &[])?;
    let field = body.text(Name::Field)?;
    let parent = body.text(Name::Parent)?;
    let child = body.text(Name::Child)?;
    Ok(NewMaster {
        field: field.copy(alloc)?,
        parent: parent.copy(alloc)?,
        child: child.copy(alloc)?,
    })
}

// The member `master`, which may be left out.
fn master_of(alloc: Global, body: &Body) -> Result<Option<NewMaster>, BodyFail>
    ensures { Gives (λ m. m) result (model.master_member (said body.now)) }
{
    match body.entry(Name::Master) {
        Some(_) => Ok(Some(master_form(alloc, &body.object(Name::Master)?)?)),
        None => Ok(None),
    }
}

// The members of `master`; none where it isn't there, or no object.
fn master_members<'a>(body: &Body<'a>) -> &'a [Member]
    ensures { member_names (body_of result.now) ≡ in_case (member_object (said body.now) (codes "master")) [] member_names }
{
    match body.object_members(Name::Master) {
        Some(members) => members,
        None => &[],
    }
}

// Appends the name of a member, or in place of `master` the names of its members.
fn append_name(
    alloc: Global,
    names: &mut Items<Text>,
    member: &Member,
    master: &[Member],
) -> Result<(), AllocError>
    ensures { OnOk result (names.new ≡ names.old
        ++ (if bytes_eq member.now.name (codes "master") then member_names (body_of master.now) else member.now.name ∷ [])) }
{
    if is_text(&member.name, Name::Master.text()) {
        append_names(alloc, names, master)
    } else {
        names.push(member.name.copy(alloc)?)
    }
}

// The names of all members in their order, those of `master` in its place.
fn all_names(alloc: Global, body: &Body) -> Result<Items<Text>, AllocError>
    ensures { IfOk result (λ names. names ≡ model.all_names (said body.now)) }
{
    let master = master_members(body);
    let mut names = Items::new(alloc);
    let mut rest = body.members();
    'members: while let Some((member, more)) = rest.split_first() {
        append_name(alloc, &mut names, member, master)?;
        rest = more;
    }
    Ok(names)
}

// Whether the access and the hierarchy suit a master that is there or isn't: it is there exactly where the access is by the
// parent, and then nothing is said of the hierarchy.
fn suits_master(access: Access, hierarchy: Option<bool>, has_master: bool) -> bool
    ensures { result ≡ (beq (by_parent access) has_master && not (is_some hierarchy && has_master)) }
{
    is_by_parent(access) == has_master && !(hierarchy.is_some() && has_master)
}

fn read_object(alloc: Global, body: &Body) -> Result<NewObject, BodyFail>
    ensures { Gives adds_object result (model.object_request (said body.now)) }
{
    body.check_form(
        &[Name::Name, Name::Access],
        &[Name::Hierarchy, Name::Master],
    )?;
    let name = body.text(Name::Name)?;
    let access = access_in(body)?;
    let hierarchy = body.truth_if_any(Name::Hierarchy)?;
    let master = master_of(alloc, body)?;
    if !suits_master(access, hierarchy, master.is_some()) {
        return Err(BodyFail::Form);
    }
    let members = all_names(alloc, body)?;
    let name = name.copy(alloc)?;
    Ok(NewObject {
        members,
        name,
        access,
        hierarchy: hierarchy.unwrap_or(true),
        master,
    })
}

// Whether an access that an object is to have, if there is one, isn't by the parent.
fn is_own(access: Option<Access>) -> bool
    ensures { result ≡ in_case access true (λ a. not (by_parent a)) }
{
    match access {
        Some(access) => !is_by_parent(access),
        None => true,
    }
}

fn read_object_change(body: &Body) -> Result<ObjectChange, BodyFail>
    ensures { (object : List ℕ) → Gives (sets_object object) result (model.object_change_request object (said body.now)) }
{
    body.check_change(&[Name::Access, Name::Hierarchy])?;
    let access = access_if_any(body)?;
    let hierarchy = body.truth_if_any(Name::Hierarchy)?;
    if is_own(access) {
        Ok(ObjectChange { access, hierarchy })
    } else {
        Err(BodyFail::Form)
    }
}

fn object_in_bytes(alloc: Global, body: &[u8]) -> Result<NewObject, BodyFail>
    ensures { Gives adds_object result (request_in model.object_request body.now) }
{
    let members = members_in(alloc, body)?;
    read_object(alloc, &Body::new(members.as_slice()))
}

fn object_change_in_bytes(alloc: Global, body: &[u8]) -> Result<ObjectChange, BodyFail>
    ensures { (object : List ℕ) → Gives (sets_object object) result (request_in (model.object_change_request object) body.now) }
{
    let members = members_in(alloc, body)?;
    read_object_change(&Body::new(members.as_slice()))
}

/// The object that a body says is to be added; none if it isn't of that form.
///
/// # Errors
///
/// When out of memory.
pub fn new_object(alloc: Global, body: &[u8]) -> Result<Option<NewObject>, AllocError>
    ensures { IfOk result (λ new. option_map adds_object new ≡ request_in model.object_request body.now) }
{
    or_none(object_in_bytes(alloc, body))
}

/// The change of an object that a body says; none if it isn't of that form.
///
/// # Errors
///
/// When out of memory.
pub fn object_change(alloc: Global, body: &[u8]) -> Result<Option<ObjectChange>, AllocError>
    ensures { IfOk result (λ change. (object : List ℕ)
        → option_map (sets_object object) change ≡ request_in (model.object_change_request object) body.now) }
{
    or_none(object_change_in_bytes(alloc, body))
}

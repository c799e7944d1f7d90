//! The ids and principals that a request spells.

ghost use Rattle.std.specs.Prelude.{◌≡◌, IsTrue, MatchOption, None, bytes_eq};
ghost use Rattle.std.specs.Str.{chars};
ghost use Rattle.model.specs.Principals.{bad_id, kind_of, principal_of, spelled_id};
ghost use Rattle.model.specs.Rules.{in_body_order, rule_of};
ghost use Rattle.store_codec.specs.Composed.{FitsPrincipal};
ghost use Rattle.store_edit.specs.Judging.{Passes};
ghost use Rattle.access_shares.specs.inner.Finding.{NamesItem, member_rules};
ghost use Rattle.store_abstraction.specs.Calls.{ended_edit, fell};
ghost use Rattle.base_value.specs.Id.{id_in, is_id};

use base_value::{Id, Principal, Text, id_in};
use model::{NewShare, PrincipalKind, Refusal, Spelled};
use std::alloc::Global;
use store_abstraction::EditFail;

/// The id that a text spells.
///
/// # Errors
///
/// `Refused` with `MalformedId` if it spells none, `Store` with `Memory` if out of memory.
pub(crate) fn id_of(alloc: Global, text: &Text) -> Result<Id, EditFail>
    ensures passes { Passes (bad_id text.now) (λ id. (id ≡ spelled_id text.now) × IsTrue (is_id id)) result }
    ensures cause { ended_edit result ≡ fell → ⊥ }
{
    match id_in(text.as_str()) {
        Some(id) => {
            // That these are an id's characters.
            let _ = id.as_bytes();
            Ok(id)
        }
        None => Err(EditFail::Refused(Refusal::MalformedId {
            text: text.copy(alloc)?,
        })),
    }
}

/// The id of a record that a text spells.
///
/// # Errors
///
/// `Refused` with `NotFound` if it spells none: no record has it.
pub(crate) fn item_of(text: &Text) -> Result<Id, EditFail>
    ensures { NamesItem text.now result }
{
    match id_in(text.as_str()) {
        Some(id) => {
            // That these are an id's characters.
            let _ = id.as_bytes();
            Ok(id)
        }
        None => Err(EditFail::Refused(Refusal::NotFound)),
    }
}

// The principal of a kind that has this id.
fn principal_with(kind: PrincipalKind, id: Id) -> Principal
    ensures { result ≡ kind_of kind id }
{
    match kind {
        PrincipalKind::User => Principal::User(id),
        PrincipalKind::Role => Principal::Role(id),
        PrincipalKind::Subordinates => Principal::Subordinates(id),
        PrincipalKind::Group => Principal::Group(id),
    }
}

/// The principal that is spelled.
///
/// # Errors
///
/// `Refused` with `MalformedId` if its text is no id, `Store` with `Memory` if out of memory.
pub(crate) fn principal_of(alloc: Global, spelled: &Spelled) -> Result<Principal, EditFail>
    ensures passes { Passes (bad_id spelled.now.text) (λ p. (p ≡ principal_of spelled.now) × FitsPrincipal p) result }
    ensures cause { ended_edit result ≡ fell → ⊥ }
{
    match id_of(alloc, &spelled.text) {
        Ok(id) => Ok(principal_with(spelled.kind, id)),
        Err(fail) => Err(fail),
    }
}

/// The principal that is spelled, if its text is an id.
pub(crate) fn principal_in(spelled: &Spelled) -> Option<Principal>
    ensures { MatchOption result (id_in spelled.now.text ≡ None) (λ p. (p ≡ principal_of spelled.now) × FitsPrincipal p) }
{
    match id_in(spelled.text.as_str()) {
        Some(id) => {
            // That these are an id's characters.
            let _ = id.as_bytes();
            Some(principal_with(spelled.kind, id))
        }
        None => None,
    }
}

// Whether a member has this name.
fn is_named(member: &Text, name: &str) -> bool
    ensures { result ≡ bytes_eq (chars name.now) member.now }
{
    member.as_str() == name
}

// Refuses a text that is no id.
fn check_id(alloc: Global, text: &Text) -> Result<(), EditFail>
    ensures passes { Passes (bad_id text.now) (λ x. Unit {0}) result }
    ensures cause { ended_edit result ≡ fell → ⊥ }
{
    match id_of(alloc, text) {
        Ok(_) => Ok(()),
        Err(fail) => Err(fail),
    }
}

// Refuses the text that this member of a body is, if it is to be an id and isn't.
fn check_member(alloc: Global, new: &NewShare, member: &Text) -> Result<(), EditFail>
    ensures passes { Passes (rule_of (member_rules new.now) member.now) (λ x. Unit {0}) result }
    ensures cause { ended_edit result ≡ fell → ⊥ }
{
    if is_named(member, "record") {
        check_id(alloc, &new.item)
    } else if is_named(member, "to") {
        check_id(alloc, &new.to.text)
    } else {
        Ok(())
    }
}

/// Refuses the first text in the order of the body's members that is to be an id and isn't.
///
/// # Errors
///
/// `Refused` with `MalformedId`, `Store` with `Memory` if out of memory.
pub(crate) fn check_texts(alloc: Global, new: &NewShare) -> Result<(), EditFail>
    ensures passes { Passes (in_body_order new.now.members (member_rules new.now)) (λ x. Unit {0}) result }
    ensures cause { ended_edit result ≡ fell → ⊥ }
{
    let members = new.members.as_slice();
    for member in members {
        check_member(alloc, new, member)?;
    }
    Ok(())
}

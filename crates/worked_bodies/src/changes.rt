//! Bodies of changes, and what each says; `none` if it isn't of its form. What a change doesn't say is left out.

use crate::bodies::access_name;
use crate::people::shown_members;
use api_input::{group_change, object_change, organisation_name, role_change, user_change};
use base_value::Text;
use model::{GroupChange, ObjectChange, RoleChange, UserChange};
use std::alloc::{AllocError, Global};

// Appends a member's name and what is said there.
fn push_said(out: &mut String, name: &str, said: &str) -> Result<(), AllocError> {
    if !out.is_empty() {
        out.push_str(" ")?;
    }
    out.push_str(name)?;
    out.push_str(" ")?;
    out.push_str(said)
}

// A text between two `"`.
fn quoted(alloc: Global, text: &Text) -> Result<String, AllocError> {
    let text = text.as_str();
    format!(in alloc; "\"{text}\"")
}

// Appends a member that is a text, if it is there.
fn push_text(
    alloc: Global,
    out: &mut String,
    name: &str,
    text: &Option<Text>,
) -> Result<(), AllocError> {
    match text {
        Some(text) => {
            let said = quoted(alloc, text)?;
            push_said(out, name, said.as_str())
        }
        None => Ok(()),
    }
}

// Appends a member that is a text or null, if it is there.
fn push_text_or_null(
    alloc: Global,
    out: &mut String,
    name: &str,
    text: &Option<Option<Text>>,
) -> Result<(), AllocError> {
    match text {
        Some(Some(text)) => {
            let said = quoted(alloc, text)?;
            push_said(out, name, said.as_str())
        }
        Some(None) => push_said(out, name, "null"),
        None => Ok(()),
    }
}

// Appends a member that is a truth value, if it is there.
fn push_truth(out: &mut String, name: &str, truth: Option<bool>) -> Result<(), AllocError> {
    match truth {
        Some(true) => push_said(out, name, "true"),
        Some(false) => push_said(out, name, "false"),
        None => Ok(()),
    }
}

fn shown_object(alloc: Global, change: &ObjectChange) -> Result<String, AllocError> {
    let mut out = String::new(alloc);
    if let Some(access) = change.access {
        push_said(&mut out, "access", access_name(access))?;
    }
    push_truth(&mut out, "hierarchy", change.hierarchy)?;
    Ok(out)
}

fn shown_user(alloc: Global, change: &UserChange) -> Result<String, AllocError> {
    let mut out = String::new(alloc);
    push_text_or_null(alloc, &mut out, "role", &change.role)?;
    push_text(alloc, &mut out, "name", &change.name)?;
    push_text(alloc, &mut out, "secret", &change.secret)?;
    push_truth(&mut out, "admin", change.admin)?;
    push_truth(&mut out, "active", change.active)?;
    Ok(out)
}

fn shown_role(alloc: Global, change: &RoleChange) -> Result<String, AllocError> {
    let mut out = String::new(alloc);
    push_text_or_null(alloc, &mut out, "parent", &change.parent)?;
    push_text(alloc, &mut out, "name", &change.name)?;
    Ok(out)
}

fn shown_group(alloc: Global, change: &GroupChange) -> Result<String, AllocError> {
    let mut out = String::new(alloc);
    if let Some(members) = &change.members {
        let said = shown_members(alloc, members.as_slice())?;
        push_said(&mut out, "members", said.as_str())?;
    }
    push_text(alloc, &mut out, "name", &change.name)?;
    Ok(out)
}

/// A change of an object.
pub(crate) fn object(alloc: Global, body: &[u8]) -> Result<String, AllocError> {
    match object_change(alloc, body)? {
        Some(change) => shown_object(alloc, &change),
        None => String::from_str(alloc, "none"),
    }
}

/// A change of a user.
pub(crate) fn user(alloc: Global, body: &[u8]) -> Result<String, AllocError> {
    match user_change(alloc, body)? {
        Some(change) => shown_user(alloc, &change),
        None => String::from_str(alloc, "none"),
    }
}

/// A change of a role.
pub(crate) fn role(alloc: Global, body: &[u8]) -> Result<String, AllocError> {
    match role_change(alloc, body)? {
        Some(change) => shown_role(alloc, &change),
        None => String::from_str(alloc, "none"),
    }
}

/// A change of a group: of each member the kind, and the text of its id.
pub(crate) fn group(alloc: Global, body: &[u8]) -> Result<String, AllocError> {
    match group_change(alloc, body)? {
        Some(change) => shown_group(alloc, &change),
        None => String::from_str(alloc, "none"),
    }
}

/// The name of the organisation, between two `"`.
pub(crate) fn organisation(alloc: Global, body: &[u8]) -> Result<String, AllocError> {
    match organisation_name(alloc, body)? {
        Some(name) => quoted(alloc, &name),
        None => String::from_str(alloc, "none"),
    }
}

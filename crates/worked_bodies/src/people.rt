//! Bodies of new users, roles and groups, and what each says; `none` if it isn't of its form.

use api_input::{new_group, new_role, new_user};
use base_value::Text;
use model::{NewUser, PrincipalKind, Spelled};
use std::alloc::{AllocError, Global};

// The text of an id, or `-`.
fn id_or_none(id: &Option<Text>) -> &str {
    match id {
        Some(text) => text.as_str(),
        None => "-",
    }
}

fn shown_user(alloc: Global, new: &NewUser) -> Result<String, AllocError> {
    let name = new.name.as_str();
    let secret = new.secret.as_str();
    let role = id_or_none(&new.role);
    let admin = if new.admin { " admin" } else { "" };
    format!(in alloc; "{name} {secret} {role}{admin}")
}

/// A new user: the name, the secret, the role, and whether it administers.
pub(crate) fn user(alloc: Global, body: &[u8]) -> Result<String, AllocError> {
    match new_user(alloc, body)? {
        Some(new) => shown_user(alloc, &new),
        None => String::from_str(alloc, "none"),
    }
}

/// A new role: the name, and the parent.
pub(crate) fn role(alloc: Global, body: &[u8]) -> Result<String, AllocError> {
    match new_role(alloc, body)? {
        Some(new) => {
            let name = new.name.as_str();
            let parent = id_or_none(&new.parent);
            format!(in alloc; "{name} {parent}")
        }
        None => String::from_str(alloc, "none"),
    }
}

/// The name of a new group, between two `"`.
pub(crate) fn group(alloc: Global, body: &[u8]) -> Result<String, AllocError> {
    match new_group(alloc, body)? {
        Some(name) => {
            let name = name.as_str();
            format!(in alloc; "\"{name}\"")
        }
        None => String::from_str(alloc, "none"),
    }
}

fn kind_word(kind: PrincipalKind) -> &'static str {
    match kind {
        PrincipalKind::User => "user",
        PrincipalKind::Role => "role",
        PrincipalKind::Subordinates => "subordinates",
        PrincipalKind::Group => "group",
    }
}

/// A principal as it is spelled: its kind, and the text of its id.
pub(crate) fn spelled(alloc: Global, principal: &Spelled) -> Result<String, AllocError> {
    let kind = kind_word(principal.kind);
    let text = principal.text.as_str();
    format!(in alloc; "{kind} {text}")
}

/// The members of a group: of each the kind, and the text of its id.
pub(crate) fn shown_members(alloc: Global, members: &[Spelled]) -> Result<String, AllocError> {
    let mut out = String::from_str(alloc, "[")?;
    for (at, member) in members.iter().enumerate() {
        if at > 0 {
            out.push_str(", ")?;
        }
        let spelled = spelled(alloc, member)?;
        out.push_str(&spelled)?;
    }
    out.push_str("]")?;
    Ok(out)
}

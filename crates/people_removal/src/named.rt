//! What is to go, and what names it.

ghost use Rattle.std.specs.Prelude.{◌≡◌};
ghost use Rattle.std.specs.List.{list_any};
ghost use Rattle.model_requests.specs.Removals.{is_group, is_id, is_of_role};
ghost use Rattle.people_removal.specs.inner.Naming.{is_from_part, is_in, names};

use base_value::{Id, Principal, RuleSource};
use store_rows::{GroupRow, RoleRow, SharingRow, UserRow};

/// What is to go.
#[derive(Clone, Copy, Debug)]
pub(crate) enum Named {
    /// The role with this id.
    Role(Id),
    /// The group with this id.
    Group(Id),
}

// Whether a principal is of the role with this id.
fn is_of_role(id: &Id, principal: &Principal) -> bool
    ensures { result ≡ is_of_role id.now principal.now }
{
    match principal {
        Principal::Role(role) | Principal::Subordinates(role) => *role == *id,
        Principal::User(_) | Principal::Group(_) => false,
    }
}

// Whether a principal is the group with this id.
fn is_group(id: &Id, principal: &Principal) -> bool
    ensures { result ≡ is_group id.now principal.now }
{
    match principal {
        Principal::Group(group) => *group == *id,
        Principal::User(_) | Principal::Role(_) | Principal::Subordinates(_) => false,
    }
}

/// Whether a principal is of the role, or is the group.
pub(crate) fn is_named(named: &Named, principal: &Principal) -> bool
    ensures { result ≡ names named.now principal.now }
{
    match named {
        Named::Role(id) => is_of_role(id, principal),
        Named::Group(id) => is_group(id, principal),
    }
}

// Whether one of these principals is such.
fn is_member(named: &Named, members: &[Principal]) -> bool
    ensures { result ≡ list_any (names named.now) members.now }
{
    members.iter().any(|member| is_named(named, member))
}

// Whether a group has such a member. A group in itself doesn't count.
fn is_in(named: &Named, group: &GroupRow) -> bool
    ensures { result ≡ is_in named.now group.now.id group.now.members }
{
    let member = is_member(named, group.members.as_slice());
    match named {
        Named::Role(_) => member,
        Named::Group(id) => group.id != *id && member,
    }
}

/// Whether one of these groups has such a member. A group in itself doesn't count.
pub(crate) fn is_in_any(named: &Named, groups: &[GroupRow]) -> bool
    ensures { result ≡ list_any (λ g. is_in named.now g.id g.members) groups.now }
{
    groups.iter().any(|group| is_in(named, group))
}

// Whether an id is there and is this one.
fn is_id(id: &Id, other: &Option<Id>) -> bool
    ensures { result ≡ is_id id.now other.now }
{
    match other {
        None => false,
        Some(other) => *other == *id,
    }
}

/// Whether one of these users has the role with this id.
pub(crate) fn is_role_of_any(id: &Id, users: &[UserRow]) -> bool
    ensures { result ≡ list_any (λ u. is_id id.now u.role) users.now }
{
    users.iter().any(|user| is_id(id, &user.role))
}

/// Whether the role with this id is above one of these.
pub(crate) fn is_above_any(id: &Id, roles: &[RoleRow]) -> bool
    ensures { result ≡ list_any (λ r. is_id id.now r.parent) roles.now }
{
    roles.iter().any(|role| is_id(id, &role.parent))
}

// Whether a rule shares the records of such a principal.
fn is_from(named: &Named, source: &RuleSource) -> bool
    ensures { result ≡ is_from_part (names named.now) source.now }
{
    match source {
        RuleSource::Owner(owner) => is_named(named, owner),
        RuleSource::Criteria(_) => false,
    }
}

/// Whether one of these rules shares the records of such a principal.
pub(crate) fn is_from_any(named: &Named, rules: &[SharingRow]) -> bool
    ensures { result ≡ list_any (λ r. is_from_part (names named.now) r.source) rules.now }
{
    rules.iter().any(|rule| is_from(named, &rule.source))
}

/// Whether one of these rules shares with such a principal.
pub(crate) fn is_to_any(named: &Named, rules: &[SharingRow]) -> bool
    ensures { result ≡ list_any (λ r. names named.now r.to) rules.now }
{
    rules.iter().any(|rule| is_named(named, &rule.to))
}

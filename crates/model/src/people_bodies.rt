//! What bodies say of users, roles and groups, and of principals.

use base_value::{Items, Text};

/// The kinds of principals.
#[derive(Clone, Copy, Debug, PartialEq, Eq)]
pub enum PrincipalKind {
    /// A user.
    User,
    /// The users in a role.
    Role,
    /// The users in a role and in the roles below it.
    Subordinates,
    /// The members of a group's members.
    Group,
}

/// A principal as a request spells it.
#[derive(Debug, Drop)]
pub struct Spelled {
    /// Its kind.
    pub kind: PrincipalKind,
    /// The text of its id, which may be none.
    pub text: Text,
}

/// What a body says of a new user.
#[derive(Debug, Drop)]
pub struct NewUser {
    /// Its name.
    pub name: Text,
    /// Its secret.
    pub secret: Text,
    /// The text of its role's id, if it is to have a role.
    pub role: Option<Text>,
    /// Whether it administers the organisation.
    pub admin: bool,
}

/// What a body says of a user that is to be changed: at least one of these, and what it doesn't say stays.
#[derive(Debug, Drop)]
pub struct UserChange {
    /// The text of its role's id, or that it is to have none.
    pub role: Option<Option<Text>>,
    /// Its name.
    pub name: Option<Text>,
    /// Its secret.
    pub secret: Option<Text>,
    /// Whether it administers the organisation.
    pub admin: Option<bool>,
    /// Whether it is active.
    pub active: Option<bool>,
}

/// What a body says of a role that is to be changed: at least one of these, and what it doesn't say stays.
#[derive(Debug, Drop)]
pub struct RoleChange {
    /// The text of its parent's id, or that it is to have none.
    pub parent: Option<Option<Text>>,
    /// Its name.
    pub name: Option<Text>,
}

/// What a body says of a group that is to be changed: at least one of these, and what it doesn't say stays.
#[derive(Debug, Drop)]
pub struct GroupChange {
    /// Its members.
    pub members: Option<Items<Spelled>>,
    /// Its name.
    pub name: Option<Text>,
}

ghost use Rattle.std.specs.Prelude.{◌≡◌};
ghost use Rattle.model_requests.specs.Routing.{is_administration};

use base_value::Text;

/// What a request asks for: its method and its path, taken apart as they are spelled.
#[derive(Debug, Drop)]
pub enum Route {
    /// The rows of a query.
    Query {
        /// The query string of the target.
        pairs: Text,
    },
    /// A new record.
    Create {
        /// The object's name.
        object: Text,
    },
    /// Other values for a record.
    Update {
        /// The object's name.
        object: Text,
        /// The record's id.
        key: Text,
    },
    /// A record's deletion.
    Delete {
        /// The object's name.
        object: Text,
        /// The record's id.
        key: Text,
    },
    /// Values for the record that has a value of a unique field, or else a new one.
    Upsert {
        /// The object's name.
        object: Text,
        /// The unique field's name.
        key: Text,
        /// The value, with percent triplets.
        value: Text,
    },
    /// A manual share of a record.
    Share,
    /// The end of a manual share.
    Unshare {
        /// The record's id.
        item: Text,
        /// The principal to whom it was shared.
        to: Text,
    },
    /// A new object.
    AddObject,
    /// Another default access of an object, or whether the role hierarchy counts.
    SetObject {
        /// The object's name.
        object: Text,
    },
    /// A new field.
    AddField,
    /// A new validation rule.
    AddValidationRule,
    /// The end of a validation rule.
    RemoveValidationRule {
        /// The object's name.
        object: Text,
        /// The rule's name.
        name: Text,
    },
    /// A new sharing rule.
    AddSharingRule,
    /// The end of a sharing rule.
    RemoveSharingRule {
        /// The rule's name.
        name: Text,
    },
    /// A new user.
    AddUser,
    /// Another role, name, secret or standing of a user.
    SetUser {
        /// The user's id.
        id: Text,
    },
    /// A new role.
    AddRole,
    /// Another parent or name of a role.
    SetRole {
        /// The role's id.
        id: Text,
    },
    /// The end of a role.
    RemoveRole {
        /// The role's id.
        id: Text,
    },
    /// A new group.
    AddGroup,
    /// Other members of a group, or another name.
    SetGroup {
        /// The group's id.
        id: Text,
    },
    /// The end of a group.
    RemoveGroup {
        /// The group's id.
        id: Text,
    },
    /// Another name of the organisation.
    SetOrganisation,
    /// The change of a field's type.
    BeginRetype,
    /// How far the change of a field's type is.
    GetRetype,
    /// The end of a change of a field's type that is under way.
    CancelRetype,
}

impl Route {
    /// Whether administrators alone may ask for it: all but what is done with records.
    pub fn is_administration(&self) -> bool
        ensures { result ≡ is_administration self.now }
    {
        !matches!(
            self,
            Route::Query { .. }
                | Route::Create { .. }
                | Route::Update { .. }
                | Route::Delete { .. }
                | Route::Upsert { .. }
                | Route::Share
                | Route::Unshare { .. }
        )
    }
}

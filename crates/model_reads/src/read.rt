ghost use Rattle.std.specs.Prelude.{◌≡◌};
ghost use Rattle.model_reads.specs.Reads.{for_administrators};

use base_value::Text;

/// What is read, by the parts of its path as they are spelled.
#[derive(Debug, Drop)]
pub enum Read {
    /// Who asks.
    Caller,
    /// The names of users, roles and groups.
    People,
    /// The versions of the API.
    Versions,
    /// What there is below a version.
    Resources,
    /// How many there may be of each thing, and how many more.
    Limits,
    /// All objects, each in short.
    Objects,
    /// An object in short.
    Object {
        /// The object's name.
        object: Text,
    },
    /// A record, or with `describe` as its key the object's description.
    Record {
        /// The object's name.
        object: Text,
        /// The record's id.
        key: Text,
        /// The query string of the target.
        pairs: Text,
    },
    /// The record that has a value of a unique field.
    RecordBy {
        /// The object's name.
        object: Text,
        /// The unique field's name.
        field: Text,
        /// The value, with percent triplets.
        value: Text,
        /// The query string of the target.
        pairs: Text,
    },
    /// The manual shares of a record.
    Shares {
        /// The record's id.
        record: Text,
    },
    /// All users.
    Users,
    /// All roles.
    Roles,
    /// All groups, with their members.
    Groups,
    /// All sharing rules.
    SharingRules,
    /// All objects, with what is set of them and how much they have.
    ObjectSettings,
    /// The validation rules of an object.
    ValidationRules {
        /// The object's name.
        object: Text,
    },
}

impl Read {
    /// Whether administrators alone may ask for it.
    pub fn for_administrators(&self) -> bool
        ensures { result ≡ for_administrators self.now }
    {
        matches!(
            self,
            Read::Users
                | Read::Roles
                | Read::Groups
                | Read::SharingRules
                | Read::ObjectSettings
                | Read::ValidationRules { .. }
        )
    }
}

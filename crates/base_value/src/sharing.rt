ghost use Rattle.std.specs.Prelude.{◌≡◌};
ghost use Rattle.base_value.specs.Principals.{kind_number, principal_id};

use crate::id::Id;
use crate::text::Text;

/// Who a sharing rule, a share or a group names.
#[derive(Clone, Copy, Debug)]
pub enum Principal {
    /// A user.
    User(Id),
    /// The users in a role.
    Role(Id),
    /// The users in a role and in the roles below it.
    Subordinates(Id),
    /// The members of a group's members.
    Group(Id),
}

impl Principal {
    /// The id of the user, role or group that it names.
    pub fn id(&self) -> &Id
        ensures { result.now ≡ principal_id self.now }
    {
        match self {
            Principal::User(id)
            | Principal::Role(id)
            | Principal::Subordinates(id)
            | Principal::Group(id) => id,
        }
    }

    // The place of its kind in the order of kinds.
    pub(crate) fn kind_number(&self) -> u8
        ensures { result ≡ kind_number self.now }
    {
        match self {
            Principal::User(_) => 0,
            Principal::Role(_) => 1,
            Principal::Subordinates(_) => 2,
            Principal::Group(_) => 3,
        }
    }
}

/// The source of a sharing rule: the records that it shares.
#[derive(Debug, PartialEq, Eq, Drop)]
pub enum RuleSource {
    /// Those whose owner is among the users that the principal names.
    Owner(Principal),
    /// Those that meet a condition.
    Criteria(Text),
}

/// What a user may do with a record. Each level includes those before it.
#[derive(Clone, Copy, Debug, PartialEq, Eq, PartialOrd, Ord)]
pub enum Level {
    /// Nothing.
    Nothing,
    /// Read it.
    Read,
    /// Read and edit it.
    Edit,
    /// Also delete and share it, and give it to another owner.
    Full,
}

/// What every user may do with the records of an object.
#[derive(Clone, Copy, Debug, PartialEq, Eq)]
pub enum Access {
    /// Nothing.
    Private,
    /// Read them.
    Read,
    /// Read and edit them.
    ReadWrite,
    /// What the user may do with a record's master.
    ControlledByParent,
}

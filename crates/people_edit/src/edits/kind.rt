//! What differs among new users, roles and groups: where they are counted, and how their ids begin.

ghost use Rattle.std.specs.Prelude.{◌≡◌, ◌<◌, IsTrue};
ghost use Rattle.std.specs.List.{list_all};
ghost use Rattle.std.specs.Str.{chars};
ghost use Rattle.store_rows.specs.Forms.{FitsForm};
ghost use Rattle.store_rows.specs.Rows.{org_form};
ghost use Rattle.model.specs.Limits.{limit_number};
ghost use Rattle.model.specs.declared.limit.Limit.TheVariants as limits;
ghost use Rattle.people_edit.specs.inner.Drawing.{kind_count, kind_limit, kind_member, kind_prefix, one_more};
ghost use Rattle.base_value.specs.Id.{is_digit62};

use model::Limit;
use store_rows::OrgRow;

/// What is new.
#[derive(Clone, Copy, Debug)]
pub(crate) enum Kind {
    /// A user.
    User,
    /// A role.
    Role,
    /// A group.
    Group,
}

impl Kind {
    /// How many there may be.
    pub(crate) fn limit(self) -> Limit
        ensures { result ≡ kind_limit self }
    {
        match self {
            Kind::User => Limit::Users,
            Kind::Role => Limit::Roles,
            Kind::Group => Limit::Groups,
        }
    }

    /// The beginning of its id.
    pub(crate) fn prefix(self) -> [u8; 3]
        ensures same { result ≡ kind_prefix self }
        ensures digits { IsTrue (list_all is_digit62 result) }
    {
        match self {
            Kind::User => *b"005",
            Kind::Role => *b"00E",
            Kind::Group => *b"00G",
        }
    }

    /// The member of a body that names its role: the one that a user has, or the one above a role.
    pub(crate) fn member(self) -> &'static str
        ensures { chars result.now ≡ kind_member self }
    {
        match self {
            Kind::User => "role",
            Kind::Role => "parent",
            Kind::Group => "role",
        }
    }

    /// How many there are, by the organisation's row.
    pub(crate) fn count(self, row: &OrgRow) -> u16
        ensures { result ≡ kind_count self row.now }
    {
        match self {
            Kind::User => row.users,
            Kind::Role => row.roles,
            Kind::Group => row.groups,
        }
    }
}

/// The organisation's row with one more, and one id more.
pub(crate) fn one_more(kind: Kind, row: OrgRow) -> OrgRow
    requires fits { FitsForm org_form row }
    requires few { kind_count kind row < limit_number (kind_limit kind) }
    requires ids { row.counter < limit_number limits.Ids }
    ensures same { result ≡ one_more kind row }
    ensures fits { FitsForm org_form result }
{
    let counter = row.counter + 1;
    match kind {
        Kind::User => OrgRow {
            counter,
            users: row.users + 1,
            ..row
        },
        Kind::Role => OrgRow {
            counter,
            roles: row.roles + 1,
            ..row
        },
        Kind::Group => OrgRow {
            counter,
            groups: row.groups + 1,
            ..row
        },
    }
}

//! The names of members.

ghost use Rattle.std.specs.Prelude.{◌≡◌};
ghost use Rattle.std.specs.Str.{chars};
ghost use Rattle.api_input.specs.inner.Names.{name_of};

/// The members that bodies, and the objects in them, may have.
#[derive(Clone, Copy, Debug)]
pub(crate) enum Name {
    Access,
    Active,
    Admin,
    Child,
    Decimals,
    Digits,
    Field,
    Formula,
    From,
    Hierarchy,
    Indexed,
    Kind,
    Length,
    Level,
    Master,
    Members,
    Message,
    Name,
    Object,
    OnDelete,
    Parent,
    Record,
    Required,
    Role,
    Secret,
    To,
    Type,
    Unique,
    Values,
}

impl Name {
    /// The name as it is written.
    pub(crate) fn text(self) -> &'static str
        ensures { chars result.now ≡ name_of self }
    {
        match self {
            Name::Access => "access",
            Name::Active => "active",
            Name::Admin => "admin",
            Name::Child => "child",
            Name::Decimals => "decimals",
            Name::Digits => "digits",
            Name::Field => "field",
            Name::Formula => "formula",
            Name::From => "from",
            Name::Hierarchy => "hierarchy",
            Name::Indexed => "indexed",
            Name::Kind => "kind",
            Name::Length => "length",
            Name::Level => "level",
            Name::Master => "master",
            Name::Members => "members",
            Name::Message => "message",
            Name::Name => "name",
            Name::Object => "object",
            Name::OnDelete => "onDelete",
            Name::Parent => "parent",
            Name::Record => "record",
            Name::Required => "required",
            Name::Role => "role",
            Name::Secret => "secret",
            Name::To => "to",
            Name::Type => "type",
            Name::Unique => "unique",
            Name::Values => "values",
        }
    }
}

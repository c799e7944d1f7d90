ghost use Rattle.std.specs.Prelude.{◌≡◌};
ghost use Rattle.model.specs.Limits.{limit_name, limit_number};

/// The most bytes of the body of a request.
pub const BODY_LIMIT: usize = 4_194_304;

/// The most bytes of the body of a reply with rows.
pub const REPLY_LIMIT: usize = 16_777_216;

/// The most bytes of an input in CSV.
pub const INPUT_LIMIT: usize = 67_108_864;

/// The most records that one deletion changes.
pub const DELETION_LIMIT: usize = 1000;

/// The most characters of a record's name, of a name of people, and of the message of a validation rule.
pub const NAME_LIMIT: usize = 80;

/// The fewest letters and digits of a secret.
pub const SECRET_LEAST: usize = 16;

/// The most letters and digits of a secret.
pub const SECRET_MOST: usize = 64;

/// The most characters of a stem, as the name of a rule is.
pub const STEM_LIMIT: usize = 40;

/// The most characters of the text of a formula.
pub const FORMULA_LIMIT: usize = 4000;

/// What there may be only so many of.
#[derive(Clone, Copy, Debug, PartialEq, Eq)]
pub enum Limit {
    /// Records of one object.
    RecordsPerObject,
    /// Records of an organisation.
    Records,
    /// Objects of an organisation.
    Objects,
    /// Custom fields of one object.
    FieldsPerObject,
    /// Users of an organisation.
    Users,
    /// Roles of an organisation.
    Roles,
    /// Groups of an organisation.
    Groups,
    /// Members of one group.
    MembersPerGroup,
    /// Sharing rules of an organisation.
    SharingRules,
    /// Validation rules of one object.
    ValidationRulesPerObject,
    /// Manual shares of one record.
    SharesPerRecord,
    /// Numbers that an organisation's ids were made of, and the next one.
    Ids,
    /// Numbers that an organisation's sharing rules have had.
    RuleNumbers,
    /// Masters above one another.
    DetailLevels,
    /// Organisations.
    Organisations,
}

impl Limit {
    /// What is counted, in the words of a message.
    pub fn name(self) -> &'static str
        ensures { result.now ≡ limit_name self }
    {
        match self {
            Limit::RecordsPerObject => "records per object",
            Limit::Records => "records",
            Limit::Objects => "objects",
            Limit::FieldsPerObject => "fields per object",
            Limit::Users => "users",
            Limit::Roles => "roles",
            Limit::Groups => "groups",
            Limit::MembersPerGroup => "members per group",
            Limit::SharingRules => "sharing rules",
            Limit::ValidationRulesPerObject => "validation rules per object",
            Limit::SharesPerRecord => "shares per record",
            Limit::Ids => "ids",
            Limit::RuleNumbers => "rule numbers",
            Limit::DetailLevels => "detail levels",
            Limit::Organisations => "organisations",
        }
    }

    /// How many there may be.
    pub fn number(self) -> u64
        ensures { result ≡ limit_number self }
    {
        match self {
            Limit::RecordsPerObject => 20_000,
            Limit::Records => 50_000,
            Limit::Objects => 100,
            Limit::FieldsPerObject => 40,
            Limit::Users => 2000,
            Limit::Roles => 500,
            Limit::Groups => 500,
            Limit::MembersPerGroup => 500,
            Limit::SharingRules => 300,
            Limit::ValidationRulesPerObject => 50,
            Limit::SharesPerRecord => 100,
            Limit::Ids => 999_999_999_999_999,
            Limit::RuleNumbers => 4_000_000_000,
            Limit::DetailLevels => 3,
            Limit::Organisations => 10_000,
        }
    }
}

ghost use Rattle.std.specs.Prelude.{◌≡◌};
ghost use Rattle.api.specs.inner.Kinds.{made_read};

use base_value::Text;
use model_reads::Read;

/// Which read a line of the table asks for: a [`Read`] without its texts.
#[derive(Debug, Clone, Copy)]
pub enum ReadKind {
    Caller,
    People,
    Versions,
    Resources,
    Limits,
    Objects,
    Object,
    Record,
    RecordBy,
    Shares,
    Users,
    Roles,
    Groups,
    SharingRules,
    ObjectSettings,
    ValidationRules,
}

impl ReadKind {
    /// The read, with the query string of the target and the parts of its path, as many as it takes.
    pub fn read(self, pairs: Text, first: Text, second: Text, third: Text) -> Read
        ensures { result ≡ made_read self pairs first second third }
    {
        match self {
            ReadKind::Caller => Read::Caller,
            ReadKind::People => Read::People,
            ReadKind::Versions => Read::Versions,
            ReadKind::Resources => Read::Resources,
            ReadKind::Limits => Read::Limits,
            ReadKind::Objects => Read::Objects,
            ReadKind::Object => Read::Object { object: first },
            ReadKind::Record => Read::Record {
                object: first,
                key: second,
                pairs,
            },
            ReadKind::RecordBy => Read::RecordBy {
                object: first,
                field: second,
                value: third,
                pairs,
            },
            ReadKind::Shares => Read::Shares { record: first },
            ReadKind::Users => Read::Users,
            ReadKind::Roles => Read::Roles,
            ReadKind::Groups => Read::Groups,
            ReadKind::SharingRules => Read::SharingRules,
            ReadKind::ObjectSettings => Read::ObjectSettings,
            ReadKind::ValidationRules => Read::ValidationRules { object: first },
        }
    }
}

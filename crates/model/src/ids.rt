ghost use Rattle.std.specs.Prelude.{◌≡◌};
ghost use Rattle.model.specs.Organisations.{first_user};
ghost use Rattle.model.specs.World.{org_id, org_prefix};
ghost use Rattle.base_value.specs.Id.{number_in};

use base_value::Id;

// The prefixes of the ids of organisations and of users.
const ORG_PREFIX: [u8; 3] = *b"00D";

const USER_PREFIX: [u8; 3] = *b"005";

/// The id of the organisation with this number.
pub fn org_id(number: u32) -> Id
    ensures { result ≡ org_id number }
{
    Id::new(ORG_PREFIX, u64::from(number))
}

/// The number below 10^15 of the organisation that an id names, if it is the id of one.
pub fn org_number(id: &Id) -> Option<u64>
    ensures { result ≡ number_in org_prefix id.now }
{
    id.number(ORG_PREFIX)
}

/// The id of an organisation's first user.
pub fn first_user_id() -> Id
    ensures { result ≡ first_user }
{
    Id::new(USER_PREFIX, 0)
}

//! The ids of new records.

ghost use Rattle.std.specs.Prelude.{◌≡◌, ◌<◌, ◌≤◌, ◌^◌, IfSome, IsTrue, MatchOption};
ghost use Rattle.std.specs.List.{list_all};
ghost use Rattle.model.specs.Objects.{record_prefix};
ghost use Rattle.base_value.specs.Id.{digit62, is_digit62, made};

use base_value::Id;

// Ids are made of numbers below this.
const END: u64 = 1_000_000_000_000_000;

// A digit of base 62.
fn digit(value: u16) -> u8
    requires { value < 62 }
    ensures digit { result ≡ digit62 value }
    ensures is { IsTrue (is_digit62 result) }
{
    let value = value as u8;
    if value < 10 {
        value + b'0'
    } else if value < 36 {
        value - 10 + b'A'
    } else {
        value - 36 + b'a'
    }
}

// The prefix of the ids of an object's records.
fn record_prefix(object: u16) -> [u8; 3]
    ensures prefix { result ≡ record_prefix object }
    ensures digits { IsTrue (list_all is_digit62 result) }
{
    [b'a', digit(object / 62 % 62), digit(object % 62)]
}

/// The id of an object's record with this number, if it is none past the last number that ids are made of.
pub fn numbered_id(object: u16, number: u64) -> Option<Id>
    ensures made { MatchOption result (10 ^ 15 ≤ number) (λ id. id ≡ made (record_prefix object) number) }
    ensures below { IfSome result (λ _. number < 10 ^ 15) }
{
    if number < END {
        Some(Id::new(record_prefix(object), number))
    } else {
        None
    }
}

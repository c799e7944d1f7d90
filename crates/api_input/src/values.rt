//! The JSON types of members.

ghost use Rattle.std.specs.Prelude.{◌≡◌};
ghost use Rattle.std.specs.Option.{option_copied, option_map};
ghost use Rattle.base_json.specs.declared.tree.Json.{out-Json};
ghost use Rattle.model.specs.Members.{as_text, as_text_or_null, as_truth, as_whole, list_by, object_in};
ghost use Rattle.api_input.specs.inner.Spelled.{body_of};

use base_json::{Json, Member, Num};
use base_value::{Items, Text};

// One, as a count of 10^-8.
const UNIT: u128 = 100_000_000;

pub(crate) fn as_text(json: &Json) -> Option<&Text>
    ensures { option_copied result ≡ as_text json.now }
{
    match json {
        Json::Text(text) => Some(text),
        _ => None,
    }
}

/// A text, or none of null.
pub(crate) fn as_text_or_null(json: &Json) -> Option<Option<&Text>>
    ensures { option_map option_copied result ≡ as_text_or_null json.now }
{
    match json {
        Json::Text(text) => Some(Some(text)),
        Json::Null => Some(None),
        _ => None,
    }
}

pub(crate) fn as_truth(json: &Json) -> Option<bool>
    ensures { result ≡ as_truth json.now }
{
    match json {
        Json::Bool(truth) => Some(*truth),
        _ => None,
    }
}

/// A whole number, however it is written.
pub(crate) fn as_whole(json: &Json) -> Option<u128>
    ensures { result ≡ as_whole json.now }
{
    let Json::Number(Num::Exact(amount)) = json else {
        return None;
    };
    if *amount < 0 {
        return None;
    }
    let size = *amount as u128;
    if size % UNIT == 0 {
        Some(size / UNIT)
    } else {
        None
    }
}

pub(crate) fn as_list(json: &Json) -> Option<&[Json]>
    ensures { option_map (λ items. items.now) result ≡ list_by (out-Json json.now) }
{
    match json {
        Json::List(items) => Some(items.as_slice()),
        _ => None,
    }
}

pub(crate) fn as_object(json: &Json) -> Option<&[Member]>
    ensures { option_map (λ members. body_of members.now) result ≡ object_in json.now }
{
    match json {
        Json::Object(members) => Some(members.as_slice()),
        _ => None,
    }
}

/// The members of a value that is an object.
pub(crate) fn into_members(json: Json) -> Option<Items<Member>>
    ensures { option_map body_of result ≡ object_in json }
{
    match json {
        Json::Object(members) => Some(members),
        _ => None,
    }
}

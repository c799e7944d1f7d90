//! Whether values are valid for types.

ghost use Rattle.std.specs.Prelude.{◌≡◌, IsTrue, MatchResult, false};
ghost use Rattle.std.specs.List.{list_all};
ghost use Rattle.base_value.specs.Texts.{texts_differ};
ghost use Rattle.base_value.specs.Types.{is_choice, is_reference, is_type, suits_indexed, suits_unique};
ghost use Rattle.base_value.specs.Values.{fault, valid};
ghost use Rattle.base_value.specs.declared.value.Value.TheVariants as value;

use crate::count::is_number;
use crate::dates::{is_day, is_moment};
use crate::fail::ValueFail;
use crate::id::Id;
use crate::reading::is_listed;
use crate::text::{Text, character_count};
use crate::value::{FieldType, Value};

fn is_choice(text: &Text) -> bool
    ensures { result ≡ is_choice text.now }
{
    let count = character_count(text.as_str());
    1 <= count && count <= 40
}

fn are_choices(texts: &[Text]) -> bool
    ensures { result ≡ list_all is_choice texts.now }
{
    texts.iter().all(|text| is_choice(text))
}

// Whether no two texts are equal. It takes time by the square of their number.
fn differ(texts: &[Text]) -> bool
    ensures { result ≡ texts_differ texts.now }
{
    match texts.split_first() {
        Some((first, rest)) => !is_listed(rest, first.as_str()) && differ(rest),
        None => true,
    }
}

/// Whether a type is within its bounds: a text of 1 to 255 characters; a number of 1 to 18 digits, of which at most 8
/// and at most all are decimals; 1 to 100 different values of 1 to 40 characters.
pub fn is_type(kind: &FieldType) -> bool
    ensures { result ≡ is_type kind.now }
{
    match kind {
        FieldType::Text(most) => 1 <= *most,
        FieldType::Number { digits, decimals } => {
            1 <= *digits && *digits <= 18 && *decimals <= 8 && *decimals <= *digits
        }
        FieldType::Picklist(values) => {
            let texts = values.as_slice();
            1 <= texts.len() && texts.len() <= 100 && are_choices(texts) && differ(texts)
        }
        _ => true,
    }
}

/// Whether a type is a lookup or a master.
pub fn is_reference(kind: &FieldType) -> bool
    ensures { result ≡ is_reference kind.now }
{
    match kind {
        FieldType::Lookup { .. } | FieldType::Master { .. } => true,
        _ => false,
    }
}

/// Whether a field of this type may be unique: a text or a number.
pub fn suits_unique(kind: &FieldType) -> bool
    ensures { result ≡ suits_unique kind.now }
{
    match kind {
        FieldType::Text(_) | FieldType::Number { .. } => true,
        _ => false,
    }
}

/// Whether a field of this type may be indexed: anything but a truth value or a reference.
pub fn suits_indexed(kind: &FieldType) -> bool
    ensures { result ≡ suits_indexed kind.now }
{
    match kind {
        FieldType::Checkbox => false,
        _ => !is_reference(kind),
    }
}

fn is_checkbox(kind: &FieldType) -> bool
    ensures { result ≡ valid kind.now (value.Bool false) }
{
    match kind {
        FieldType::Checkbox => true,
        _ => false,
    }
}

fn is_valid_text(kind: &FieldType, text: &Text) -> bool
    ensures { result ≡ valid kind.now (value.Text text.now) }
{
    match kind {
        FieldType::Text(most) => {
            let count = character_count(text.as_str());
            1 <= count && count <= usize::from(*most)
        }
        FieldType::Picklist(values) => is_listed(values.as_slice(), text.as_str()),
        _ => false,
    }
}

fn is_valid_number(kind: &FieldType, count: i128) -> bool
    requires { IsTrue (is_type kind.now) }
    ensures { result ≡ valid kind.now (value.Num count) }
{
    match kind {
        FieldType::Number { digits, decimals } => is_number(*digits, *decimals, count),
        _ => false,
    }
}

fn is_valid_day(kind: &FieldType, day: i32) -> bool
    ensures { result ≡ valid kind.now (value.Day day) }
{
    match kind {
        FieldType::Day => is_day(day),
        _ => false,
    }
}

fn is_valid_moment(kind: &FieldType, second: i64) -> bool
    ensures { result ≡ valid kind.now (value.Moment second) }
{
    match kind {
        FieldType::Moment => is_moment(second),
        _ => false,
    }
}

fn is_valid_id(kind: &FieldType, id: &Id) -> bool
    ensures { result ≡ valid kind.now (value.Ref id.now) }
{
    // That these are an id's characters.
    let _ = id.as_bytes();
    match kind {
        FieldType::Lookup { .. } | FieldType::Master { .. } => true,
        _ => false,
    }
}

fn is_valid(kind: &FieldType, value: &Value) -> bool
    requires { IsTrue (is_type kind.now) }
    ensures { result ≡ valid kind.now value.now }
{
    match value {
        Value::Null => !is_checkbox(kind),
        Value::Text(text) => is_valid_text(kind, text),
        Value::Num(count) => is_valid_number(kind, *count),
        Value::Bool(_) => is_checkbox(kind),
        Value::Day(day) => is_valid_day(kind, *day),
        Value::Moment(second) => is_valid_moment(kind, *second),
        Value::Ref(id) => is_valid_id(kind, id),
    }
}

fn fault(kind: &FieldType, value: &Value) -> ValueFail
    ensures { result ≡ fault kind.now value.now }
{
    match (kind, value) {
        (FieldType::Text(most), Value::Text(text)) => {
            if character_count(text.as_str()) > usize::from(*most) {
                ValueFail::TooLong
            } else {
                ValueFail::WrongType
            }
        }
        (FieldType::Number { .. }, Value::Num(_)) => ValueFail::OutOfRange,
        (FieldType::Day, Value::Day(_)) => ValueFail::OutOfRange,
        (FieldType::Moment, Value::Moment(_)) => ValueFail::OutOfRange,
        (FieldType::Picklist(_), Value::Text(_)) => ValueFail::NotListed,
        _ => ValueFail::WrongType,
    }
}

/// Whether a value is valid for a type, which is within its bounds. It takes no memory.
///
/// # Errors
///
/// `TooLong`, `OutOfRange` or `NotListed` where the value is outside the type's bounds, `WrongType` where it is of
/// another kind, or an empty text.
pub fn check_value(kind: &FieldType, value: &Value) -> Result<(), ValueFail>
    requires { IsTrue (is_type kind.now) }
    ensures { MatchResult result (λ _. IsTrue (valid kind.now value.now))
        (λ why. (valid kind.now value.now ≡ false) × (why ≡ fault kind.now value.now)) }
{
    if is_valid(kind, value) {
        Ok(())
    } else {
        Err(fault(kind, value))
    }
}

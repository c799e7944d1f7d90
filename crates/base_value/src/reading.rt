//! Values read from texts.

ghost use Rattle.std.specs.Prelude.{◌≡◌, ◌∷◌, ◌||◌, IfOk, IsTrue, [], bytes_eq};
ghost use Rattle.std.specs.List.{list_any};
ghost use Rattle.std.specs.Str.{chars};
ghost use Rattle.base_value.specs.Causes.{GivesOr};
ghost use Rattle.base_value.specs.Id.{id_in};
ghost use Rattle.base_value.specs.Reading.{as_id, empty_value, read_truth, read_value, read_written};
ghost use Rattle.base_value.specs.Texts.{lower};
ghost use Rattle.base_value.specs.Types.{is_type};
ghost use Rattle.base_value.specs.declared.fail.ValueFail.TheVariants.{Memory};
ghost use Rattle.base_value.specs.declared.value.FieldType.TheVariants as type;

use crate::count::read_number;
use crate::dates::{read_day, read_moment};
use crate::fail::ValueFail;
use crate::id::Id;
use crate::text::{Text, character_count, is_text};
use crate::value::{FieldType, Value};
use sqlite_items::Items;
use std::alloc::{AllocError, Global};

// The characters of a text.
fn characters(alloc: Global, text: &str) -> Result<Vec<char>, AllocError>
    ensures { IfOk result (λ all. all.items ≡ chars text.now) }
{
    text.chars().collect(alloc)
}

/// The value that the empty text reads as in a type: null, and false for `Checkbox`.
pub fn empty_value(kind: &FieldType) -> Value
    ensures { result ≡ empty_value kind.now }
{
    match kind {
        FieldType::Checkbox => Value::Bool(false),
        _ => Value::Null,
    }
}

fn read_text(alloc: Global, most: u8, text: &str) -> Result<Value, ValueFail>
    ensures { GivesOr Memory (read_written (type.Text most) (chars text.now)) result }
{
    if character_count(text) <= usize::from(most) {
        Ok(Value::Text(Text::from_str(alloc, text)?))
    } else {
        Err(ValueFail::TooLong)
    }
}

/// Whether a text is one of these.
pub(crate) fn is_listed(values: &[Text], text: &str) -> bool
    ensures { result ≡ list_any (bytes_eq (chars text.now)) values.now }
{
    values.iter().any(|value| is_text(value, text))
}

fn read_choice(alloc: Global, values: &Items<Text>, text: &str) -> Result<Value, ValueFail>
    ensures { GivesOr Memory (read_written (type.Picklist values.now) (chars text.now)) result }
{
    if is_listed(values.as_slice(), text) {
        Ok(Value::Text(Text::from_str(alloc, text)?))
    } else {
        Err(ValueFail::NotListed)
    }
}

/// The id that a text spells, in 15 characters or in 18, if it spells one.
pub fn id_in(text: &str) -> Option<Id>
    ensures bytes { result ≡ id_in text.now }
    ensures characters { result ≡ id_in (chars text.now) }
{
    match Id::read(text) {
        Ok(id) => {
            // That these are an id's characters.
            let _ = id.as_bytes();
            Some(id)
        }
        Err(_) => None,
    }
}

fn read_id(text: &str) -> Result<Id, ValueFail>
    ensures { result ≡ as_id (id_in (chars text.now)) }
{
    match id_in(text) {
        Some(id) => Ok(id),
        None => Err(ValueFail::NotAnId),
    }
}

const TRUE: [char; 4] = ['t', 'r', 'u', 'e'];

const FALSE: [char; 5] = ['f', 'a', 'l', 's', 'e'];

fn is_word(characters: &[char], lower: &[char], word: &[char], digit: char) -> bool
    ensures { result ≡ (bytes_eq lower.now word.now || bytes_eq characters.now (digit ∷ [])) }
{
    lower == word || characters == [digit].as_slice()
}

#[tactic(auto, unfolding(crate::specs::Reading::read_truth))]
fn read_truth(alloc: Global, characters: &[char]) -> Result<bool, ValueFail>
    ensures { GivesOr Memory (read_truth characters.now) result }
{
    let lower = characters
        .iter()
        .map(|c| c.to_ascii_lowercase())
        .collect::<Vec<char>>(alloc)?;
    if is_word(characters, lower.as_slice(), &TRUE, '1') {
        Ok(true)
    } else if is_word(characters, lower.as_slice(), &FALSE, '0') {
        Ok(false)
    } else {
        Err(ValueFail::WrongType)
    }
}

fn read_written(alloc: Global, kind: &FieldType, text: &str) -> Result<Value, ValueFail>
    requires { IsTrue (is_type kind.now) }
    ensures { GivesOr Memory (read_written kind.now (chars text.now)) result }
{
    match kind {
        FieldType::Text(most) => read_text(alloc, *most, text),
        FieldType::Number { digits, decimals } => {
            let characters = characters(alloc, text)?;
            let count = read_number(*digits, *decimals, characters.as_slice())?;
            Ok(Value::Num(count))
        }
        FieldType::Checkbox => {
            let characters = characters(alloc, text)?;
            let truth = read_truth(alloc, characters.as_slice())?;
            Ok(Value::Bool(truth))
        }
        FieldType::Day => {
            let characters = characters(alloc, text)?;
            let day = read_day(characters.as_slice())?;
            Ok(Value::Day(day))
        }
        FieldType::Moment => {
            let characters = characters(alloc, text)?;
            let second = read_moment(characters.as_slice())?;
            Ok(Value::Moment(second))
        }
        FieldType::Picklist(values) => read_choice(alloc, values, text),
        FieldType::Lookup { .. } | FieldType::Master { .. } => Ok(Value::Ref(read_id(text)?)),
    }
}

/// The value that a text reads as in a type. No blank is trimmed; the empty text is null, and false for `Checkbox`.
///
/// The type is within its bounds.
///
/// # Errors
///
/// `NotAnId`, `WrongType`, `TooLong`, `OutOfRange` or `NotListed` where the text has no value of this type, `Memory`
/// where there is no memory.
pub fn read_value(alloc: Global, kind: &FieldType, text: &str) -> Result<Value, ValueFail>
    requires { IsTrue (is_type kind.now) }
    ensures { GivesOr Memory (read_value kind.now (chars text.now)) result }
{
    if text.is_empty() {
        Ok(empty_value(kind))
    } else {
        read_written(alloc, kind, text)
    }
}

//! Texts of descriptions: prefixes of ids, addresses and names of relationships.

ghost use Rattle.std.specs.Prelude.{◌≡◌, ◌++◌, ◌<◌, IfOk};
ghost use Rattle.std.specs.Str.{chars};
ghost use Rattle.base_value.specs.Id.{digit62};
ghost use Rattle.model.specs.Objects.{record_prefix};
ghost use Rattle.model.specs.Relationships.{parent_name};
ghost use Rattle.model_reads.specs.DescribeJson.{object_url};

use base_value::Text;
use std::alloc::{AllocError, Global};

// A digit of base 62.
fn digit(value: u16) -> char
    requires { value < 62 }
    ensures { result ≡ digit62 value }
{
    let value = value as u8;
    let byte = if value < 10 {
        value + b'0'
    } else if value < 36 {
        value - 10 + b'A'
    } else {
        value - 36 + b'a'
    };
    char::from(byte)
}

// The text of some characters.
fn text_of(alloc: Global, chars: &[char]) -> Result<Text, AllocError>
    ensures { IfOk result (λ text. text ≡ chars.now) }
{
    let mut string = String::new(alloc);
    for c in chars {
        string.push(*c)?;
    }
    Ok(Text::from_string(string))
}

// The characters of a text.
fn characters(alloc: Global, text: &str) -> Result<Vec<char>, AllocError>
    ensures { IfOk result (λ all. all.items ≡ chars text.now) }
{
    text.chars().collect(alloc)
}

/// The prefix of the ids of the records of the object with this number.
pub(crate) fn record_prefix(alloc: Global, object: u16) -> Result<Text, AllocError>
    ensures { IfOk result (λ text. text ≡ record_prefix object) }
{
    let high = digit(object / 62 % 62);
    let low = digit(object % 62);
    let mut prefix = Vec::new(alloc);
    prefix.push('a')?;
    prefix.push(high)?;
    prefix.push(low)?;
    text_of(alloc, prefix.as_slice())
}

/// A text behind another.
pub(crate) fn joined(alloc: Global, first: &str, behind: &str) -> Result<Text, AllocError>
    ensures { IfOk result (λ text. text ≡ chars first.now ++ chars behind.now) }
{
    let mut text = String::from_str(alloc, first)?;
    text.push_str(behind)?;
    Ok(Text::from_string(text))
}

/// The address of the object with this name.
pub(crate) fn object_url(alloc: Global, name: &str) -> Result<Text, AllocError>
    ensures { IfOk result (λ text. text ≡ object_url (chars name.now)) }
{
    joined(alloc, "/services/data/v59.0/sobjects/", name)
}

/// The name of a field's parent relationship: `X__r` of `X__c`.
pub(crate) fn parent_name(alloc: Global, field: &str) -> Result<Text, AllocError>
    ensures { IfOk result (λ name. name ≡ parent_name (chars field.now)) }
{
    let all = characters(alloc, field)?;
    let kept = &all[..all.len().saturating_sub(3)];
    let front = text_of(alloc, kept)?;
    joined(alloc, front.as_str(), "__r")
}

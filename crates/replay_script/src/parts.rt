//! The readers of a member's value, one for each kind, and of an object's members.

ghost use Rattle.std.specs.Prelude.{◌≤◌, IfOk};

use crate::given::push_word;
use crate::line::{Fault, Name};
use crate::list::push;
use base_json::{Json, Member, Num};
use base_value::Bytes;
use hex::FromHexError;
use std::alloc::Global;

// One, as a count of 10^-8.
const UNIT: u128 = 100_000_000;

/// The value of the first member of this name.
pub(crate) fn found<'a>(members: &'a [Member], name: &str) -> Option<&'a Json> {
    for member in members {
        if member.name.as_str() == name {
            return Some(&member.value);
        }
    }
    None
}

// Whether a name is one of these.
fn is_among(name: &str, names: &[Name]) -> bool {
    for known in names {
        if known.text() == name {
            return true;
        }
    }
    false
}

/// Refuses members that aren't of these names, and of which two have one name.
pub(crate) fn check_names<'a>(members: &'a [Member], names: &[Name]) -> Result<(), Fault<'a>> {
    let mut rest = members;
    'members: while let Some((member, more)) = rest.split_first() {
        let name = member.name.as_str();
        if !is_among(name, names) {
            return Err(Fault::Unknown(name));
        }
        if found(more, name).is_some() {
            return Err(Fault::Twice(name));
        }
        rest = more;
    }
    Ok(())
}

/// The members of an object, all of these names and none twice.
pub(crate) fn members_of<'a>(
    json: &'a Json,
    name: Name,
    names: &[Name],
) -> Result<&'a [Member], Fault<'a>> {
    let Json::Object(members) = json else {
        return Err(Fault::Wrong(name));
    };
    let members = members.as_slice();
    check_names(members, names)?;
    Ok(members)
}

/// The member that must be there.
pub(crate) fn needed(members: &[Member], name: Name) -> Result<&Json, Fault<'_>> {
    match found(members, name.text()) {
        Some(json) => Ok(json),
        None => Err(Fault::Missing(name)),
    }
}

/// The items of a list.
pub(crate) fn items(json: &Json, name: Name) -> Result<&[Json], Fault<'_>> {
    match json {
        Json::List(items) => Ok(items.as_slice()),
        _ => Err(Fault::Wrong(name)),
    }
}

/// A text.
pub(crate) fn text(json: &Json, name: Name) -> Result<&str, Fault<'_>> {
    match json {
        Json::Text(text) => Ok(text.as_str()),
        _ => Err(Fault::Wrong(name)),
    }
}

/// Bytes as a text, which stands for its UTF-8, or by their digits.
pub(crate) fn bytes(alloc: Global, json: &Json, name: Name) -> Result<Vec<u8>, Fault<'_>> {
    let spelled = text(json, name)?;
    if !name.is_hex() {
        return Ok(Vec::from_slice(alloc, spelled.as_bytes())?);
    }
    match hex::decode(alloc, spelled) {
        Ok(bytes) => Ok(bytes),
        Err(FromHexError::OutOfMemory) => Err(Fault::Memory),
        Err(_) => Err(Fault::Wrong(name)),
    }
}

/// A whole number from 0 to `most`.
pub(crate) fn number(json: &Json, name: Name, most: u64) -> Result<u64, Fault<'_>>
    ensures small { IfOk result (λ n. n ≤ most) }
{
    let Json::Number(Num::Exact(amount)) = json else {
        return Err(Fault::Wrong(name));
    };
    if *amount < 0 {
        return Err(Fault::Wrong(name));
    }
    let size = *amount as u128;
    if size % UNIT == 0 && size / UNIT <= u128::from(most) {
        Ok((size / UNIT) as u64)
    } else {
        Err(Fault::Wrong(name))
    }
}

/// Adds the words of the member that must be there.
pub(crate) fn words_at<'a>(
    alloc: Global,
    members: &'a [Member],
    name: Name,
    words: &mut Vec<String>,
) -> Result<(), Fault<'a>> {
    for item in items(needed(members, name)?, name)? {
        push_word(alloc, words, text(item, name)?)?;
    }
    Ok(())
}

/// Adds the numbers of the member, if it is there.
pub(crate) fn numbers_at<'a>(
    members: &'a [Member],
    name: Name,
    most: u64,
    numbers: &mut Vec<u64>,
) -> Result<(), Fault<'a>> {
    if let Some(json) = found(members, name.text()) {
        for item in items(json, name)? {
            push(numbers, number(item, name, most)?)?;
        }
    }
    Ok(())
}

// Which of the members with bytes in one of two spellings is there, if one is.
fn one_of(
    members: &[Member],
    plain: Name,
    hexed: Name,
) -> Result<Option<(&Json, Name)>, Fault<'_>> {
    match (found(members, plain.text()), found(members, hexed.text())) {
        (None, None) => Ok(None),
        (Some(json), None) => Ok(Some((json, plain))),
        (None, Some(json)) => Ok(Some((json, hexed))),
        (Some(_), Some(_)) => Err(Fault::Both(hexed)),
    }
}

/// The bytes of the member in one of two spellings, or none.
pub(crate) fn bytes_at(
    alloc: Global,
    members: &[Member],
    plain: Name,
    hexed: Name,
) -> Result<Vec<u8>, Fault<'_>> {
    match one_of(members, plain, hexed)? {
        Some((json, name)) => bytes(alloc, json, name),
        None => Ok(Vec::new(alloc)),
    }
}

/// Adds the bytes of each item of the member in one of two spellings, if it is there.
pub(crate) fn byte_list_at<'a>(
    alloc: Global,
    members: &'a [Member],
    plain: Name,
    hexed: Name,
    list: &mut Vec<Bytes>,
) -> Result<(), Fault<'a>> {
    if let Some((json, name)) = one_of(members, plain, hexed)? {
        for item in items(json, name)? {
            push(list, Bytes::from_vec(bytes(alloc, item, name)?))?;
        }
    }
    Ok(())
}

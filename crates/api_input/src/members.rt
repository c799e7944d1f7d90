//! Members of an object, found by their names.

ghost use Rattle.std.specs.Prelude.{◌≡◌, ◌++◌, ◌&&◌, IfOk, bytes_eq, encode_utf8_all, map, string_bytes};
ghost use Rattle.std.specs.List.{list_all, list_any};
ghost use Rattle.std.specs.Option.{option_copied};
ghost use Rattle.std.specs.Str.{chars};
ghost use Rattle.base_value.specs.Texts.{lower, texts_differ};
ghost use Rattle.model.specs.Members.{entry_named, is_one_of, member_names, says_any};
ghost use Rattle.api_input.specs.inner.Names.{names_of};
ghost use Rattle.api_input.specs.inner.Spelled.{body_of};

use crate::name::Name;
use base_json::{Json, Member};
use base_value::{Text, is_text};
use std::alloc::{AllocError, Global};
use std::collections::BTreeSet;

/// The value of the first member under a name.
pub(crate) fn entry<'a>(members: &'a [Member], name: &str) -> Option<&'a Json>
    ensures { option_copied result ≡ entry_named (body_of members.now) (chars name.now) }
{
    let mut rest = members;
    'members: while let Some((member, more)) = rest.split_first() {
        if is_text(&member.name, name) {
            return Some(&member.value);
        }
        rest = more;
    }
    None
}

// Whether a member has this name.
fn has(members: &[Member], name: &str) -> bool
    ensures { result ≡ is_one_of (member_names (body_of members.now)) (chars name.now) }
{
    let mut rest = members;
    'members: while let Some((member, more)) = rest.split_first() {
        if is_text(&member.name, name) {
            return true;
        }
        rest = more;
    }
    false
}

// Whether no two have the same name.
fn differ(members: &[Member]) -> bool
    ensures { result ≡ texts_differ (member_names (body_of members.now)) }
{
    match members.split_first() {
        Some((first, rest)) => !has(rest, first.name.as_str()) && differ(rest),
        None => true,
    }
}

// Whether a text is one of these names.
fn is_among(names: &[Name], text: &Text) -> bool
    ensures { result ≡ is_one_of (names_of names.now) text.now }
{
    match names.split_first() {
        Some((name, more)) => is_text(text, name.text()) || is_among(more, text),
        None => false,
    }
}

// Whether each has one of these names.
fn are_among(members: &[Member], needed: &[Name], optional: &[Name]) -> bool
    ensures { result ≡ list_all (is_one_of (names_of needed.now ++ names_of optional.now)) (member_names (body_of members.now)) }
{
    let mut rest = members;
    'members: while let Some((member, more)) = rest.split_first() {
        if !is_among(needed, &member.name) && !is_among(optional, &member.name) {
            return false;
        }
        rest = more;
    }
    true
}

// Whether there is a member of each of these names.
fn are_there(members: &[Member], needed: &[Name]) -> bool
    ensures { result ≡ list_all (is_one_of (member_names (body_of members.now))) (names_of needed.now) }
{
    match needed.split_first() {
        Some((name, more)) => has(members, name.text()) && are_there(members, more),
        None => true,
    }
}

/// Whether there is a member.
pub(crate) fn says_any(members: &[Member]) -> bool
    ensures { result ≡ says_any (body_of members.now) }
{
    members.first().is_some()
}

/// Whether no member is there twice, all that are needed are there, and no other but optional ones.
pub(crate) fn are_formed(members: &[Member], needed: &[Name], optional: &[Name]) -> bool
    ensures { result ≡ (texts_differ (member_names (body_of members.now))
        && (list_all (is_one_of (names_of needed.now ++ names_of optional.now)) (member_names (body_of members.now))
        && list_all (is_one_of (member_names (body_of members.now))) (names_of needed.now))) }
{
    // Of known names alone one soon comes again, so that `differ` takes few steps.
    are_among(members, needed, optional) && differ(members) && are_there(members, needed)
}

// A name with its ASCII letters in lower case.
fn lower_name(alloc: Global, name: &Text) -> Result<String, AllocError>
    ensures { IfOk result (λ string. string_bytes string ≡ encode_utf8_all (lower name.now)) }
{
    let mut string = String::new(alloc);
    'characters: for c in name.as_str().chars() {
        string.push(c.to_ascii_lowercase())?;
    }
    Ok(string)
}

/// Whether no two have the same name, whatever the case of its ASCII letters. It takes time n log n, and memory as the names.
///
/// # Errors
///
/// When out of memory.
pub(crate) fn differ_in_any_case(alloc: Global, members: &[Member]) -> Result<bool, AllocError>
    ensures { IfOk result (λ differ. differ ≡ texts_differ (map lower (member_names (body_of members.now)))) }
{
    let mut names = BTreeSet::new(alloc);
    let mut rest = members;
    'members: while let Some((member, more)) = rest.split_first() {
        if !names.insert(lower_name(alloc, &member.name)?)? {
            return Ok(false);
        }
        rest = more;
    }
    Ok(true)
}

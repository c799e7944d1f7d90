//! Single characters, white space and digits.

ghost use Rattle.std.specs.Prelude.{◌≡◌, ◌<◌, ◌≤◌, length, IfOk, IfSome, OnErr, Err, MatchOption, ◌∷◌, [], Some, None};
ghost use Rattle.std.specs.Str.{chars};
ghost use Rattle.base_json.specs.Characters.{is_space, after_spaces, digits_at, after_digits};
ghost use Rattle.base_json.specs.declared.JsonFail.TheVariants.{Memory};
ghost use Rattle.base_json.specs.Reading as spec;
ghost use Rattle.base_json.specs.Outcomes.{Gives, Finds};

use crate::JsonFail;
use base_value::{Items, is_digit};
use std::alloc::Global;

/// The first character, and the rest.
pub fn first(text: &str) -> Option<(char, &str)>
    ensures { MatchOption result (chars text.now ≡ []) (λ p. chars text.now ≡ p.0 ∷ chars p.1.now) }
{
    let mut rest = text.chars();
    match rest.next() {
        Some(c) => Some((c, rest.as_str())),
        None => None,
    }
}

/// The rest, if the first character is this one.
pub fn behind(text: &str, c: char) -> Option<&str>
    ensures value { Finds (λ rest. chars rest.now) result (spec.behind c (chars text.now)) }
    ensures shorter { IfSome result (λ rest. length (chars rest.now) < length (chars text.now)) }
{
    match first(text) {
        Some((x, rest)) => { if x == c { Some(rest) } else { None } }
        None => None,
    }
}

/// The rest after this character, which has to be the first.
pub fn skip(text: &str, c: char) -> Result<&str, JsonFail>
    ensures value { Gives (λ rest. chars rest.now) result (spec.behind c (chars text.now)) }
    ensures shorter { IfOk result (λ rest. length (chars rest.now) < length (chars text.now)) }
{
    match behind(text, c) {
        Some(rest) => Ok(rest),
        None => Err(JsonFail::NotJson),
    }
}

fn is_space(c: char) -> bool
    ensures { result ≡ is_space c }
{
    c == ' ' || c == '\t' || c == '\n' || c == '\r'
}

/// The rest after the white space at the front.
pub fn after_spaces(text: &str) -> &str
    ensures value { chars result.now ≡ after_spaces (chars text.now) }
    ensures shorter { length (chars result.now) ≤ length (chars text.now) }
{
    let mut rest = text;
    'spaces: while let Some((c, tail)) = first(rest) {
        if !is_space(c) {
            break;
        }
        rest = tail;
    }
    rest
}

// The digits at the front, and the rest.
fn digits_at(alloc: Global, text: &str) -> Result<(Items<char>, &str), JsonFail>
    ensures front { IfOk result (λ x. x.0 ≡ digits_at (chars text.now)) }
    ensures back { IfOk result (λ x. chars x.1.now ≡ after_digits (chars text.now)) }
    ensures fail { OnErr result (result ≡ Err Memory) }
{
    let mut front = Items::new(alloc);
    let mut rest = text;
    'digits: while let Some((c, tail)) = first(rest) {
        if !is_digit(c) {
            break;
        }
        front.push(c)?;
        rest = tail;
    }
    Ok((front, rest))
}

/// One digit or more, and the rest.
#[tactic(auto, unfolding(crate::specs::Reading::digits))]
pub fn digits(alloc: Global, text: &str) -> Result<(Items<char>, &str), JsonFail>
    ensures value { Gives (λ x. (x.0, chars x.1.now)) result (spec.digits (chars text.now)) }
    ensures shorter { IfOk result (λ x. length (chars x.1.now) < length (chars text.now)) }
{
    let (front, rest) = digits_at(alloc, text)?;
    if front.is_empty() {
        Err(JsonFail::NotJson)
    } else {
        Ok((front, rest))
    }
}

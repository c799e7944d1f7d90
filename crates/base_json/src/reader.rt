//! Values and whole texts.

ghost use Rattle.std.specs.Prelude.{◌≡◌, ◌<◌, ◌≤◌, length, IfOk, ◌⊎◌, true, false, ◌∷◌, [], Some, None};
ghost use Rattle.std.specs.Str.{chars};
ghost use Rattle.base_json.specs.Grammar.{Spells};
ghost use Rattle.base_json.specs.declared.tree.Json.{Json};
ghost use Rattle.base_json.specs.declared.JsonFail.TheVariants.{Memory};
ghost use Rattle.base_json.specs.Reading as spec;
ghost use Rattle.base_json.specs.Outcomes.{Gives};

use crate::JsonFail;
use crate::amount::amount;
use crate::numeral::literal_at;
use crate::quoted::{content, quoted};
use crate::scan::{after_spaces, behind, first, skip};
use crate::tree::{Json, Member, Num};
use base_value::{Items, is_digit};
use std::alloc::Global;

/// So many lists and objects may be open at once.
const DEPTH: u8 = 32;

#[tactic(auto, unfolding(crate::specs::Reading::numeral))]
fn numeral(alloc: Global, text: &str) -> Result<(Num, &str), JsonFail>
    ensures value { Gives (λ x. (x.0, chars x.1.now)) result (spec.numeral (chars text.now)) }
    ensures shorter { IfOk result (λ x. length (chars x.1.now) < length (chars text.now)) }
{
    let (literal, rest) = literal_at(alloc, text)?;
    Ok((amount(&literal), rest))
}

/// The rest after a word.
#[tactic(auto, unfolding(crate::specs::Reading::after_word))]
fn after_word<'a>(text: &'a str, word: &[char]) -> Result<&'a str, JsonFail>
    ensures value { Gives (λ rest. chars rest.now) result (spec.after_word word.now (chars text.now)) }
    ensures shorter { IfOk result (λ rest. length (chars rest.now) ≤ length (chars text.now)) }
{
    let mut rest = text;
    let mut left = word;
    'letters: while let Some((letter, more)) = left.split_first() {
        rest = skip(rest, *letter)?;
        left = more;
    }
    Ok(rest)
}

/// `null`, `true` or `false`.
#[tactic(auto, unfolding(crate::specs::Reading::named))]
fn named(text: &str) -> Result<(Json, &str), JsonFail>
    ensures value { Gives (λ x. (x.0, chars x.1.now)) result (spec.named (chars text.now)) }
    ensures shorter { IfOk result (λ x. length (chars x.1.now) < length (chars text.now)) }
{
    match first(text) {
        Some((c, rest)) => {
            if c == 'n' {
                Ok((Json::Null, after_word(rest, &['u', 'l', 'l'])?))
            } else if c == 't' {
                Ok((Json::Bool(true), after_word(rest, &['r', 'u', 'e'])?))
            } else if c == 'f' {
                Ok((Json::Bool(false), after_word(rest, &['a', 'l', 's', 'e'])?))
            } else {
                Err(JsonFail::NotJson)
            }
        }
        None => Err(JsonFail::NotJson),
    }
}

/// Whether another item follows: a comma or the end has to be here.
#[tactic(auto, unfolding(crate::specs::Reading::separator))]
fn separator(text: &str, end: char) -> Result<(bool, &str), JsonFail>
    ensures value { Gives (λ x. (x.0, chars x.1.now)) result (spec.separator end (chars text.now)) }
    ensures shorter { IfOk result (λ x. length (chars x.1.now) < length (chars text.now)) }
{
    match first(text) {
        Some((c, rest)) => {
            if c == ',' {
                Ok((true, rest))
            } else if c == end {
                Ok((false, rest))
            } else {
                Err(JsonFail::NotJson)
            }
        }
        None => Err(JsonFail::NotJson),
    }
}

/// A value between white space.
#[cycle(values)]
#[tactic(auto, unfolding(crate::specs::Reading::element))]
fn element(alloc: Global, levels: u8, text: &str) -> Result<(Json, &str), JsonFail>
    ensures value { Gives (λ x. (x.0, chars x.1.now)) result (spec.element (spec.value levels) (chars text.now)) }
    ensures shorter { IfOk result (λ x. length (chars x.1.now) < length (chars text.now)) }
{
    let (value, rest) = value(alloc, levels, after_spaces(text))?;
    Ok((value, after_spaces(rest)))
}

/// An item of a list, and whether another one follows.
#[cycle(values)]
#[tactic(auto, unfolding(crate::specs::Reading::item_turn))]
fn item_turn(alloc: Global, levels: u8, text: &str) -> Result<((Json, bool), &str), JsonFail>
    ensures value { Gives (λ x. (x.0.0 ∷ [], x.0.1, chars x.1.now)) result (spec.item_turn (spec.element (spec.value levels)) 93 (chars text.now)) }
    ensures shorter { IfOk result (λ x. length (chars x.1.now) < length (chars text.now)) }
{
    let (item, rest) = element(alloc, levels, text)?;
    let (more, rest) = separator(rest, ']')?;
    Ok(((item, more), rest))
}

#[cycle(values)]
fn items(alloc: Global, levels: u8, text: &str) -> Result<(Items<Json>, &str), JsonFail>
    ensures value { Gives (λ x. (x.0, chars x.1.now)) result (spec.repeated (spec.item_turn (spec.element (spec.value levels)) 93) (chars text.now)) }
    ensures shorter { IfOk result (λ x. length (chars x.1.now) < length (chars text.now)) }
{
    let mut items = Items::new(alloc);
    let mut rest = text;
    'turns: loop {
        let ((item, more), after) = item_turn(alloc, levels, rest)?;
        items.push(item)?;
        rest = after;
        if !more {
            return Ok((items, rest));
        }
    }
}

/// The items of a list, from after the bracket that opens it, and the rest.
#[cycle(values)]
fn list(alloc: Global, levels: u8, text: &str) -> Result<(Items<Json>, &str), JsonFail>
    ensures value { Gives (λ x. (x.0, chars x.1.now)) result (spec.lists_at levels (chars text.now)) }
    ensures shorter { IfOk result (λ x. length (chars x.1.now) < length (chars text.now)) }
{
    if levels == 0 {
        return Err(JsonFail::NotJson);
    }
    match behind(after_spaces(text), ']') {
        Some(rest) => Ok((Items::new(alloc), rest)),
        None => items(alloc, levels - 1, text),
    }
}

/// A member of an object.
#[cycle(values)]
#[tactic(auto, unfolding(crate::specs::Reading::pair))]
fn pair(alloc: Global, levels: u8, text: &str) -> Result<(Member, &str), JsonFail>
    ensures value { Gives (λ x. (x.0, chars x.1.now)) result (spec.pair (spec.value levels) (chars text.now)) }
    ensures shorter { IfOk result (λ x. length (chars x.1.now) < length (chars text.now)) }
{
    let (name, rest) = quoted(alloc, after_spaces(text))?;
    let rest = skip(after_spaces(rest), ':')?;
    let (value, rest) = element(alloc, levels, rest)?;
    Ok((Member { name, value }, rest))
}

/// A member, and whether another one follows.
#[cycle(values)]
#[tactic(auto, unfolding(crate::specs::Reading::item_turn))]
fn member_turn(alloc: Global, levels: u8, text: &str) -> Result<((Member, bool), &str), JsonFail>
    ensures value { Gives (λ x. (x.0.0 ∷ [], x.0.1, chars x.1.now)) result (spec.item_turn (spec.pair (spec.value levels)) 125 (chars text.now)) }
    ensures shorter { IfOk result (λ x. length (chars x.1.now) < length (chars text.now)) }
{
    let (member, rest) = pair(alloc, levels, text)?;
    let (more, rest) = separator(rest, '}')?;
    Ok(((member, more), rest))
}

#[cycle(values)]
fn members(alloc: Global, levels: u8, text: &str) -> Result<(Items<Member>, &str), JsonFail>
    ensures value { Gives (λ x. (x.0, chars x.1.now)) result (spec.repeated (spec.item_turn (spec.pair (spec.value levels)) 125) (chars text.now)) }
    ensures shorter { IfOk result (λ x. length (chars x.1.now) < length (chars text.now)) }
{
    let mut members = Items::new(alloc);
    let mut rest = text;
    'turns: loop {
        let ((member, more), after) = member_turn(alloc, levels, rest)?;
        members.push(member)?;
        rest = after;
        if !more {
            return Ok((members, rest));
        }
    }
}

/// The members of an object, from after the bracket that opens it, and the rest.
#[cycle(values)]
fn object(alloc: Global, levels: u8, text: &str) -> Result<(Items<Member>, &str), JsonFail>
    ensures value { Gives (λ x. (x.0, chars x.1.now)) result (spec.objects_at levels (chars text.now)) }
    ensures shorter { IfOk result (λ x. length (chars x.1.now) < length (chars text.now)) }
{
    if levels == 0 {
        return Err(JsonFail::NotJson);
    }
    match behind(after_spaces(text), '}') {
        Some(rest) => Ok((Items::new(alloc), rest)),
        None => members(alloc, levels - 1, text),
    }
}

#[cycle(values)]
#[tactic(auto, unfolding(crate::specs::Reading::value_of))]
fn value_here(alloc: Global, levels: u8, text: &str) -> Result<(Json, &str), JsonFail>
    ensures value { Gives (λ x. (x.0, chars x.1.now)) result (spec.value_of (spec.lists_at levels) (spec.objects_at levels) (chars text.now)) }
    ensures shorter { IfOk result (λ x. length (chars x.1.now) < length (chars text.now)) }
{
    match first(text) {
        Some((c, rest)) => {
            if c == '"' {
                let (text, rest) = content(alloc, rest)?;
                Ok((Json::Text(text), rest))
            } else if c == '[' {
                let (items, rest) = list(alloc, levels, rest)?;
                Ok((Json::List(items), rest))
            } else if c == '{' {
                let (members, rest) = object(alloc, levels, rest)?;
                Ok((Json::Object(members), rest))
            } else if c == '-' || is_digit(c) {
                let (number, rest) = numeral(alloc, text)?;
                Ok((Json::Number(number), rest))
            } else {
                named(text)
            }
        }
        None => Err(JsonFail::NotJson),
    }
}

/// The value at the front, inside of which `levels` more lists and objects may be open, and the rest.
#[cycle(values)]
fn value(alloc: Global, levels: u8, text: &str) -> Result<(Json, &str), JsonFail>
    ensures value { Gives (λ x. (x.0, chars x.1.now)) result (spec.value levels (chars text.now)) }
    ensures shorter { IfOk result (λ x. length (chars x.1.now) < length (chars text.now)) }
{
    value_here(alloc, levels, text)
}

#[tactic(auto, unfolding(crate::specs::Reading::text))]
fn text_value(alloc: Global, text: &str) -> Result<Json, JsonFail>
    ensures { Gives (λ v. v) result (spec.text (chars text.now)) }
{
    let (value, rest) = element(alloc, DEPTH, text)?;
    match first(rest) {
        Some(_) => Err(JsonFail::NotJson),
        None => Ok(value),
    }
}

/// The value that bytes are the text of.
///
/// # Errors
///
/// `NotJson` where they spell no value, and `Memory` when out of memory.
pub fn read(alloc: Global, bytes: &[u8]) -> Result<Json, JsonFail>
    // What the characters spell is returned, unless out of memory.
    ensures value { Gives (λ v. v) result (spec.value_in bytes.now) }
    // What is read is spelled so.
    ensures spelled { IfOk result (λ value. Spells bytes.now value) }
    // What is spelled so is read, unless out of memory.
    ensures only { (value : Json) → Spells bytes.now value → (result ≡ Ok value) ⊎ (result ≡ Err Memory) }
{
    match str::from_utf8(bytes) {
        Ok(text) => text_value(alloc, text),
        Err(_) => Err(JsonFail::NotJson),
    }
}

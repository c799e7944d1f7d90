//! Strings and their escapes.

ghost use Rattle.std.specs.Prelude.{◌≡◌, ◌<◌, ◌≤◌, length, IfOk, OnErr, Err, true, false, ◌∷◌, [], Some, None};
ghost use Rattle.std.specs.Str.{chars};
ghost use Rattle.base_json.specs.Characters.{short_escape, code_unit, is_high, is_low, paired};
ghost use Rattle.base_json.specs.declared.JsonFail.TheVariants.{NotJson};
ghost use Rattle.base_json.specs.Reading as spec;
ghost use Rattle.base_json.specs.Outcomes.{Gives};
ghost use Rattle.base_json.specs.Turns.{turn_by, HexDigit};

use crate::JsonFail;
use crate::scan::{first, skip};
use base_value::Text;
use std::alloc::Global;

fn short_escape(letter: char) -> Option<char>
    ensures { result ≡ short_escape letter }
{
    match letter {
        '"' => Some('"'),
        '\\' => Some('\\'),
        '/' => Some('/'),
        'b' => Some('\u{8}'),
        'f' => Some('\u{c}'),
        'n' => Some('\n'),
        'r' => Some('\r'),
        't' => Some('\t'),
        _ => None,
    }
}

fn hex_digit(c: char) -> Result<u32, JsonFail>
    ensures { HexDigit c result }
{
    match c.to_digit(16) {
        Some(digit) => Ok(digit),
        None => Err(JsonFail::NotJson),
    }
}

#[tactic(auto, unfolding(crate::specs::Characters::code_unit))]
fn code_unit(a: char, b: char, c: char, d: char) -> Result<u32, JsonFail>
    ensures value { Gives (λ u. u) result (code_unit a b c d) }
    ensures bound { IfOk result (λ u. u < 65536) }
{
    let a = hex_digit(a)?;
    let b = hex_digit(b)?;
    let c = hex_digit(c)?;
    let d = hex_digit(d)?;
    Ok(a * 4096 + b * 256 + c * 16 + d)
}

// The first character, which there has to be, and the rest.
fn next(text: &str) -> Result<(char, &str), JsonFail>
    ensures some { IfOk result (λ p. chars text.now ≡ p.0 ∷ chars p.1.now) }
    ensures none { OnErr result ((result ≡ Err NotJson) × (chars text.now ≡ [])) }
{
    first(text).ok_or(JsonFail::NotJson)
}

#[tactic(auto, unfolding(crate::specs::Reading::unit_of))]
fn unit_of(text: &str) -> Result<(u32, &str), JsonFail>
    ensures value { Gives (λ x. (x.0, chars x.1.now)) result (spec.unit_of (chars text.now)) }
    ensures bound { IfOk result (λ x. x.0 < 65536) }
    ensures shorter { IfOk result (λ x. length (chars x.1.now) < length (chars text.now)) }
{
    let (a, rest) = next(text)?;
    let (b, rest) = next(rest)?;
    let (c, rest) = next(rest)?;
    let (d, rest) = next(rest)?;
    Ok((code_unit(a, b, c, d)?, rest))
}

#[tactic(auto, unfolding(crate::specs::Reading::second_unit))]
fn second_unit(text: &str) -> Result<(u32, &str), JsonFail>
    ensures value { Gives (λ x. (x.0, chars x.1.now)) result (spec.second_unit (chars text.now)) }
    ensures bound { IfOk result (λ x. x.0 < 65536) }
    ensures shorter { IfOk result (λ x. length (chars x.1.now) < length (chars text.now)) }
{
    let after = skip(text, '\\')?;
    let after = skip(after, 'u')?;
    unit_of(after)
}

fn is_high(unit: u32) -> bool
    ensures { result ≡ is_high unit }
{
    55296 <= unit && unit < 56320
}

fn is_low(unit: u32) -> bool
    ensures { result ≡ is_low unit }
{
    56320 <= unit && unit < 57344
}

/// A code that is a character, as each is that isn't a surrogate.
fn character(code: u32) -> Result<char, JsonFail>
    requires bound { code < 1114112 }
    requires high { is_high code ≡ false }
    requires low { is_low code ≡ false }
    ensures { Gives (λ c. c) result (Some code) }
{
    match char::from_u32(code) {
        Some(c) => Ok(c),
        None => unreachable!(),
    }
}

#[tactic(auto, unfolding(crate::specs::Reading::low_unit))]
fn low_unit(high: u32, text: &str) -> Result<(char, &str), JsonFail>
    requires { is_high high ≡ true }
    ensures value { Gives (λ x. (x.0, chars x.1.now)) result (spec.low_unit high (chars text.now)) }
    ensures shorter { IfOk result (λ x. length (chars x.1.now) < length (chars text.now)) }
{
    let (low, rest) = second_unit(text)?;
    if is_low(low) {
        let code = 65536 + (high - 55296) * 1024 + (low - 56320);
        Ok((character(code)?, rest))
    } else {
        Err(JsonFail::NotJson)
    }
}

fn surrogate(unit: u32, text: &str) -> Result<(char, &str), JsonFail>
    requires { unit < 65536 }
    ensures value { Gives (λ x. (x.0, chars x.1.now)) result (spec.surrogate (unit, chars text.now)) }
    ensures shorter { IfOk result (λ x. length (chars x.1.now) ≤ length (chars text.now)) }
{
    if is_high(unit) {
        low_unit(unit, text)
    } else if is_low(unit) {
        Err(JsonFail::NotJson)
    } else {
        Ok((character(unit)?, text))
    }
}

/// The character that an escape stands for, from after its backslash, and the rest.
#[tactic(auto, unfolding(crate::specs::Reading::escape))]
fn escape(text: &str) -> Result<(char, &str), JsonFail>
    ensures value { Gives (λ x. (x.0, chars x.1.now)) result (spec.escape (chars text.now)) }
    ensures shorter { IfOk result (λ x. length (chars x.1.now) < length (chars text.now)) }
{
    match first(text) {
        Some((letter, after)) => {
            if letter == 'u' {
                let (unit, rest) = unit_of(after)?;
                surrogate(unit, rest)
            } else {
                match short_escape(letter) {
                    Some(c) => Ok((c, after)),
                    None => Err(JsonFail::NotJson),
                }
            }
        }
        None => Err(JsonFail::NotJson),
    }
}

/// The next character of a string, or `None` at its end, and the rest.
#[tactic(auto, unfolding(crate::specs::Reading::character_turn))]
fn character_turn(text: &str) -> Result<(Option<char>, &str), JsonFail>
    ensures value { Gives (λ x. turn_by x.0 (chars x.1.now)) result (spec.character_turn (chars text.now)) }
    ensures shorter { IfOk result (λ x. length (chars x.1.now) < length (chars text.now)) }
{
    match first(text) {
        Some((c, rest)) => {
            if c == '"' {
                Ok((None, rest))
            } else if c == '\\' {
                let (c, rest) = escape(rest)?;
                Ok((Some(c), rest))
            } else if c < ' ' {
                Err(JsonFail::NotJson)
            } else {
                Ok((Some(c), rest))
            }
        }
        None => Err(JsonFail::NotJson),
    }
}

/// The characters up to a quotation mark, and the rest after it.
#[tactic(auto, unfolding(crate::specs::Reading::content))]
pub fn content(alloc: Global, text: &str) -> Result<(Text, &str), JsonFail>
    ensures value { Gives (λ x. (x.0, chars x.1.now)) result (spec.content (chars text.now)) }
    ensures shorter { IfOk result (λ x. length (chars x.1.now) < length (chars text.now)) }
{
    let mut content = String::new(alloc);
    let mut rest = text;
    'turns: loop {
        let (next, after) = character_turn(rest)?;
        rest = after;
        match next {
            Some(c) => content.push(c)?,
            None => return Ok((Text::from_string(content), rest)),
        }
    }
}

/// A string, and the rest.
#[tactic(auto, unfolding(crate::specs::Reading::quoted))]
pub fn quoted(alloc: Global, text: &str) -> Result<(Text, &str), JsonFail>
    ensures value { Gives (λ x. (x.0, chars x.1.now)) result (spec.quoted (chars text.now)) }
    ensures shorter { IfOk result (λ x. length (chars x.1.now) < length (chars text.now)) }
{
    let after = skip(text, '"')?;
    content(alloc, after)
}

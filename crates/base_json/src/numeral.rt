//! Number literals: their parts.

ghost use Rattle.std.specs.Prelude.{◌≡◌, ◌<◌, ◌≤◌, ◌+◌, length, IfOk, ◌∷◌, [], Some, None};
ghost use Rattle.std.specs.Str.{chars};
ghost use Rattle.base_json.specs.Numerals.{has_leading_zero};
ghost use Rattle.base_json.specs.Reading as spec;
ghost use Rattle.base_json.specs.Literals.{parts_of};
ghost use Rattle.base_json.specs.Outcomes.{Gives, Finds};

use crate::JsonFail;
use crate::scan::{behind, digits, first};
use base_value::Items;
use std::alloc::Global;

/// What a number literal is made of.
#[derive(Drop)]
pub struct Literal {
    pub minus: bool,
    pub whole: Items<char>,
    pub fraction: Items<char>,
    /// The exponent has a minus.
    pub down: bool,
    /// The digits of the exponent.
    pub power: Items<char>,
}

#[tactic(auto, unfolding(crate::specs::Reading::minus))]
fn minus(text: &str) -> (bool, &str)
    ensures value { (result.0, chars result.1.now) ≡ spec.minus (chars text.now) }
    ensures shorter { length (chars result.1.now) ≤ length (chars text.now) }
{
    match behind(text, '-') {
        Some(rest) => (true, rest),
        None => (false, text),
    }
}

fn has_leading_zero(digits: &[char]) -> bool
    ensures { result ≡ has_leading_zero digits.now }
{
    match digits {
        [d, _, ..] => *d == '0',
        _ => false,
    }
}

#[tactic(auto, unfolding(crate::specs::Reading::whole))]
fn whole(alloc: Global, text: &str) -> Result<(Items<char>, &str), JsonFail>
    ensures value { Gives (λ x. (x.0, chars x.1.now)) result (spec.whole (chars text.now)) }
    ensures shorter { IfOk result (λ x. length (chars x.1.now) < length (chars text.now)) }
{
    let (front, rest) = digits(alloc, text)?;
    if has_leading_zero(front.as_slice()) {
        Err(JsonFail::NotJson)
    } else {
        Ok((front, rest))
    }
}

#[tactic(auto, unfolding(crate::specs::Reading::fraction))]
fn fraction(alloc: Global, text: &str) -> Result<(Items<char>, &str), JsonFail>
    ensures value { Gives (λ x. (x.0, chars x.1.now)) result (spec.fraction (chars text.now)) }
    ensures shorter { IfOk result (λ x. length (chars x.1.now) ≤ length (chars text.now)) }
{
    match behind(text, '.') {
        Some(after) => digits(alloc, after),
        None => Ok((Items::new(alloc), text)),
    }
}

#[tactic(auto, unfolding(crate::specs::Reading::power_sign))]
fn power_sign(text: &str) -> (bool, &str)
    ensures value { (result.0, chars result.1.now) ≡ spec.power_sign (chars text.now) }
    ensures shorter { length (chars result.1.now) ≤ length (chars text.now) }
{
    match first(text) {
        Some((c, rest)) => {
            if c == '-' {
                (true, rest)
            } else if c == '+' {
                (false, rest)
            } else {
                (false, text)
            }
        }
        None => (false, text),
    }
}

fn power(alloc: Global, text: &str) -> Result<((bool, Items<char>), &str), JsonFail>
    ensures value { Gives (λ x. ((x.0.0, x.0.1), chars x.1.now)) result (spec.power (spec.power_sign (chars text.now))) }
    ensures shorter { IfOk result (λ x. length (chars x.1.now) ≤ length (chars text.now)) }
{
    let (down, rest) = power_sign(text);
    let (front, rest) = digits(alloc, rest)?;
    Ok(((down, front), rest))
}

#[tactic(auto, unfolding(crate::specs::Reading::exponent))]
fn exponent(alloc: Global, text: &str) -> Result<((bool, Items<char>), &str), JsonFail>
    ensures value { Gives (λ x. ((x.0.0, x.0.1), chars x.1.now)) result (spec.exponent (chars text.now)) }
    ensures shorter { IfOk result (λ x. length (chars x.1.now) ≤ length (chars text.now)) }
{
    match first(text) {
        Some((c, rest)) => {
            if c == 'e' || c == 'E' {
                power(alloc, rest)
            } else {
                Ok(((false, Items::new(alloc)), text))
            }
        }
        None => Ok(((false, Items::new(alloc)), text)),
    }
}

/// The parts of the literal at the front, and the rest.
#[tactic(auto, unfolding(crate::specs::Reading::literal))]
pub fn literal_at(alloc: Global, text: &str) -> Result<(Literal, &str), JsonFail>
    ensures value { Gives (λ x. (parts_of x.0, chars x.1.now)) result (spec.literal (chars text.now)) }
    ensures shorter { IfOk result (λ x. length (chars x.1.now) < length (chars text.now)) }
{
    let (minus, rest) = minus(text);
    let (whole, rest) = whole(alloc, rest)?;
    let (fraction, rest) = fraction(alloc, rest)?;
    let ((down, power), rest) = exponent(alloc, rest)?;
    let literal = Literal {
        minus,
        whole,
        fraction,
        down,
        power,
    };
    Ok((literal, rest))
}

//! The exact values of decimal numbers.

ghost use Rattle.std.specs.Prelude.{◌≡◌, ℕ, ◌<◌, ◌≤◌, ◌+◌, ◌*◌, ◌^◌, ◌++◌, length, if◌then◌else◌, MatchOption, IfSome, Some, None};
ghost use Rattle.base_value.specs.Numerals.{digit_of, exact_bound, exactly, of_digits, of_digits_behind};
ghost use Rattle.base_value.specs.inner.Mantissas.{IsMantissa, IsCapped, IsScaled, IsShifted, places_down, places_up, size_by};

use crate::numeral::is_digit;

const EXACT_BOUND: u128 = 100_000_000_000_000_000_000_000_000;

/// From here on one exponent of ten is as good as any other, since no slice has so many digits.
const POWER_CAP: u128 = 73_786_976_294_838_206_464;

/// A number as its digits without the zeros at their end, and how many these are.
#[derive(Clone, Copy)]
struct Mantissa {
    /// `None` where they make a number that is too great.
    kept: Option<u128>,
    zeros: u128,
}

#[tactic(auto, unfolding(crate::specs::Numerals::is_digit))]
fn digit_of(c: char) -> u128
    ensures value { result ≡ digit_of c }
    ensures bound { result < 10 }
{
    if is_digit(c) {
        (c as u32 - '0' as u32) as u128
    } else {
        0
    }
}

/// `n * 10 ^ power`, where that is smaller than the bound.
fn scale(n: u128, power: u128) -> Option<u128>
    requires { n < exact_bound }
    ensures { IsScaled n power result }
{
    if n == 0 {
        return Some(0);
    }
    let mut value = n;
    'places: for _place in 0..power {
        if value >= EXACT_BOUND / 10 {
            return None;
        }
        value *= 10;
    }
    Some(value)
}

fn shift(kept: Option<u128>, power: u128, digit: u128) -> Option<u128>
    requires small { IfSome kept (λ n. n < exact_bound) }
    requires digit { digit < 10 }
    requires power { 0 < power }
    ensures { IsShifted kept power digit result }
{
    match kept {
        Some(n) => match scale(n, power) {
            Some(value) => Some(value + digit),
            None => None,
        },
        None => None,
    }
}

fn with_digit(mantissa: Mantissa, digit: u128) -> Mantissa
    requires digit { digit < 10 }
    requires small { IfSome mantissa.kept (λ n. n < exact_bound) }
    requires zeros { mantissa.zeros < 2 ^ 70 }
    ensures next { (n : ℕ) → IsMantissa mantissa.kept mantissa.zeros n
        → IsMantissa result.kept result.zeros (n * 10 + digit) }
    ensures small { IfSome result.kept (λ n. n < exact_bound) }
    ensures zeros { result.zeros ≤ mantissa.zeros + 1 }
{
    let zeros = mantissa.zeros + 1;
    if digit == 0 {
        return Mantissa {
            kept: mantissa.kept,
            zeros,
        };
    }
    Mantissa {
        kept: shift(mantissa.kept, zeros, digit),
        zeros: 0,
    }
}

fn with_digits(mantissa: Mantissa, digits: &[char]) -> Mantissa
    requires small { IfSome mantissa.kept (λ n. n < exact_bound) }
    requires zeros { mantissa.zeros < 2 ^ 65 }
    ensures all { (n : ℕ) → IsMantissa mantissa.kept mantissa.zeros n
        → IsMantissa result.kept result.zeros (of_digits_behind n digits.now) }
    ensures small { IfSome result.kept (λ n. n < exact_bound) }
    ensures zeros { result.zeros ≤ mantissa.zeros + length digits.now }
{
    let mut now = mantissa;
    'digits: for digit in digits {
        now = with_digit(now, digit_of(*digit));
    }
    now
}

/// The number that digits spell, or any great one in place of a great one.
fn capped_value(digits: &[char]) -> u128
    ensures { IsCapped result (of_digits digits.now) }
{
    let mut value = 0;
    'digits: for digit in digits {
        if value < POWER_CAP {
            value = value * 10 + digit_of(*digit);
        }
    }
    value
}

fn places_up(down: bool, zeros: u128, power: u128) -> u128
    requires zeros { zeros < 2 ^ 65 }
    requires power { power < 2 ^ 70 }
    ensures { result ≡ places_up down zeros power }
{
    if down { zeros + 8 } else { zeros + 8 + power }
}

fn places_down(down: bool, places: u128, power: u128) -> u128
    requires places { places < 2 ^ 64 }
    requires power { power < 2 ^ 70 }
    ensures { result ≡ places_down down places power }
{
    if down { places + power } else { places }
}

fn kept_size(kept: u128, zeros: u128, places: u128, down: bool, power: u128) -> Option<u128>
    requires small { kept < exact_bound }
    requires zeros { zeros < 2 ^ 65 }
    requires places { places < 2 ^ 64 }
    requires power { power < 2 ^ 70 }
    ensures value { (n t : ℕ) → IsMantissa (Some kept) zeros n → IsCapped power t
        → result ≡ size_by n places down t }
    ensures small { IfSome result (λ n. n < exact_bound) }
{
    if kept == 0 {
        return Some(0);
    }
    let up = places_up(down, zeros, power);
    let below = places_down(down, places, power);
    if up < below {
        return None;
    }
    scale(kept, up - below)
}

fn mantissa_size(mantissa: Mantissa, places: u128, down: bool, power: u128) -> Option<u128>
    requires small { IfSome mantissa.kept (λ n. n < exact_bound) }
    requires zeros { mantissa.zeros < 2 ^ 65 }
    requires places { places < 2 ^ 64 }
    requires power { power < 2 ^ 70 }
    ensures value { (n t : ℕ) → IsMantissa mantissa.kept mantissa.zeros n → IsCapped power t
        → result ≡ size_by n places down t }
    ensures small { IfSome result (λ n. n < exact_bound) }
{
    match mantissa.kept {
        Some(kept) => kept_size(kept, mantissa.zeros, places, down, power),
        None => None,
    }
}

/// The count of 10^-8 that digits, a fraction and an exponent spell, where it is one and smaller than 10^26.
///
/// The exponent's digits are `power`; `down` says that it has a minus.
pub fn exact_size(whole: &[char], fraction: &[char], down: bool, power: &[char]) -> Option<u128>
    ensures value { result ≡ exactly (of_digits (whole.now ++ fraction.now)) (length fraction.now)
        (if down then 0 else of_digits power.now) (if down then of_digits power.now else 0) }
    ensures small { IfSome result (λ n. n < exact_bound) }
{
    let start = Mantissa {
        kept: Some(0),
        zeros: 0,
    };
    let before = with_digits(start, whole);
    let mantissa = with_digits(before, fraction);
    mantissa_size(mantissa, fraction.len() as u128, down, capped_value(power))
}

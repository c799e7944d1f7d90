//! Forms of characters: `0` stands for any digit, every other character for itself.

ghost use Rattle.std.specs.Prelude.{◌≡◌, ◌-◌, ◌^◌, ◌<◌, ◌≤◌, length, take, drop, slice_index};
ghost use Rattle.std.specs.List.{prefix_len, list_all, zip};
ghost use Rattle.base_value.specs.Dates as spec;

use crate::numeral::is_digit;

/// The first `count` characters, or all where there are fewer.
pub(crate) fn prefix(chars: &[char], count: usize) -> &[char]
    ensures { result.now ≡ take count chars.now }
{
    chars.split_at(count.min(chars.len())).0
}

/// What follows the first `count` characters.
pub(crate) fn rest(chars: &[char], count: usize) -> &[char]
    ensures { result.now ≡ drop count chars.now }
{
    chars.split_at(count.min(chars.len())).1
}

#[tactic(auto, unfolding(crate::specs::Dates::fits))]
fn fits(form: u8, c: char) -> bool
    ensures { result ≡ spec.fits form c }
{
    if form == b'0' {
        is_digit(c)
    } else {
        char::from(form) == c
    }
}

fn all_fit(form: &[u8], chars: &[char]) -> bool
    ensures { result ≡ list_all (λ pair. spec.fits pair.0 pair.1) (zip form.now chars.now) }
{
    form.iter().zip(chars).all(|(f, c)| fits(*f, *c))
}

/// Whether there are as many characters as the form has, and each fits.
#[tactic(auto, unfolding(crate::specs::Dates::has_form))]
pub(crate) fn has_form(form: &[u8], chars: &[char]) -> bool
    ensures { result ≡ spec.has_form form.now chars.now }
{
    form.len() == chars.len() && all_fit(form, chars)
}

// How far a character is above `0`.
fn digit_at(chars: &[char], at: usize) -> u32
    ensures value { result ≡ slice_index chars.now at - 48 }
    ensures small { result < 2 ^ 21 }
{
    match chars.get(at) {
        Some(c) => (*c as u32).saturating_sub(48),
        None => 0,
    }
}

/// The number that the two digits at this place spell.
#[tactic(auto, unfolding(crate::specs::Dates::two_at))]
pub(crate) fn two_at(chars: &[char], at: usize) -> u32
    requires { at < 2 ^ 63 }
    ensures value { result ≡ spec.two_at chars.now at }
    ensures small { result < 2 ^ 25 }
{
    10 * digit_at(chars, at) + digit_at(chars, at + 1)
}

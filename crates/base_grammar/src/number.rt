//! Numbers that are written.

ghost use Rattle.std.specs.Prelude.{◌≡◌, ◌<◌, ◌≤◌, drop, length, IfSome};
ghost use Rattle.std.specs.List.{prefix_len};
ghost use Rattle.base_grammar.specs.Counts.{number_count};
ghost use Rattle.base_value.specs.Numerals.{exact_bound, is_digit, is_negative, signed, size_of, without_sign};

use base_value::{exact_size, is_digit, is_written_number};

// What follows a sign, or all.
#[tactic(auto, unfolding(base_value::specs::Numerals::without_sign))]
fn without_sign(chars: &[char]) -> &[char]
    ensures { result.now ≡ without_sign chars.now }
{
    match chars.split_first() {
        Some((c, rest)) => { if *c == '+' || *c == '-' { rest } else { chars } }
        None => chars,
    }
}

#[tactic(auto, unfolding(base_value::specs::Numerals::is_negative))]
fn is_negative(chars: &[char]) -> bool
    ensures { result ≡ is_negative chars.now }
{
    match chars.split_first() {
        Some((c, _)) => *c == '-',
        None => false,
    }
}

// How many digits they begin with.
fn digits_len(chars: &[char]) -> usize
    ensures value { result ≡ prefix_len is_digit chars.now }
    ensures within { result ≤ length chars.now }
{
    chars.iter().take_while(|c| is_digit(**c)).count()
}

fn signed(negative: bool, size: u128) -> i128
    requires { size < exact_bound }
    ensures { result ≡ signed negative size }
{
    if negative {
        -(size as i128)
    } else {
        size as i128
    }
}

// What is behind a first character.
fn behind_first(chars: &[char]) -> &[char]
    ensures { result.now ≡ drop 1 chars.now }
{
    match chars.split_first() {
        Some((_, behind)) => behind,
        None => chars,
    }
}

// The size of a number that is written without a sign.
#[tactic(auto, unfolding(base_value::specs::Numerals::size_of))]
fn size_of(digits: &[char]) -> Option<u128>
    ensures value { result ≡ size_of digits.now }
    ensures small { IfSome result (λ n. n < exact_bound) }
{
    let (whole, rest) = digits.split_at(digits_len(digits));
    exact_size(whole, behind_first(rest), false, &[])
}

/// The count of 10^-8 that a number of at most 18 digits before the point and 8 after it spells, if the characters are one.
#[tactic(auto, unfolding(crate::specs::Counts::number_count))]
pub fn number_count(chars: &[char]) -> Option<i128>
    ensures { result ≡ number_count chars.now }
{
    if !is_written_number(chars) {
        return None;
    }
    let size = size_of(without_sign(chars))?;
    Some(signed(is_negative(chars), size))
}

//! Numbers as they are written: their form and their digits.

ghost use Rattle.std.specs.Prelude.{◌≡◌, ◌≤◌, IsTrue, MatchOption, false, true, drop, length};
ghost use Rattle.std.specs.List.{list_all, prefix_len};
ghost use Rattle.base_value.specs.Numerals.{is_digit, is_fraction, is_negative, is_numeral, is_unsigned_numeral, is_written_number, without_sign};
ghost use Rattle.base_value.specs.inner.Splits.{IsSplit};

/// The digits of a number without a sign.
#[derive(Clone, Copy)]
pub(crate) struct Split<'a> {
    /// Those before the point.
    pub whole: &'a [char],
    /// Those after it.
    pub fraction: &'a [char],
}

/// `0` to `9`.
#[tactic(auto, unfolding(crate::specs::Numerals::is_digit))]
pub fn is_digit(c: char) -> bool
    ensures { result ≡ is_digit c }
{
    '0' <= c && c <= '9'
}

/// How many digits the characters begin with.
pub(crate) fn digits_len(chars: &[char]) -> usize
    ensures value { result ≡ prefix_len is_digit chars.now }
    ensures within { result ≤ length chars.now }
{
    chars.iter().take_while(|c| is_digit(**c)).count()
}

fn are_digits(chars: &[char]) -> bool
    ensures { result ≡ list_all is_digit chars.now }
{
    chars.iter().all(|c| is_digit(*c))
}

#[tactic(auto, unfolding(crate::specs::Numerals::without_sign))]
fn without_sign(chars: &[char]) -> &[char]
    ensures { result.now ≡ without_sign chars.now }
{
    match chars.split_first() {
        Some((c, rest)) => { if *c == '+' || *c == '-' { rest } else { chars } }
        None => chars,
    }
}

/// Whether they begin with a `-`.
#[tactic(auto, unfolding(crate::specs::Numerals::is_negative))]
pub(crate) fn is_negative(chars: &[char]) -> bool
    ensures { result ≡ is_negative chars.now }
{
    match chars.split_first() {
        Some((c, _)) => *c == '-',
        None => false,
    }
}

/// The digits after a point, if the characters are a point and digits, or none.
fn fraction_of(chars: &[char]) -> Option<&[char]>
    ensures { MatchOption result (is_fraction chars.now ≡ false)
        (λ f. (is_fraction chars.now ≡ true) × (f.now ≡ drop 1 chars.now)) }
{
    match chars.split_first() {
        Some((c, rest)) => {
            if *c == '.' && are_digits(rest) && !rest.is_empty() {
                Some(rest)
            } else {
                None
            }
        }
        None => Some(chars),
    }
}

#[tactic(auto, unfolding(crate::specs::Numerals::is_unsigned_numeral))]
fn split_unsigned(chars: &[char]) -> Option<Split>
    ensures { MatchOption result (is_unsigned_numeral chars.now ≡ false)
        (λ s. IsSplit s.whole.now s.fraction.now chars.now) }
{
    let (whole, rest) = chars.split_at(digits_len(chars));
    if whole.is_empty() {
        return None;
    }
    match fraction_of(rest) {
        Some(fraction) => Some(Split { whole, fraction }),
        None => None,
    }
}

/// The digits of a number, if it is one.
#[tactic(auto, unfolding(crate::specs::Numerals::is_numeral))]
pub(crate) fn split_numeral(chars: &[char]) -> Option<Split>
    ensures { MatchOption result (is_numeral chars.now ≡ false)
        (λ s. IsSplit s.whole.now s.fraction.now (without_sign chars.now)) }
{
    split_unsigned(without_sign(chars))
}

/// Whether the characters are a number of at most 18 digits before the point and 8 after it.
#[tactic(auto, unfolding(crate::specs::Numerals::is_written_number))]
pub fn is_written_number(chars: &[char]) -> bool
    ensures { result ≡ is_written_number chars.now }
{
    match split_numeral(chars) {
        Some(split) => split.whole.len() <= 18 && split.fraction.len() <= 8,
        None => false,
    }
}

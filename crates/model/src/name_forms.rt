//! The forms of new names, and which names are one.

ghost use Rattle.std.specs.Prelude.{◌≡◌, ◌&&◌, nat_le};
ghost use Rattle.std.specs.Str.{chars};
ghost use Rattle.model.specs.Fields.{same_name};
ghost use Rattle.model.specs.Limits.{name_limit};
ghost use Rattle.model.specs.Names as form;
ghost use Rattle.model.specs.SoundPeople.{is_name};

use crate::limit::{NAME_LIMIT, STEM_LIMIT};
use base_value::character_count;

/// Whether two names are one, whatever the case of their ASCII letters.
pub fn same_name(a: &str, b: &str) -> bool
    ensures { result ≡ same_name (chars a.now) (chars b.now) }
{
    a.eq_ignore_ascii_case(b)
}

// Whether it is letters and digits, and `_` with a letter or a digit behind it.
fn in_stem(bytes: &[u8]) -> bool
    ensures { result ≡ form.in_stem bytes.now }
{
    match bytes.split_first() {
        None => true,
        Some((byte, rest)) => match rest.first() {
            None => byte.is_ascii_alphanumeric(),
            Some(next) => continues_stem(*byte, *next) && in_stem(rest),
        },
    }
}

// Whether the first of two characters can be in a stem.
fn continues_stem(byte: u8, next: u8) -> bool
    ensures { result ≡ form.goes_on byte next }
{
    byte.is_ascii_alphanumeric() || byte == b'_' && next.is_ascii_alphanumeric()
}

// Whether a letter is first.
#[tactic(auto, unfolding(base_grammar::specs::Tokens::is_letter))]
fn begins_with_letter(bytes: &[u8]) -> bool
    ensures { result ≡ form.begins_with_letter bytes.now }
{
    match bytes.first() {
        Some(byte) => byte.is_ascii_alphabetic(),
        None => false,
    }
}

// Whether it is a stem, by its bytes.
#[tactic(auto, unfolding(crate::specs::Names::is_stem))]
fn is_stem_of(bytes: &[u8]) -> bool
    ensures { result ≡ form.is_stem bytes.now }
{
    1 <= bytes.len() && bytes.len() <= STEM_LIMIT && begins_with_letter(bytes) && in_stem(bytes)
}

// Whether it is a stem with this ending of three characters.
fn is_stem_with(ending: &[u8], bytes: &[u8]) -> bool
    ensures { result ≡ form.is_stem_with ending.now bytes.now }
{
    let (stem, rest) = bytes.split_at(bytes.len().saturating_sub(3));
    is_stem_of(stem) && rest == ending
}

// Whether a name may have so many characters.
fn is_name_length(count: usize) -> bool
    ensures { result ≡ (nat_le 1 count && nat_le count name_limit) }
{
    1 <= count && count <= NAME_LIMIT
}

/// Whether it is the name of an organisation or of people, or the message of a validation rule: 1 to 80 characters.
pub fn is_name(name: &str) -> bool
    ensures { result ≡ is_name (chars name.now) }
{
    is_name_length(character_count(name))
}

/// Whether it is a stem, as the name of a rule is: 1 to 40 letters, digits and `_`, a letter first; no two `_` in a row, and
/// none at the end.
pub fn is_stem(name: &str) -> bool
    ensures { result ≡ form.is_stem (chars name.now) }
{
    is_stem_of(name.as_bytes())
}

/// Whether it is the name of an object or of a field: a stem, and `__c`.
pub fn is_custom_name(name: &str) -> bool
    ensures { result ≡ form.is_custom_name (chars name.now) }
{
    is_stem_with(b"__c", name.as_bytes())
}

/// Whether it is the name of a child relationship: a stem, and `__r`.
pub fn is_child_name(name: &str) -> bool
    ensures { result ≡ form.is_child_name (chars name.now) }
{
    is_stem_with(b"__r", name.as_bytes())
}

ghost use Rattle.std.specs.Prelude.{◌≡◌, ◌<◌, ◌≤◌, ◌^◌, ◌↔◌, ◌⊎◌, [], List, ℕ, IsTrue, IfOk, MatchOption, Ok, false, length};
ghost use Rattle.std.specs.List.{list_all};
ghost use Rattle.base_value.specs.Id.{IsTextOf, capitals, digit62, is_capital, is_digit62, is_id, made, print18, suffix, suffix_char};

use std::marker::Model;
use thiserror::Error;

/// An id: three characters of a prefix, and a number in twelve digits of base 62.
#[derive(Clone, Copy, Debug)]
pub struct Id {
    characters: [u8; 15],
}

impl Model for Id {
    ghost use Rattle.std.specs.Prelude.{List, ℕ, IsTrue};
    ghost use Rattle.base_value.specs.Id.{is_id};

    ghost Value = { List ℕ };

    ghost view = { λ id. id.characters };

    ghost inverse = { λ cs. record { characters = cs } };

    ghost invariant = { λ id. IsTrue (is_id id.characters) };
}

/// A text that isn't an id.
#[derive(Clone, Copy, Debug, PartialEq, Eq, Error)]
#[error("not an id")]
pub struct NotAnId;

fn digit(value: u8) -> u8
    requires { value < 62 }
    ensures { result ≡ digit62 value }
{
    if value < 10 {
        value + b'0'
    } else if value < 36 {
        value - 10 + b'A'
    } else {
        value - 36 + b'a'
    }
}

fn is_digit(character: u8) -> bool
    ensures { result ≡ is_digit62 character }
{
    character.is_ascii_alphanumeric()
}

fn are_digits(characters: &[u8]) -> bool
    ensures { result ≡ list_all is_digit62 characters.now }
{
    characters.iter().all(|character| is_digit(*character))
}

// Bit i says whether character i is a capital letter.
fn bits_of(group: &[u8]) -> u8
    requires { length group.now ≤ 5 }
    ensures is { result ≡ capitals group.now }
    ensures small { result < 2 ^ length group.now }
{
    match group.split_first() {
        Some((first, rest)) => u8::from(first.is_ascii_uppercase()) + 2 * bits_of(rest),
        None => 0,
    }
}

fn suffix_character(group: &[u8]) -> u8
    requires { length group.now ≡ 5 }
    ensures { result ≡ suffix_char (capitals group.now) }
{
    let bits = bits_of(group);
    if bits < 26 {
        bits + b'A'
    } else {
        bits - 26 + b'0'
    }
}

// The last three characters of the form of 18.
fn suffix_of(characters: &[u8; 15]) -> [u8; 3]
    ensures { result ≡ suffix characters.now }
{
    [
        suffix_character(&characters[..5]),
        suffix_character(&characters[5..10]),
        suffix_character(&characters[10..]),
    ]
}

impl Id {
    /// The id with a prefix of three digits and a number below 10^15.
    pub fn new(prefix: [u8; 3], number: u64) -> Id
        requires prefix { IsTrue (list_all is_digit62 prefix) }
        requires number { number < 10 ^ 15 }
        ensures { result ≡ made prefix number }
    {
        let mut characters = [b'0'; 15];
        characters[..3].copy_from_slice(&prefix);
        let mut rest = number;
        let mut place = 15;
        while place > 3 {
            place -= 1;
            characters[place] = digit((rest % 62) as u8);
            rest /= 62;
        }
        Id { characters }
    }

    /// The id with these fifteen characters, if they are digits.
    pub fn from_bytes(characters: &[u8]) -> Option<Id>
        ensures { MatchOption result (is_id characters.now ≡ false) (λ id. id ≡ characters.now) }
    {
        if characters.len() != 15 || !are_digits(characters) {
            return None;
        }
        let mut copied = [0; 15];
        copied.copy_from_slice(characters);
        Some(Id { characters: copied })
    }

    /// The id that a text spells in 15 characters, or in 18 whose last three are the right ones.
    ///
    /// # Errors
    ///
    /// Where the text is neither form of any id.
    pub fn read(text: &str) -> Result<Id, NotAnId>
        ensures found { IfOk result (λ id. IsTextOf id text.now) }
        ensures only { (id : List ℕ) → IsTrue (is_id id) → IsTextOf id text.now → result ≡ Ok id }
    {
        let bytes = text.as_bytes();
        if bytes.len() < 15 {
            return Err(NotAnId);
        }
        let (front, rest) = bytes.split_at(15);
        match Id::from_bytes(front) {
            Some(id) => {
                if id.may_end_in(rest) {
                    Ok(id)
                } else {
                    Err(NotAnId)
                }
            }
            None => Err(NotAnId),
        }
    }

    // Whether nothing or the right three characters follow the first fifteen.
    fn may_end_in(&self, rest: &[u8]) -> bool
        ensures { IsTrue result ↔ ((rest.now ≡ []) ⊎ (rest.now ≡ suffix self.now)) }
    {
        rest.is_empty() || rest == suffix_of(&self.characters).as_slice()
    }

    /// The form of 18 characters.
    pub fn print18(&self) -> [u8; 18]
        ensures { result ≡ print18 self.now }
    {
        let mut printed = [0; 18];
        printed[..15].copy_from_slice(&self.characters);
        printed[15..].copy_from_slice(&suffix_of(&self.characters));
        printed
    }

    /// The fifteen characters.
    pub fn as_bytes(&self) -> &[u8]
        ensures characters { result.now ≡ self.now }
        ensures id { IsTrue (is_id self.now) }
    {
        &self.characters
    }
}

ghost use Rattle.std.specs.Prelude.{◌≡◌, ◌<◌, ◌^◌, IsTrue, length};
ghost use Rattle.std.specs.List.{list_all};
ghost use Rattle.base_value.specs.Id.{is_digit62, number62, number_in, value62};

use crate::id::Id;

// Ids are made of numbers below this.
const END: u128 = 1_000_000_000_000_000;

// The digit that a character stands for.
fn digit_value(character: u8) -> u8
    requires { IsTrue (is_digit62 character) }
    ensures small { result < 62 }
    ensures is { result ≡ value62 character }
{
    if character <= b'9' {
        character - b'0'
    } else if character <= b'Z' {
        character - b'A' + 10
    } else {
        character - b'a' + 36
    }
}

// The number that twelve characters spell.
#[tactic(auto, unfolding(crate::specs::Id::number62))]
fn number_of(characters: &[u8]) -> u128
    requires size { length characters.now ≡ 12 }
    requires digits { IsTrue (list_all is_digit62 characters.now) }
    ensures { result ≡ number62 characters.now }
{
    let mut number: u128 = 0;
    let mut place = 0;
    while place < 12 {
        number = number * 62 + u128::from(digit_value(characters[place]));
        place += 1;
    }
    number
}

impl Id {
    /// The number below 10^15 that makes this id with a prefix of three characters, if one does.
    #[tactic(auto, unfolding(crate::specs::Id::number_in))]
    pub fn number(&self, prefix: [u8; 3]) -> Option<u64>
        ensures { result ≡ number_in prefix self.now }
    {
        let (front, rest) = self.as_bytes().split_at(3);
        if front != prefix.as_slice() {
            return None;
        }
        let number = number_of(rest);
        if number < END {
            Some(number as u64)
        } else {
            None
        }
    }
}

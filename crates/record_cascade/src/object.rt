//! The object of a record, by its id, and that of a reference.

ghost use Rattle.std.specs.Prelude.{◌≡◌, ◌<◌, IsTrue};
ghost use Rattle.model.specs.Objects.{object_number};
ghost use Rattle.model.specs.Relationships.{target_of};
ghost use Rattle.base_value.specs.Id.{is_digit62, value62};

use base_value::{FieldType, Id};

// The digit of base 62 that a character stands for.
fn digit_value(character: u8) -> u16
    requires { IsTrue (is_digit62 character) }
    ensures small { result < 62 }
    ensures is { result ≡ value62 character }
{
    let digit = if character <= b'9' {
        character - b'0'
    } else if character <= b'Z' {
        character - b'A' + 10
    } else {
        character - b'a' + 36
    };
    u16::from(digit)
}

/// The number of the object whose records have ids like this: the two digits behind the first character.
pub fn object_number(id: &Id) -> u16
    ensures { result ≡ object_number id.now }
{
    let characters = id.as_bytes();
    digit_value(characters[1]) * 62 + digit_value(characters[2])
}

/// The object to which a type refers.
pub(crate) fn target_of(kind: &FieldType) -> Option<u16>
    ensures { result ≡ target_of kind.now }
{
    match kind {
        FieldType::Lookup { object, .. } | FieldType::Master { object } => Some(*object),
        _ => None,
    }
}

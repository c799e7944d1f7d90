ghost use Rattle.std.specs.Prelude.{◌≡◌, ◌&&◌, nat_le, length};
ghost use Rattle.std.specs.List.{list_all};
ghost use Rattle.model.specs.Organisations.{is_secret};
ghost use Rattle.base_value.specs.Id.{is_digit62};

use model::{SECRET_LEAST, SECRET_MOST};

fn is_within(low: usize, high: usize, count: usize) -> bool
    ensures { result ≡ (nat_le low count && nat_le count high) }
{
    low <= count && count <= high
}

fn are_letters_or_digits(bytes: &[u8]) -> bool
    ensures { result ≡ list_all is_digit62 bytes.now }
{
    bytes.iter().all(|byte| byte.is_ascii_alphanumeric())
}

/// Whether a text is a secret: 16 to 64 ASCII letters and digits.
pub fn is_secret(secret: &str) -> bool
    ensures { result ≡ is_secret secret.now }
{
    let bytes = secret.as_bytes();
    are_letters_or_digits(bytes) && is_within(SECRET_LEAST, SECRET_MOST, bytes.len())
}

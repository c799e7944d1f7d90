//! The texts of numbers.

ghost use Rattle.std.specs.Prelude.{◌≡◌, ◌+◌, ◌<◌, ◌++◌, IfOk, OnOk};
ghost use Rattle.std.specs.String.{string_bytes};
ghost use Rattle.base_value.specs.Printing.{print_fraction, print_number, print_places, print_size, scale};

use std::alloc::{AllocError, Global};

/// The count of 10^-8 in one.
const SCALE: u128 = 100_000_000;

fn digit(value: u32) -> char
    requires { value < 10 }
    ensures { result ≡ 48 + value }
{
    (b'0' + value as u8) as char
}

/// Adds the digits of a fraction in eight places, without the zeros at their end.
fn push_places(text: &mut String, fraction: u128) -> Result<(), AllocError>
    requires { fraction < scale }
    ensures { OnOk result (string_bytes text.new ≡ string_bytes text.old ++ print_places 8 fraction) }
{
    let mut rest = fraction;
    let mut places = 8;
    'places: while rest != 0 {
        places -= 1;
        let unit = 10u128.pow(places);
        text.push(digit((rest / unit) as u32))?;
        rest %= unit;
    }
    Ok(())
}

fn push_fraction(text: &mut String, fraction: u128) -> Result<(), AllocError>
    requires { fraction < scale }
    ensures { OnOk result (string_bytes text.new ≡ string_bytes text.old ++ print_fraction fraction) }
{
    if fraction == 0 {
        return Ok(());
    }
    text.push('.')?;
    push_places(text, fraction)
}

#[tactic(auto, unfolding(crate::specs::Printing::print_size))]
fn push_size(alloc: Global, text: &mut String, size: u128) -> Result<(), AllocError>
    ensures { OnOk result (string_bytes text.new ≡ string_bytes text.old ++ print_size size) }
{
    let whole = (size / SCALE).to_string(alloc)?;
    text.push_str(whole.as_str())?;
    push_fraction(text, size % SCALE)
}

/// The text of a count of 10^-8.
///
/// # Errors
///
/// Where it is out of memory.
pub fn number_text(alloc: Global, count: i128) -> Result<String, AllocError>
    ensures { IfOk result (λ text. string_bytes text ≡ print_number count) }
{
    let mut text = String::new(alloc);
    if count < 0 {
        text.push('-')?;
    }
    push_size(alloc, &mut text, count.unsigned_abs())?;
    Ok(text)
}

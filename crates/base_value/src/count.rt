//! Numbers as counts of 10^-8: those of a type, and the one that a text spells.

ghost use Rattle.std.specs.Prelude.{◌≡◌, ◌<◌, ◌≤◌, ◌^◌, IfSome, IsTrue};
ghost use Rattle.base_value.specs.Numerals.{exact_bound, signed};
ghost use Rattle.base_value.specs.Reading.{in_bounds, of_size, read_number};
ghost use Rattle.base_value.specs.Types.{is_type};
ghost use Rattle.base_value.specs.Values.{is_number};
ghost use Rattle.base_value.specs.declared.value.FieldType.TheVariants as type;

use crate::exact::exact_size;
use crate::fail::ValueFail;
use crate::numeral::{is_negative, split_numeral};

fn signed(negative: bool, size: u128) -> i128
    requires { size < exact_bound }
    ensures { result ≡ signed negative size }
{
    if negative {
        -(size as i128)
    } else {
        size as i128
    }
}

fn power_of_ten(places: u8) -> u128
    requires { places ≤ 26 }
    ensures value { result ≡ 10 ^ places }
    ensures some { 0 < result }
{
    10u128.pow(u32::from(places))
}

/// Whether a count of 10^-8 is a number of at most `digits` digits, at most `decimals` of them after the point.
pub(crate) fn is_number(digits: u8, decimals: u8, count: i128) -> bool
    requires bounds { IsTrue (is_type (type.Number digits decimals)) }
    ensures { result ≡ is_number digits decimals count }
{
    let size = count.unsigned_abs();
    size % power_of_ten(8 - decimals) == 0 && size < power_of_ten(digits - decimals + 8)
}

fn in_bounds(digits: u8, decimals: u8, count: i128) -> Result<i128, ValueFail>
    requires bounds { IsTrue (is_type (type.Number digits decimals)) }
    ensures { result ≡ in_bounds digits decimals count }
{
    if is_number(digits, decimals, count) {
        Ok(count)
    } else {
        Err(ValueFail::OutOfRange)
    }
}

fn of_size(digits: u8, decimals: u8, negative: bool, size: Option<u128>) -> Result<i128, ValueFail>
    requires bounds { IsTrue (is_type (type.Number digits decimals)) }
    requires small { IfSome size (λ n. n < exact_bound) }
    ensures { result ≡ of_size digits decimals negative size }
{
    match size {
        Some(size) => in_bounds(digits, decimals, signed(negative, size)),
        None => Err(ValueFail::OutOfRange),
    }
}

/// The count of 10^-8 that a number of at most `digits` digits spells.
///
/// # Errors
///
/// - [`ValueFail::WrongType`]: the characters aren't a number.
/// - [`ValueFail::OutOfRange`]: they are one that has too many digits or decimals.
pub(crate) fn read_number(digits: u8, decimals: u8, chars: &[char]) -> Result<i128, ValueFail>
    requires bounds { IsTrue (is_type (type.Number digits decimals)) }
    ensures { result ≡ read_number digits decimals chars.now }
{
    match split_numeral(chars) {
        Some(split) => {
            let size = exact_size(split.whole, split.fraction, false, &[]);
            of_size(digits, decimals, is_negative(chars), size)
        }
        None => Err(ValueFail::WrongType),
    }
}

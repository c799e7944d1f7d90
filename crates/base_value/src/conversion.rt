//! Conversion of values between types.

ghost use Rattle.std.specs.Prelude.{◌≡◌, IsTrue, Some, Ok, ok_or};
ghost use Rattle.base_value.specs.Causes.{GivesOr};
ghost use Rattle.base_value.specs.Conversion.{convert, convertible, number_of_truth, truth_of, where_read, where_valid};
ghost use Rattle.base_value.specs.Printing.{is_printable, print_value};
ghost use Rattle.base_value.specs.Reading.{read_value};
ghost use Rattle.base_value.specs.Types.{is_type};
ghost use Rattle.base_value.specs.Values.{valid};
ghost use Rattle.base_value.specs.declared.fail.ConvertFail.TheVariants as fail;
ghost use Rattle.base_value.specs.declared.value.FieldType.TheVariants as type;

use crate::count::is_number;
use crate::date_text::day_of_valid_moment;
use crate::fail::{ConvertFail, ValueFail};
use crate::printing::print_value;
use crate::reading::{empty_value, read_value};
use crate::value::{FieldType, Value};
use std::alloc::Global;

/// Whether values of one type convert to another.
///
/// References convert to and from nothing, numbers not to days and moments, days and moments not to numbers and truth
/// values, truth values not to days and moments. All other types convert.
pub fn convertible(from: &FieldType, to: &FieldType) -> bool
    ensures { result ≡ convertible from.now to.now }
{
    match from {
        FieldType::Lookup { .. } | FieldType::Master { .. } => false,
        FieldType::Text(_) | FieldType::Picklist(_) => match to {
            FieldType::Lookup { .. } | FieldType::Master { .. } => false,
            _ => true,
        },
        FieldType::Number { .. } | FieldType::Checkbox => match to {
            FieldType::Day | FieldType::Moment => false,
            FieldType::Lookup { .. } | FieldType::Master { .. } => false,
            _ => true,
        },
        FieldType::Day | FieldType::Moment => match to {
            FieldType::Number { .. } | FieldType::Checkbox => false,
            FieldType::Lookup { .. } | FieldType::Master { .. } => false,
            _ => true,
        },
    }
}

const ONE: i128 = 100_000_000;

fn truth_of(count: i128) -> Option<Value>
    ensures { result ≡ truth_of count }
{
    if count == ONE {
        Some(Value::Bool(true))
    } else if count == 0 {
        Some(Value::Bool(false))
    } else {
        None
    }
}

fn number_of_truth(digits: u8, decimals: u8, truth: bool) -> Option<Value>
    requires { IsTrue (is_type (type.Number digits decimals)) }
    ensures { result ≡ where_valid (type.Number digits decimals) (number_of_truth truth) }
{
    let count = if truth { ONE } else { 0 };
    if is_number(digits, decimals, count) {
        Some(Value::Num(count))
    } else {
        None
    }
}

// What the printed text of a value reads as in a type.
fn by_text(alloc: Global, to: &FieldType, value: &Value) -> Result<Value, ConvertFail>
    requires kind { IsTrue (is_type to.now) }
    requires text { IsTrue (is_printable value.now) }
    ensures { GivesOr fail.Memory (ok_or (where_read (read_value to.now (print_value value.now))) fail.NotConvertible) result }
{
    let text = print_value(alloc, value)?;
    match read_value(alloc, to, text.as_str()) {
        Ok(value) => Ok(value),
        Err(ValueFail::Memory) => Err(ConvertFail::Memory),
        Err(_) => Err(ConvertFail::NotConvertible),
    }
}

// The value, if there is one.
fn converted(value: Option<Value>) -> Result<Value, ConvertFail>
    ensures { result ≡ ok_or value fail.NotConvertible }
{
    match value {
        Some(value) => Ok(value),
        None => Err(ConvertFail::NotConvertible),
    }
}

/// A value of one type as one of another.
///
/// Both types are within their bounds, the one converts to the other, and the value is valid for the first. Null
/// becomes null, and false in a `Checkbox`; true and false become 1 and 0 and back; a day becomes its first second and
/// a moment its day, in UTC. Every other value becomes what its printed text reads as.
///
/// # Errors
///
/// `NotConvertible` where the new type has no value for it, `Memory` where there is no memory.
pub fn convert(
    alloc: Global,
    from: &FieldType,
    to: &FieldType,
    value: &Value,
) -> Result<Value, ConvertFail>
    requires from { IsTrue (is_type from.now) }
    requires to { IsTrue (is_type to.now) }
    requires convertible { IsTrue (convertible from.now to.now) }
    requires valid { IsTrue (valid from.now value.now) }
    ensures { GivesOr fail.Memory (ok_or (convert to.now value.now) fail.NotConvertible) result }
{
    match (value, to) {
        (Value::Null, _) => Ok(empty_value(to)),
        (Value::Bool(truth), FieldType::Number { digits, decimals }) => {
            converted(number_of_truth(*digits, *decimals, *truth))
        }
        (Value::Num(count), FieldType::Checkbox) => converted(truth_of(*count)),
        (Value::Day(day), FieldType::Moment) => Ok(Value::Moment(i64::from(*day) * 86_400)),
        (Value::Moment(second), FieldType::Day) => Ok(Value::Day(day_of_valid_moment(*second))),
        _ => by_text(alloc, to, value),
    }
}

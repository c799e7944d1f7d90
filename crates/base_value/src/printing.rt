//! The printed texts of values.

ghost use Rattle.std.specs.Prelude.{◌≡◌, IfOk, IsTrue};
ghost use Rattle.std.specs.Str.{IsAscii, IsUtf8, chars};
ghost use Rattle.base_value.specs.Id.{print18};
ghost use Rattle.base_value.specs.Printing.{is_printable, print_value};
ghost use Rattle.std.specs.String.{string_bytes};
ghost use Rattle.base_value.specs.declared.value.Value.TheVariants as value;

use crate::date_text::{day_text, moment_text};
use crate::decimal::number_text;
use crate::id::Id;
use crate::text::Text;
use crate::value::Value;
use std::alloc::{AllocError, Global};
use std::str::from_utf8;

fn text_of(alloc: Global, bytes: &[u8]) -> Result<Text, AllocError>
    requires { IsUtf8 bytes.now }
    ensures { IfOk result (λ text. text ≡ chars bytes.now) }
{
    Text::from_str(alloc, from_utf8(bytes).unwrap())
}

fn id_text(alloc: Global, id: &Id) -> Result<Text, AllocError>
    ensures { IfOk result (λ text. text ≡ print18 id.now) }
{
    // That these are an id's characters.
    let _ = id.as_bytes();
    let printed = id.print18();
    text_of(alloc, printed.as_slice())
}

fn ascii_text(string: String) -> Text
    requires { IsAscii (string_bytes string) }
    ensures { result ≡ string_bytes string }
{
    Text::from_string(string)
}

fn truth_text(alloc: Global, truth: bool) -> Result<Text, AllocError>
    ensures { IfOk result (λ text. text ≡ print_value (value.Bool truth)) }
{
    if truth {
        Ok(ascii_text(String::from_str(alloc, "true")?))
    } else {
        Ok(ascii_text(String::from_str(alloc, "false")?))
    }
}

/// The text of a value. A day or a moment is one of the years 0001 to 9999.
///
/// # Errors
///
/// Where there is no memory.
pub fn print_value(alloc: Global, value: &Value) -> Result<Text, AllocError>
    requires { IsTrue (is_printable value.now) }
    ensures { IfOk result (λ text. text ≡ print_value value.now) }
{
    match value {
        Value::Null => Ok(ascii_text(String::new(alloc))),
        Value::Text(text) => Text::from_str(alloc, text.as_str()),
        Value::Num(count) => Ok(ascii_text(number_text(alloc, *count)?)),
        Value::Bool(truth) => truth_text(alloc, *truth),
        Value::Day(day) => Ok(ascii_text(day_text(alloc, *day)?)),
        Value::Moment(second) => Ok(ascii_text(moment_text(alloc, *second)?)),
        Value::Ref(id) => id_text(alloc, id),
    }
}

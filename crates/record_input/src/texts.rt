//! Values read from texts, and why what was read is refused.

ghost use Rattle.std.specs.Prelude.{◌≡◌, IfOk, IsTrue, Ok};
ghost use Rattle.std.specs.Str.{chars};
ghost use Rattle.record_input.specs.inner.Read.{Reads};
ghost use Rattle.model.specs.Fields.{of_type};
ghost use Rattle.model.specs.Given as spec;
ghost use Rattle.model.specs.Given.{or_refusal, value_refusal};
ghost use Rattle.model.specs.declared.refusal.Refusal.TheVariants as refusal;
ghost use Rattle.base_value.specs.Causes.{GivesOr};
ghost use Rattle.base_value.specs.Reading.{Read};
ghost use Rattle.base_value.specs.declared.fail.ValueFail.TheVariants.{Memory};
ghost use Rattle.base_value.specs.Types.{is_type};
ghost use Rattle.base_value.specs.Values.{valid};

use crate::unread::Unread;
use base_value::{FieldType, Text, Value, ValueFail, read_value, value_laws};
use model::Refusal;
use std::alloc::{AllocError, Global};

/// The value of a text.
pub(crate) fn read_text(alloc: Global, kind: &FieldType, text: &str) -> Result<Value, ValueFail>
    requires { IsTrue (is_type kind.now) }
    ensures value { GivesOr Memory (spec.read_text (of_type kind.now) (chars text.now)) result }
    ensures valid { IfOk result (λ value. IsTrue (valid kind.now value)) }
{
    value_laws();
    read_value(alloc, kind, text)
}

/// That what was given is of another type than the field with this name.
pub(crate) fn wrong_type(alloc: Global, name: &str) -> Result<Refusal, AllocError>
    ensures { IfOk result (λ r. r ≡ refusal.WrongType (chars name.now)) }
{
    let field = Text::from_str(alloc, name)?;
    Ok(Refusal::WrongType { field })
}

// The most characters of a text.
fn most_of(kind: &FieldType) -> u8
    ensures { result ≡ spec.most_of (of_type kind.now) }
{
    match kind {
        FieldType::Text(most) => *most,
        _ => 0,
    }
}

// Why what was read of this text is refused, under the name of its field.
fn value_refusal(
    alloc: Global,
    name: &str,
    kind: &FieldType,
    text: &str,
    fail: ValueFail,
) -> Result<Refusal, AllocError>
    ensures { IfOk result (λ refusal. refusal ≡ value_refusal (chars name.now) (of_type kind.now) (chars text.now) fail) }
{
    let field = Text::from_str(alloc, name)?;
    match fail {
        ValueFail::WrongType | ValueFail::Memory => Ok(Refusal::WrongType { field }),
        ValueFail::TooLong => Ok(Refusal::TooLong {
            field,
            most: most_of(kind),
        }),
        ValueFail::OutOfRange => Ok(Refusal::OutOfRange { field }),
        ValueFail::NotListed => Ok(Refusal::NotListed { field }),
        ValueFail::NotAnId => {
            let text = Text::from_str(alloc, text)?;
            Ok(Refusal::MalformedId { text })
        }
    }
}

/// What was read of this text for a field with this name and type, or its refusal.
pub(crate) fn or_refusal(
    alloc: Global,
    name: &str,
    kind: &FieldType,
    text: &str,
    read: Result<Value, ValueFail>,
) -> Result<Value, Unread>
    ensures value { (defined : Read) → GivesOr Memory defined read
        → Reads (or_refusal (chars name.now) (of_type kind.now) (chars text.now) defined) result }
    ensures same { IfOk result (λ value. read ≡ Ok value) }
{
    match read {
        Ok(value) => Ok(value),
        Err(ValueFail::Memory) => Err(Unread::Memory),
        Err(fail) => Err(Unread::Refused(value_refusal(alloc, name, kind, text, fail)?)),
    }
}

//! Values read from JSON.

ghost use Rattle.std.specs.Prelude.{◌≡◌, [], IsTrue, Ok};
ghost use Rattle.std.specs.Str.{chars};
ghost use Rattle.record_input.specs.inner.Read.{Reads};
ghost use Rattle.model.specs.Fields.{of_type};
ghost use Rattle.model.specs.Given as spec;
ghost use Rattle.model.specs.Given.{json_text, or_refusal, read_json, read_json_number, read_json_truth};
ghost use Rattle.base_value.specs.Causes.{GivesOr};
ghost use Rattle.base_value.specs.declared.fail.ValueFail.TheVariants.{Memory};
ghost use Rattle.base_value.specs.Types.{is_type};

use crate::texts::{or_refusal, read_text};
use crate::unread::Unread;
use base_json::{Json, Num};
use base_value::{FieldType, Value, ValueFail, check_value, empty_value};
use std::alloc::Global;

// The value of a number, which suits Number alone.
fn read_number(kind: &FieldType, number: Num) -> Result<Value, ValueFail>
    requires { IsTrue (is_type kind.now) }
    ensures { result ≡ read_json_number (of_type kind.now) number }
{
    match (kind, number) {
        (FieldType::Number { .. }, Num::Exact(count)) => {
            let value = Value::Num(count);
            if check_value(kind, &value).is_ok() {
                Ok(value)
            } else {
                Err(ValueFail::OutOfRange)
            }
        }
        (FieldType::Number { .. }, Num::Beyond) => Err(ValueFail::OutOfRange),
        _ => Err(ValueFail::WrongType),
    }
}

// The value of a truth value, which suits Checkbox alone.
fn read_truth(kind: &FieldType, truth: bool) -> Result<Value, ValueFail>
    ensures { result ≡ read_json_truth (of_type kind.now) truth }
{
    match kind {
        FieldType::Checkbox => Ok(Value::Bool(truth)),
        _ => Err(ValueFail::WrongType),
    }
}

// The value of null, which reads as the empty text.
fn read_null(kind: &FieldType) -> Value
    ensures { spec.read_text (of_type kind.now) [] ≡ Ok result }
{
    empty_value(kind)
}

// The value of JSON in a field of this type.
fn read_json(alloc: Global, kind: &FieldType, json: &Json) -> Result<Value, ValueFail>
    requires { IsTrue (is_type kind.now) }
    ensures { GivesOr Memory (read_json (of_type kind.now) json.now) result }
{
    match json {
        Json::Text(text) => read_text(alloc, kind, text.as_str()),
        Json::Null => Ok(read_null(kind)),
        Json::Number(number) => read_number(kind, *number),
        Json::Bool(truth) => read_truth(kind, *truth),
        Json::List(_) | Json::Object(_) => Err(ValueFail::WrongType),
    }
}

// The text in JSON, if it is one.
fn text_of(json: &Json) -> &str
    ensures { chars result.now ≡ json_text json.now }
{
    match json {
        Json::Text(text) => text.as_str(),
        Json::Null => "",
        Json::Bool(_) => "",
        Json::Number(_) => "",
        Json::List(_) => "",
        Json::Object(_) => "",
    }
}

/// The value of JSON in a field with this name and type, or its refusal.
pub(crate) fn value_in_json(
    alloc: Global,
    name: &str,
    kind: &FieldType,
    json: &Json,
) -> Result<Value, Unread>
    requires { IsTrue (is_type kind.now) }
    ensures { Reads (or_refusal (chars name.now) (of_type kind.now) (json_text json.now) (read_json (of_type kind.now) json.now)) result }
{
    let read = read_json(alloc, kind, json);
    or_refusal(alloc, name, kind, text_of(json), read)
}

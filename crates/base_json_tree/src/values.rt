//! Numbers, texts and ids as values.

ghost use Rattle.std.specs.Prelude.{◌≡◌, IfOk};
ghost use Rattle.std.specs.Str.{chars};
ghost use Rattle.base_json_tree.specs.Words.{id_text, number, or_null, text, texts};

use base_json::{Json, Num};
use base_value::{Id, Items, Text, Value, print_value};
use std::alloc::{AllocError, Global};

// One, as a count of 10^-8.
const UNIT: i128 = 100_000_000;

/// A whole number.
pub fn number_json(n: u64) -> Json
    ensures { result ≡ number n }
{
    Json::Number(Num::Exact(n as i128 * UNIT))
}

/// A text.
///
/// # Errors
///
/// When out of memory, as in each of these calls.
pub fn text_json(alloc: Global, characters: &str) -> Result<Json, AllocError>
    ensures { IfOk result (λ v. v ≡ text (chars characters.now)) }
{
    let text = Text::from_str(alloc, characters)?;
    Ok(Json::Text(text))
}

/// An id, in 18 characters.
pub fn id_json(alloc: Global, id: &Id) -> Result<Json, AllocError>
    ensures { IfOk result (λ v. v ≡ id_text id.now) }
{
    let text = print_value(alloc, &Value::Ref(*id))?;
    Ok(Json::Text(text))
}

/// An id, or null where there is none.
pub fn or_null_id(alloc: Global, id: &Option<Id>) -> Result<Json, AllocError>
    ensures { IfOk result (λ v. v ≡ or_null id_text id.now) }
{
    match id {
        Some(id) => id_json(alloc, id),
        None => Ok(Json::Null),
    }
}

/// A text, or null where there is none.
pub fn or_null_text(alloc: Global, characters: &Option<Text>) -> Result<Json, AllocError>
    ensures { IfOk result (λ v. v ≡ or_null text characters.now) }
{
    match characters {
        Some(text) => text_json(alloc, text.as_str()),
        None => Ok(Json::Null),
    }
}

/// Texts, in their order.
pub fn texts_json(alloc: Global, items: &[Text]) -> Result<Json, AllocError>
    ensures { IfOk result (λ v. v ≡ texts items.now) }
{
    let mut told = Items::new(alloc);
    for item in items {
        told.push(text_json(alloc, item.as_str())?)?;
    }
    Ok(Json::List(told))
}

//! Bodies of creates and updates, and what each gives to which fields.

use api_input::field_values;
use base_json::{Json, Member, Num};
use base_value::number_text;
use model::{Assignment, Given};
use std::alloc::{AllocError, Global};

fn push_number(alloc: Global, out: &mut String, number: &Num) -> Result<(), AllocError> {
    match number {
        Num::Exact(count) => out.push_str(number_text(alloc, *count)?.as_str()),
        Num::Beyond => out.push_str("beyond"),
    }
}

fn push_quoted(out: &mut String, text: &str) -> Result<(), AllocError> {
    out.push_str("\"")?;
    out.push_str(text)?;
    out.push_str("\"")
}

// A value; of a list or an object only that it is one.
fn push_single(alloc: Global, out: &mut String, value: &Json) -> Result<(), AllocError> {
    match value {
        Json::Null => out.push_str("null"),
        Json::Bool(true) => out.push_str("true"),
        Json::Bool(false) => out.push_str("false"),
        Json::Number(number) => push_number(alloc, out, number),
        Json::Text(text) => push_quoted(out, text.as_str()),
        Json::List(_) => out.push_str("[..]"),
        Json::Object(_) => out.push_str("{..}"),
    }
}

// A blank before each but the first.
fn push_gap(out: &mut String, at: usize) -> Result<(), AllocError> {
    if at > 0 { out.push_str(" ") } else { Ok(()) }
}

fn push_list(alloc: Global, out: &mut String, items: &[Json]) -> Result<(), AllocError> {
    out.push_str("[")?;
    for (at, item) in items.iter().enumerate() {
        push_gap(out, at)?;
        push_single(alloc, out, item)?;
    }
    out.push_str("]")
}

fn push_object(alloc: Global, out: &mut String, members: &[Member]) -> Result<(), AllocError> {
    out.push_str("{")?;
    for (at, member) in members.iter().enumerate() {
        push_gap(out, at)?;
        out.push_str(member.name.as_str())?;
        out.push_str("=")?;
        push_single(alloc, out, &member.value)?;
    }
    out.push_str("}")
}

fn push_given(alloc: Global, out: &mut String, given: &Given) -> Result<(), AllocError> {
    match given {
        Given::Json(Json::List(items)) => push_list(alloc, out, items.as_slice()),
        Given::Json(Json::Object(members)) => push_object(alloc, out, members.as_slice()),
        Given::Json(value) => push_single(alloc, out, value),
        Given::Read(_) | Given::Find { .. } => out.push_str("no JSON"),
    }
}

fn shown(alloc: Global, values: &[Assignment]) -> Result<String, AllocError> {
    if values.is_empty() {
        return String::from_str(alloc, "nothing");
    }
    let mut out = String::new(alloc);
    for (at, value) in values.iter().enumerate() {
        push_gap(&mut out, at)?;
        out.push_str(value.field.as_str())?;
        out.push_str("=")?;
        push_given(alloc, &mut out, &value.given)?;
    }
    Ok(out)
}

/// What a body gives to fields: each name, `=` and the value, with the elements of a list or an object that aren't themselves one.
pub(crate) fn values(alloc: Global, body: &[u8]) -> Result<String, AllocError> {
    match field_values(alloc, body)? {
        Some(values) => shown(alloc, values.as_slice()),
        None => String::from_str(alloc, "none"),
    }
}

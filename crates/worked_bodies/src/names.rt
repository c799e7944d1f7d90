//! Bodies of rows with ids and names, and of what was made.

use crate::line::first_of;
use crate::refusals::text_of;
use api_output::{RowFront, made_body, rows_body, upserted_body, write_row_end, write_shown};
use base_json::Writer;
use base_value::{Id, Text, Value};
use std::alloc::{AllocError, Global};

// A row with an id of this number: a number alone has no name, otherwise `/` and the name is behind it.
fn push_row(
    alloc: Global,
    front: &RowFront,
    argument: &str,
    rows: &mut Vec<u8>,
) -> Result<(), AllocError> {
    let (number, name) = match argument.split_once('/') {
        Some((number, name)) => (number, Value::Text(Text::from_str(alloc, name)?)),
        None => (argument, Value::Null),
    };
    let id = Id::new(*b"a00", u64::from(number.parse::<u32>().unwrap_or(0)));
    let mut members = Writer::new(alloc);
    write_shown(alloc, &mut members, "Id", &Value::Ref(id))?;
    write_shown(alloc, &mut members, "Name", &name)?;
    write_row_end(alloc, &mut members)?;
    front.put(&id, rows)?;
    rows.extend_from_slice(members.finish().as_slice())
}

/// The body of a query's reply: the object, and a row for each argument behind it.
pub(crate) fn body(alloc: Global, arguments: &str) -> Result<String, AllocError> {
    let (object, rest) = first_of(arguments);
    let front = RowFront::new(alloc, object)?;
    let mut rows = Vec::new(alloc);
    let mut count: usize = 0;
    if !rest.is_empty() {
        for argument in rest.split('|') {
            push_row(alloc, &front, argument, &mut rows)?;
            count = count.saturating_add(1);
        }
    }
    text_of(alloc, &rows_body(alloc, count, rows.as_slice())?)
}

/// The body of the reply to what made a record with this id, in 15 or 18 characters.
pub(crate) fn made(alloc: Global, id: &str) -> Result<String, AllocError> {
    match Id::read(id) {
        Ok(id) => text_of(alloc, &made_body(alloc, &id)?),
        Err(_) => String::from_str(alloc, "no id"),
    }
}

/// The body of the reply to an upsert of the record with this id, in 15 or 18 characters, which is new if `new` is behind it.
pub(crate) fn upserted(alloc: Global, arguments: &str) -> Result<String, AllocError> {
    let (id, created) = first_of(arguments);
    match Id::read(id) {
        Ok(id) => text_of(alloc, &upserted_body(alloc, &id, created == "new")?),
        Err(_) => String::from_str(alloc, "no id"),
    }
}

//! Rows of the keeper: changes of them, and the line of rows that makes these.

use crate::list::push;
use crate::output::Output;
use base_value::Bytes;
use std::alloc::{AllocError, Global};
use store_kv::{Batch, Change};

// The change that sets a row, or removes it where there is none.
fn change_of(table: u8, key: Vec<u8>, row: Option<Vec<u8>>) -> Change {
    let key = Bytes::from_vec(key);
    match row {
        Some(row) => Change::Put {
            table,
            key,
            row: Bytes::from_vec(row),
        },
        None => Change::Remove { table, key },
    }
}

/// A batch that sets a row, or removes it where there is none.
///
/// # Errors
///
/// If out of memory.
pub(crate) fn batch_of(
    alloc: Global,
    table: u8,
    key: Vec<u8>,
    row: Option<Vec<u8>>,
) -> Result<Batch, AllocError> {
    let mut changes = Vec::new(alloc);
    push(&mut changes, change_of(table, key, row))?;
    Ok(Batch { changes })
}

// The object of one row: its table, its key, and the row itself or null.
fn push_row(out: &mut Output, table: u8, key: &Bytes, row: Option<&Bytes>) {
    out.push("{\"table\":");
    out.push_number(u64::from(table));
    out.push(",\"key\":\"");
    out.push_digits(key.as_slice());
    match row {
        Some(row) => {
            out.push("\",\"row\":\"");
            out.push_digits(row.as_slice());
            out.push("\"}");
        }
        None => out.push("\",\"row\":null}"),
    }
}

/// Appends the line of rows that makes these changes.
pub(crate) fn push_rows(out: &mut Output, changes: &[Change]) {
    out.push("{\"rows\":[");
    for (at, change) in changes.iter().enumerate() {
        if at > 0 {
            out.push(",");
        }
        match change {
            Change::Put { table, key, row } => push_row(out, *table, key, Some(row)),
            Change::Remove { table, key } => push_row(out, *table, key, None),
        }
    }
    out.push("]}");
}

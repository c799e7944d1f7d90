//! Rows of the tables.

use crate::line::{bytes, first_of};
use std::alloc::{AllocError, Global};
use store_kv::{Draft, KeptRow, MemoryKeeper, prefix_ends};
use store_rows::StoreFail;

// So many rows are shown at most.
const MOST: usize = 100;

fn table(digits: &str) -> u8 {
    digits.parse::<u8>().unwrap_or(0)
}

/// Puts a row: the table, the key and the row.
pub(crate) fn put(
    alloc: Global,
    keeper: &mut MemoryKeeper,
    arguments: &str,
) -> Result<String, StoreFail> {
    let (digits, rest) = first_of(arguments);
    let (key, row) = first_of(rest);
    let key = bytes(alloc, key)?;
    let row = bytes(alloc, row)?;
    let mut draft = Draft::new(alloc, keeper);
    draft.put(alloc, table(digits), key, row)?;
    draft.commit(alloc)?;
    Ok(String::from_str(alloc, "put")?)
}

// Each key with its row behind it.
fn joined(alloc: Global, rows: &[KeptRow]) -> Result<String, AllocError> {
    let mut all = String::new(alloc);
    for row in rows {
        if !all.is_empty() {
            all.push(' ')?;
        }
        all.push_str(hex::encode(alloc, row.key.as_slice())?.as_str())?;
        all.push('=')?;
        all.push_str(hex::encode(alloc, row.row.as_slice())?.as_str())?;
    }
    Ok(all)
}

fn joined_or_none(alloc: Global, rows: &[KeptRow]) -> Result<String, AllocError> {
    if rows.is_empty() {
        String::from_str(alloc, "none")
    } else {
        joined(alloc, rows)
    }
}

/// The rows of a table whose keys begin with some bytes: the table, and these bytes.
pub(crate) fn under(
    alloc: Global,
    keeper: &mut MemoryKeeper,
    arguments: &str,
) -> Result<String, StoreFail> {
    let (digits, prefix) = first_of(arguments);
    let prefix = bytes(alloc, prefix)?;
    let Some((from, below)) = prefix_ends(alloc, prefix.as_slice())? else {
        return Ok(String::from_str(alloc, "no end")?);
    };
    let mut draft = Draft::new(alloc, keeper);
    let found = draft.scan(
        alloc,
        table(digits),
        from.as_slice(),
        below.as_slice(),
        MOST,
    )?;
    Ok(joined_or_none(alloc, found.as_slice())?)
}

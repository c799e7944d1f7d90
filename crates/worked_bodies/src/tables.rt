//! CSV texts.

use base_csv::{TableFail, read_table};
use std::alloc::{AllocError, Global};

// How many records are read of a source, of at most so many, or which is refused.
fn read(alloc: Global, source: &[u8], most: usize) -> Result<String, AllocError> {
    match read_table(alloc, source, most) {
        Ok(rows) => {
            let count = rows.len();
            format!(in alloc; "read: {count}")
        }
        Err(fail) => told(alloc, fail),
    }
}

fn told(alloc: Global, fail: TableFail) -> Result<String, AllocError> {
    format!(in alloc; "{fail}")
}

/// How many records are read of a source of fewer than nine, or which is refused.
pub(crate) fn all_records(alloc: Global, source: &[u8]) -> Result<String, AllocError> {
    read(alloc, source, 9)
}

/// How many records are read of a source, of at most one, or which is refused.
pub(crate) fn first_record(alloc: Global, source: &[u8]) -> Result<String, AllocError> {
    read(alloc, source, 1)
}

/// What is said when out of memory.
pub(crate) fn memory(alloc: Global) -> Result<String, AllocError> {
    told(alloc, TableFail::Memory)
}

use base_value::Bytes;
use std::alloc::{AllocError, Global};
use store_kv::{Batch, Change, Keeper, KeptRow};

// A change that sets the row of a key of one byte.
fn set(alloc: Global, table: u8, key: u8, row: &[u8]) -> Result<Change, AllocError> {
    let key = Bytes::from_slice(alloc, &[key])?;
    let row = Bytes::from_slice(alloc, row)?;
    Ok(Change::Put { table, key, row })
}

/// A batch that sets the row of a key of one byte.
pub fn put(alloc: Global, table: u8, key: u8, row: &[u8]) -> Result<Batch, AllocError> {
    let mut changes = Vec::new(alloc);
    changes.push(set(alloc, table, key, row)?)?;
    Ok(Batch { changes })
}

/// A batch that removes the row of a key of one byte, and sets that of another.
pub fn swap(alloc: Global, table: u8, gone: u8, key: u8, row: &[u8]) -> Result<Batch, AllocError> {
    let mut changes = Vec::new(alloc);
    let gone = Bytes::from_slice(alloc, &[gone])?;
    changes.push(Change::Remove { table, key: gone })?;
    changes.push(set(alloc, table, key, row)?)?;
    Ok(Batch { changes })
}

/// Whether the keeper made the batch.
pub fn makes<K: Keeper>(alloc: Global, keeper: &mut K, batch: &Batch) -> bool {
    keeper.apply(alloc, batch).is_ok()
}

// Rows as `key=row `, one after another.
fn text_of(alloc: Global, rows: &[KeptRow]) -> Result<Vec<u8>, AllocError> {
    let mut text = Vec::new(alloc);
    for row in rows {
        for byte in row.key.as_slice() {
            text.push(*byte)?;
        }
        text.push(b'=')?;
        for byte in row.row.as_slice() {
            text.push(*byte)?;
        }
        text.push(b' ')?;
    }
    Ok(text)
}

/// The rows of a table between two keys as `key=row `, one after another, or `failed`.
pub fn rows_of<K: Keeper>(
    alloc: Global,
    keeper: &mut K,
    table: u8,
    (from, below): (&[u8], &[u8]),
    limit: usize,
) -> Result<Vec<u8>, AllocError> {
    match keeper.scan(alloc, table, from, below, limit) {
        Ok(rows) => text_of(alloc, rows.as_slice()),
        Err(_) => Vec::from_slice(alloc, b"failed"),
    }
}

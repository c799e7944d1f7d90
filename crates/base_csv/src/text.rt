//! The text of a record.

ghost use Rattle.csv.specs.Writing.{default_writer, needs_byte, needs_quotes, row_body, row_text};
ghost use Rattle.std.specs.Prelude.{◌≡◌, ◌∷◌, IfOk, IfSome, map};

use csv::WriterBuilder;
use std::alloc::{AllocError, Global};

// Whether a byte calls for quotes.
fn needs_byte(byte: u8) -> bool
    ensures { result ≡ needs_byte default_writer byte }
{
    byte == b',' || byte == b'"' || byte == b'\r' || byte == b'\n'
}

// Whether a cell does.
fn needs_quotes(cell: &[u8]) -> bool
    ensures { result ≡ needs_quotes default_writer cell.now }
{
    cell.iter().any(|byte| needs_byte(*byte))
}

// The cells with commas between them, if none calls for quotes.
fn plain_text(alloc: Global, first: &[u8], rest: &[&[u8]]) -> Result<Option<Vec<u8>>, AllocError>
    ensures { IfOk result (λ found. IfSome found (λ text. text.items ≡ row_body default_writer (first.now ∷ map (λ c. c.now) rest.now))) }
{
    if needs_quotes(first) {
        return Ok(None);
    }
    let mut text = Vec::from_slice(alloc, first)?;
    for cell in rest {
        if needs_quotes(cell) {
            return Ok(None);
        }
        text.push(b',')?;
        text.extend_from_slice(cell)?;
    }
    Ok(Some(text))
}

// The text as a writer of `csv` has it.
fn written_text(alloc: Global, cells: &[&[u8]]) -> Result<Vec<u8>, AllocError>
    ensures { IfOk result (λ text. text.items ≡ row_text default_writer (map (λ c. c.now) cells.now)) }
{
    let mut writer = WriterBuilder::new().from_writer(Vec::new(alloc));
    if writer.write_fields(cells).is_err() {
        return Err(AllocError);
    }
    match writer.into_inner() {
        Ok(text) => Ok(text),
        Err(_) => Err(AllocError),
    }
}

/// The text of a record with these cells, and its end, as a writer of `csv` has it by its default settings: two quotes where there is one
/// cell and that is empty. A writer is made only where a cell calls for quotes, or there is one cell, since each clears a buffer of 8 KiB.
///
/// # Errors
///
/// When out of memory.
pub fn record_text(alloc: Global, cells: &[&[u8]]) -> Result<Vec<u8>, AllocError>
    ensures { IfOk result (λ text. text.items ≡ row_text default_writer (map (λ c. c.now) cells.now)) }
{
    let Some((first, rest)) = cells.split_first() else {
        return written_text(alloc, cells);
    };
    if rest.is_empty() {
        return written_text(alloc, cells);
    }
    match plain_text(alloc, first, rest)? {
        Some(text) => {
            let mut text = text;
            text.push(b'\n')?;
            Ok(text)
        }
        None => written_text(alloc, cells),
    }
}

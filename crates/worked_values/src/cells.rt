//! What the cells of a line say. In a cell of bytes `<0D0A>` is the two bytes 0D and 0A, and any other character is
//! itself.

use std::alloc::AllocError;

/// The cell at a place, or the empty text.
pub fn cell<'a>(cells: &[&'a str], place: usize) -> &'a str {
    match cells.get(place) {
        Some(cell) => cell,
        None => "",
    }
}

/// The number in the cell at a place, or 0.
pub fn count(cells: &[&str], place: usize) -> usize {
    cell(cells, place).parse().unwrap_or(0)
}

fn digit(byte: u8) -> u8 {
    match byte {
        b'0'..=b'9' => byte - b'0',
        b'A'..=b'F' => byte - b'A' + 10,
        _ => 0,
    }
}

// Where in a cell a character is: among characters that are themselves, at the first digit of a byte, or at the second one
// behind the first.
#[derive(Clone, Copy)]
enum Place {
    Plain,
    First,
    Second(u8),
}

// The place behind a character, and the byte that ends with it.
fn after(place: Place, byte: u8) -> (Place, Option<u8>) {
    match (place, byte) {
        (Place::Plain, b'<') => (Place::First, None),
        (Place::Plain, _) => (Place::Plain, Some(byte)),
        (_, b'>') => (Place::Plain, None),
        (Place::First, _) => (Place::Second(digit(byte)), None),
        (Place::Second(high), _) => (Place::First, Some((high << 4) | digit(byte))),
    }
}

/// Appends the bytes of a cell.
///
/// # Errors
///
/// If out of memory.
pub fn push_cell(bytes: &mut Vec<u8>, cell: &str) -> Result<(), AllocError> {
    let mut place = Place::Plain;
    for byte in cell.as_bytes() {
        let (next, found) = after(place, *byte);
        place = next;
        if let Some(found) = found {
            bytes.push(found)?;
        }
    }
    Ok(())
}

fn push_times(bytes: &mut Vec<u8>, cell: &str, times: u64) -> Result<(), AllocError> {
    for _ in 0..times {
        push_cell(bytes, cell)?;
    }
    Ok(())
}

/// Appends the bytes of cells: of the first one; then by threes, a count, bytes that are there so often, and bytes that
/// follow.
///
/// # Errors
///
/// If out of memory.
pub fn push_repeated(bytes: &mut Vec<u8>, cells: &[&str]) -> Result<(), AllocError> {
    let mut times = 1;
    for (place, cell) in cells.iter().enumerate() {
        if place % 3 == 1 {
            times = cell.parse().unwrap_or(0);
        } else {
            push_times(bytes, cell, times)?;
            times = 1;
        }
    }
    Ok(())
}

/// Appends the numbers of a cell, with `,` between two of them.
///
/// # Errors
///
/// If out of memory.
pub fn push_numbers(numbers: &mut Vec<u64>, cell: &str) -> Result<(), AllocError> {
    for number in cell.split(',') {
        if let Ok(number) = number.parse() {
            numbers.push(number)?;
        }
    }
    Ok(())
}

/// The word at a place of a text, with a space between two of them, or the empty text.
pub fn word(text: &str, place: usize) -> &str {
    text.split(' ').nth(place).unwrap_or("")
}

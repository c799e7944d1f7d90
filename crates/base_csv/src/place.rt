//! Where a record stands in its source.

ghost use Rattle.std.specs.Prelude.{◌≡◌, ◌+◌, ◌≤◌, drop, false, length, not};
ghost use Rattle.std.specs.List.{position_or_len};
ghost use Rattle.std.specs.Str.{is_utf8};
ghost use Rattle.csv.specs.Machine.{is_end, step, start_record, start_field, in_field};
ghost use Rattle.csv.specs.Reading.{default_config, strip_bom};
ghost use Rattle.csv.specs.Records.{fields_of};
ghost use Rattle.csv.specs.declared.parser.State.TheVariants as st;
ghost use Rattle.base_csv.specs.Place.{after_records, line_ends, line_of, past_ends};
ghost use Rattle.base_csv.specs.inner.Spots.{state_at};

use csv::ByteRecord;

// Where a scan stands: between records, after the CR of one's end, where a cell begins, in a cell, in quotes, or after a
// quote in quotes.
#[derive(Clone, Copy)]
enum Spot {
    Between,
    AfterReturn,
    CellStart,
    Plain,
    Quoted,
    AfterQuote,
}

// A byte in a cell, and whether it ends a record.
fn in_cell(byte: u8) -> (Spot, bool)
    ensures spot { state_at result.0 ≡ (in_field default_config byte).0 }
    ensures ends { result.1 ≡ is_end (in_field default_config byte).1 }
{
    match byte {
        b',' => (Spot::CellStart, false),
        b'\r' => (Spot::AfterReturn, true),
        b'\n' => (Spot::Between, true),
        _ => (Spot::Plain, false),
    }
}

// The first byte of a cell.
fn at_cell(byte: u8) -> (Spot, bool)
    ensures spot { state_at result.0 ≡ (start_field default_config byte).0 }
    ensures ends { result.1 ≡ is_end (start_field default_config byte).1 }
{
    match byte {
        b'"' => (Spot::Quoted, false),
        _ => in_cell(byte),
    }
}

// A byte between records, which begins one unless it ends a line.
fn at_record(byte: u8) -> (Spot, bool)
    ensures spot { state_at result.0 ≡ (start_record default_config byte).0 }
    ensures ends { result.1 ≡ is_end (start_record default_config byte).1 }
{
    match byte {
        b'\r' | b'\n' => (Spot::Between, false),
        _ => at_cell(byte),
    }
}

// Where a scan stands after a byte, and whether this ends a record.
fn after_byte(spot: Spot, byte: u8) -> (Spot, bool)
    ensures spot { state_at result.0 ≡ (step default_config (state_at spot) byte).0 }
    ensures ends { result.1 ≡ is_end (step default_config (state_at spot) byte).1 }
{
    match (spot, byte) {
        (Spot::AfterReturn, b'\n') => (Spot::Between, false),
        (Spot::Between | Spot::AfterReturn, _) => at_record(byte),
        (Spot::CellStart, _) => at_cell(byte),
        (Spot::Quoted, b'"') => (Spot::AfterQuote, false),
        (Spot::Quoted, _) => (Spot::Quoted, false),
        (Spot::AfterQuote, b'"') => (Spot::Quoted, false),
        (Spot::Plain | Spot::AfterQuote, _) => in_cell(byte),
    }
}

// How many bytes the first records take.
#[tactic(auto, unfolding(crate::proofs::Scans::scan), using(crate::proofs::Scans::scan_is))]
fn records_len(bytes: &[u8], rows: usize) -> usize
    ensures rest { drop result bytes.now ≡ after_records rows st.StartRecord bytes.now }
    ensures within { result ≤ length bytes.now }
{
    let mut spot = Spot::Between;
    let mut left = rows;
    for (at, byte) in bytes.iter().enumerate() {
        if left == 0 {
            return at;
        }
        let (next, ends) = after_byte(spot, *byte);
        spot = next;
        if ends {
            left -= 1;
        }
    }
    bytes.len()
}

// What follows the line ends at the front.
#[tactic(auto, unfolding(crate::specs::Place::past_ends))]
fn past_ends(bytes: &[u8]) -> &[u8]
    ensures rest { result.now ≡ past_ends bytes.now }
    ensures within { length result.now ≤ length bytes.now }
{
    for (at, byte) in bytes.iter().enumerate() {
        if *byte != b'\r' && *byte != b'\n' {
            return &bytes[at..];
        }
    }
    &[]
}

// How many lines end.
#[tactic(auto, unfolding(crate::specs::Place::line_ends))]
fn line_ends(bytes: &[u8]) -> usize
    ensures count { result ≡ line_ends false bytes.now }
    ensures few { result ≤ length bytes.now }
{
    let mut count: usize = 0;
    let mut after_return = false;
    for byte in bytes {
        if *byte == b'\r' || *byte == b'\n' && !after_return {
            count += 1;
        }
        after_return = *byte == b'\r';
    }
    count
}

// What follows a byte order mark, or all.
#[tactic(auto, unfolding(csv::specs::Reading::strip_bom))]
fn past_mark(source: &[u8]) -> &[u8]
    ensures { result.now ≡ strip_bom source.now }
{
    match source {
        [0xEF, 0xBB, 0xBF, rest @ ..] => rest,
        _ => source,
    }
}

// The line of the record with this number.
pub(crate) fn line_of(source: &[u8], row: usize) -> usize
    ensures { result ≡ line_of row source.now }
{
    let bytes = past_mark(source);
    let rest = past_ends(&bytes[records_len(bytes, row)..]);
    line_ends(&bytes[..bytes.len() - rest.len()]) + 1
}

// Whether a cell is UTF-8.
fn is_text(cell: &[u8]) -> bool
    ensures { result ≡ is_utf8 cell.now }
{
    match str::from_utf8(cell) {
        Ok(_) => true,
        Err(_) => false,
    }
}

// The number of the first cell that isn't UTF-8, from 0; that of cells where all are.
pub(crate) fn text_cells(cells: &ByteRecord) -> usize
    ensures { result ≡ position_or_len (λ cell. not (is_utf8 cell)) (fields_of cells.now) }
{
    for i in 0..cells.len() {
        let Some(cell) = cells.get(i) else {
            // Each place below the number of cells has one.
            return i;
        };
        if !is_text(cell) {
            return i;
        }
    }
    cells.len()
}

//! The records of a source, one at a time.

ghost use Rattle.std.specs.Prelude.{◌≡◌, ℕ, ◌+◌, ◌<◌, ◌^◌, IfErr, IfOk, OnOk, IfSome, None, Some, Err, is_some, false, if◌then◌else◌, option_map, slice_get};
ghost use Rattle.csv.specs.Reading.{error_kind};
ghost use Rattle.csv.specs.Records.{AllText, fields_of};
ghost use Rattle.base_csv.specs.Place.{RefusesRecord, TellsPlace, line_of};
ghost use Rattle.base_csv.specs.Table.{begins_with_two_marks, first_refused, table_of};
ghost use Rattle.base_csv.specs.inner.Kinds.{TellsText, TellsWidth};
ghost use Rattle.base_csv.specs.inner.Standing.{StandsAt};
ghost use Rattle.base_csv.specs.declared.fail.TableFail.TheVariants.{Memory, Refused};

use crate::fail::TableFail;
use crate::place::{line_of, text_cells};
use csv::{ByteRecord, Error, ErrorKind, Reader, ReaderBuilder, StringRecord};
use std::alloc::Global;
use std::marker::Model;

/// The records of a CSV source, which are read one at a time, in the memory of one. One byte order mark at the beginning
/// of the source is passed over.
#[derive(Drop)]
pub struct Records<'a> {
    source: &'a [u8],
    reader: Reader<&'a [u8]>,
    cells: ByteRecord,
    read: usize,
    ended: bool,
    failed: Option<TableFail>,
}

impl<'a> Model for Records<'a> {
    ghost use Rattle.std.specs.Prelude.{Some};
    ghost use Rattle.base_csv.specs.Progress.{Progress};
    ghost use Rattle.base_csv.specs.inner.Standing.{GoesOn};

    ghost Value = { Progress };

    ghost view = { λ r. record { source = r.source.now; read = r.read; failed = r.failed } };

    ghost invariant = { λ r. GoesOn (λ s. Some s.now) r.source.now r.read r.ended r.failed r.reader };
}

impl<'a> Records<'a> {
    /// The records of this source, of which none is read.
    pub fn new(alloc: Global, source: &'a [u8]) -> Records<'a>
        ensures source { result.source ≡ source.now }
        ensures read { result.read ≡ 0 }
        ensures failed { begins_with_two_marks source.now ≡ false → result.failed ≡ None }
    {
        let reader = ReaderBuilder::new()
            .has_headers(false)
            .from_reader(alloc, source);
        Records {
            source,
            reader,
            cells: ByteRecord::new(alloc),
            read: 0,
            ended: false,
            failed: failure_at_start(source),
        }
    }

    /// How many records were read.
    pub fn read(&self) -> usize
        ensures { result ≡ self.now.read }
    {
        self.read
    }

    /// The next record, the heading first; none where all are read.
    ///
    /// # Errors
    ///
    /// `Refused` where the next record is refused, with its number and where it stands; `Memory` where memory is
    /// exhausted. After an error each call returns it again.
    pub fn next(&mut self) -> Result<Option<StringRecord>, TableFail>
        ensures source { self.new.source ≡ self.old.source }
        ensures record { IfOk result (λ found. option_map fields_of found ≡ slice_get (table_of self.old.source) self.old.read) }
        ensures read { IfOk result (λ found. self.new.read ≡ (if is_some found then self.old.read + 1 else self.old.read)) }
        ensures accepted { IfOk result (λ found. found ≡ None → first_refused self.old.source ≡ None) }
        ensures later { IfOk result (λ found. IfSome found (λ _. (row : ℕ) → first_refused self.old.source ≡ Some row → self.old.read < row)) }
        ensures refused { IfErr result (λ fail. TellsPlace self.old.source fail) }
        ensures here { IfErr result (λ fail. RefusesRecord self.old.read fail) }
        ensures kept { IfErr result (λ _. self.new.read ≡ self.old.read) }
        ensures going { IfOk result (λ _. self.new.failed ≡ None) }
        ensures failed { IfErr result (λ fail. self.new.failed ≡ Some fail) }
        ensures again { IfSome self.old.failed (λ fail. result ≡ Err fail) }
    {
        if let Some(fail) = self.failed {
            return Err(fail);
        }
        if self.ended {
            return Ok(None);
        }
        match next_of(&mut self.reader, &mut self.cells, self.source, self.read) {
            Ok(Some(record)) => {
                self.read += 1;
                Ok(Some(record))
            }
            Ok(None) => {
                self.ended = true;
                Ok(None)
            }
            Err(fail) => {
                self.failed = Some(fail);
                Err(fail)
            }
        }
    }
}

// A source that begins with two byte order marks is refused.
fn failure_at_start(source: &[u8]) -> Option<TableFail>
    ensures marked { IfSome result (λ fail. TellsPlace source.now fail) }
    ensures first { IfSome result (λ fail. RefusesRecord 0 fail) }
    ensures unmarked { begins_with_two_marks source.now ≡ false → result ≡ None }
    ensures other { result ≡ None → begins_with_two_marks source.now ≡ false }
{
    if source.starts_with(b"\xEF\xBB\xBF\xEF\xBB\xBF".as_slice()) {
        Some(refusal(source, 0, 1))
    } else {
        None
    }
}

// The next record of a source, of which so many are read.
fn next_of<'a>(
    reader: &mut Reader<&'a [u8]>,
    cells: &mut ByteRecord,
    source: &[u8],
    read: usize,
) -> Result<Option<StringRecord>, TableFail>
    requires { StandsAt (λ s. Some s.now) source.now read reader.old }
    ensures record { IfOk result (λ found. option_map fields_of found ≡ slice_get (table_of source.now) read) }
    ensures few { IfOk result (λ found. IfSome found (λ _. read + 1 < 2 ^ 64)) }
    ensures stands { IfOk result (λ found. IfSome found (λ _. StandsAt (λ s. Some s.now) source.now (read + 1) reader.new)) }
    ensures accepted { IfOk result (λ found. found ≡ None → first_refused source.now ≡ None) }
    ensures refused { IfErr result (λ fail. TellsPlace source.now fail) }
    ensures here { IfErr result (λ fail. RefusesRecord read fail) }
{
    match reader.read_byte_record(cells) {
        Ok(true) => {
            one_more(read)?;
            match text_of(cells, source, read) {
                Ok(record) => Ok(Some(record)),
                Err(fail) => Err(fail),
            }
        }
        Ok(false) if read == 0 => Err(refusal(source, 0, 1)),
        Ok(false) => Ok(None),
        Err(error) => Err(width_fail(&error, source, read)),
    }
}

// The refusal of the record with this number.
fn refusal(source: &[u8], row: usize, column: usize) -> TableFail
    ensures { result ≡ Refused row (line_of row source.now) column }
{
    TableFail::Refused {
        row,
        line: line_of(source, row),
        column,
    }
}

// A count past every number counts as out of memory.
fn one_more(count: usize) -> Result<usize, TableFail>
    ensures more { IfOk result (λ n. n ≡ count + 1) }
    ensures err { IfErr result (λ fail. fail ≡ Memory) }
{
    count.checked_add(1).ok_or(TableFail::Memory)
}

// The record of these cells.
fn text_of(cells: &ByteRecord, source: &[u8], row: usize) -> Result<StringRecord, TableFail>
    ensures same { IfOk result (λ text. fields_of text ≡ fields_of cells.now) }
    ensures text { OnOk result (AllText (fields_of cells.now)) }
    ensures bytes { IfErr result (λ fail. TellsText (fields_of cells.now) row (line_of row source.now) fail) }
{
    let Ok(copy) = cells.clone() else {
        return Err(TableFail::Memory);
    };
    match StringRecord::from_byte_record(copy) {
        Ok(text) => Ok(text),
        Err(_) => {
            let column = one_more(text_cells(cells))?;
            Err(refusal(source, row, column))
        }
    }
}

// The refusal of a record of another length. A reader over bytes in memory gives no error of input. `csv` has no clause
// that says so, so such an error, were it to come, would count as out of memory.
fn width_fail(error: &Error, source: &[u8], row: usize) -> TableFail
    ensures { TellsWidth (error_kind error.now) row (line_of row source.now) result }
{
    match error.kind() {
        ErrorKind::UnequalLengths {
            expected_len,
            len,
            ..
        } => match column_after((*expected_len).min(*len)) {
            Ok(column) => refusal(source, row, column),
            Err(fail) => fail,
        },
        _ => TableFail::Memory,
    }
}

// The column after so many cells.
fn column_after(cells: u64) -> Result<usize, TableFail>
    ensures more { IfOk result (λ n. n ≡ cells + 1) }
    ensures err { IfErr result (λ fail. fail ≡ Memory) }
{
    match usize::try_from(cells) {
        Ok(cells) => one_more(cells),
        Err(_) => Err(TableFail::Memory),
    }
}

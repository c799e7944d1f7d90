//! A query over the bytes of an input.

ghost use Rattle.std.specs.Prelude.{◌≡◌, [], ◌∷◌, IfOk, IsTrue, false, map, pos};
ghost use Rattle.csv.specs.Records.{fields_of};
ghost use Rattle.cmd_csvq.specs.Organisation.{with_columns, with_rows};
ghost use Rattle.cmd_csvq.specs.Outcomes.{columns_outcome, input_outcome, lines_outcome, rows_outcome, table_outcome};
ghost use Rattle.store_kv.specs.Draft.{tables_of};
ghost use Rattle.store_kv.specs.Memory.{memory_state};
ghost use Rattle.model.specs.Paths.{Asked};
ghost use Rattle.cmd_sandbox.specs.Making.{IsOwned, NeverFails, OrMemory};
ghost use Rattle.store_abstraction.specs.Stands.{Stands};
ghost use Rattle.base_value.specs.Dates.{is_moment};

use crate::columns::make_columns;
use crate::organisation::make_object_of_rows;
use crate::outcome::Outcome;
use crate::rows::make_rows;
use base_csv::{TableFail, read_table};
use base_value::Bytes;
use cmd_sandbox::{answer, make_org};
use csv::StringRecord;
use model::Refusal;
use soql::Query;
use std::alloc::{AllocError, Global};
use store_abstraction::stands_laws;
use store_kv::{Draft, MemoryKeeper};
use store_rows::StoreFail;

/// The most bytes of an input.
pub const INPUT_LIMIT: usize = 67_108_864;

// The most records of an input that are kept: the heading, and one row more than an organisation has records.
const RECORDS: usize = 50_002;

// What the answer to a query comes to.
fn lines_outcome(answer: Result<Bytes, Refusal>) -> Outcome
    ensures { result ≡ lines_outcome answer }
{
    match answer {
        Ok(lines) => Outcome::Rows(lines),
        Err(refusal) => Outcome::Refused(refusal),
    }
}

// The rows, and the answer once they are made.
fn answer_rows(
    alloc: Global,
    draft: &mut Draft<'_, MemoryKeeper>,
    query: &Query,
    now: u64,
    heading: &StringRecord,
    rows: &[StringRecord],
) -> Result<Outcome, StoreFail>
    requires { IsTrue (is_moment (pos now)) }
    ensures { (a : Asked) → IsOwned now draft.old a
        → OrMemory result (λ outcome. outcome ≡ rows_outcome query.now (with_rows (fields_of heading.now) 1 a (map fields_of rows.now))) }
{
    let refused = make_rows(alloc, draft, now, heading, rows)?;
    match refused {
        Some(why) => {
            let (row, refusal) = why;
            Ok(Outcome::RefusedIn(row, refusal))
        }
        None => Ok(lines_outcome(answer(alloc, draft, now, query)?)),
    }
}

// The heading and its rows.
fn answer_columns(
    alloc: Global,
    draft: &mut Draft<'_, MemoryKeeper>,
    query: &Query,
    now: u64,
    heading: &StringRecord,
    rows: &[StringRecord],
) -> Result<Outcome, StoreFail>
    requires { IsTrue (is_moment (pos now)) }
    ensures { (a : Asked) → IsOwned now draft.old a
        → OrMemory result (λ outcome. outcome
        ≡ columns_outcome query.now (fields_of heading.now) (map fields_of rows.now) (with_columns false a (fields_of heading.now))) }
{
    let refused = make_columns(alloc, draft, heading)?;
    match refused {
        Some(cell) => Ok(Outcome::Refused(Refusal::HeadingRefused { cell })),
        None => answer_rows(alloc, draft, query, now, heading, rows),
    }
}

// The organisation, its object, the heading and its rows.
fn answer_made(
    alloc: Global,
    draft: &mut Draft<'_, MemoryKeeper>,
    query: &Query,
    now: u64,
    heading: &StringRecord,
    rows: &[StringRecord],
) -> Result<Outcome, StoreFail>
    requires { IsTrue (is_moment (pos now)) }
    ensures { Stands (tables_of memory_state draft.old) [] → NeverFails draft.old
        → OrMemory result (λ outcome. outcome ≡ table_outcome query.now (pos now) (fields_of heading.now ∷ map fields_of rows.now)) }
{
    make_org(alloc, draft)?;
    let refused = make_object_of_rows(alloc, draft)?;
    match refused {
        Some(refusal) => Ok(Outcome::Refused(refusal)),
        None => answer_columns(alloc, draft, query, now, heading, rows),
    }
}

// A heading and rows, in tables of their own.
fn answer_records(
    alloc: Global,
    query: &Query,
    now: u64,
    records: &[StringRecord],
) -> Result<Outcome, AllocError>
    requires { IsTrue (is_moment (pos now)) }
    ensures { IfOk result (λ outcome. outcome ≡ table_outcome query.now (pos now) (map fields_of records.now)) }
{
    stands_laws();
    let Some((heading, rows)) = records.split_first() else {
        return Ok(Outcome::Refused(Refusal::CsvRefused { row: 0 }));
    };
    let mut keeper = MemoryKeeper::new(alloc, &[])?;
    let mut draft = Draft::new(alloc, &mut keeper);
    match answer_made(alloc, &mut draft, query, now, heading, rows) {
        Ok(outcome) => Ok(outcome),
        Err(StoreFail::Memory) => Err(AllocError),
        // No call of this keeper fails, and its tables stand for what was made.
        Err(StoreFail::Keeper | StoreFail::Damaged) => unreachable!(),
    }
}

/// What a query comes to over the bytes of an input, asked at this moment, in seconds from 1970-01-01T00:00:00Z.
///
/// # Errors
///
/// If out of memory.
pub fn answer_input(
    alloc: Global,
    query: &Query,
    now: u64,
    bytes: &[u8],
) -> Result<Outcome, AllocError>
    requires { IsTrue (is_moment (pos now)) }
    ensures { IfOk result (λ outcome. outcome ≡ input_outcome query.now (pos now) bytes.now) }
{
    if bytes.len() > INPUT_LIMIT {
        return Ok(Outcome::Refused(Refusal::InputTooLarge));
    }
    match read_table(alloc, bytes, RECORDS) {
        Ok(records) => answer_records(alloc, query, now, records.as_slice()),
        Err(TableFail::Refused { row, .. }) => Ok(Outcome::Refused(Refusal::CsvRefused { row })),
        Err(TableFail::Memory) => Err(AllocError),
    }
}

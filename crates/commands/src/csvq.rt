//! The command `csvq`.

ghost use Rattle.std.specs.Prelude.{◌≡◌, ◌++◌, IfOk, IsErrOf, IsTrue, List, codes, false, pos, string_bytes, ℕ};
ghost use Rattle.std.specs.Fmt.{decimal};
ghost use Rattle.std.specs.Io.KnownBytes.{IsAtEnd};
ghost use Rattle.commands.specs.Csvq.{outcome_printout, reads_input, refused_row, rows_printed};
ghost use Rattle.commands.specs.Statuses.{MayBe};
ghost use Rattle.commands.specs.declared.csvq.InputFail.TheVariants.{Failed, Memory};
ghost use Rattle.cmd_load.specs.Batches.{MayTell};
ghost use Rattle.cmd_csvq.specs.Outcomes.{input_outcome};
ghost use Rattle.base_value.specs.Causes.{Cause};
ghost use Rattle.base_value.specs.Dates.{is_moment};

use crate::printout::{Printout, printout_of_refusal, refusal_line};
use base_io::{ReadFail, Source, read_all};
use cmd_csvq::{INPUT_LIMIT, Outcome, answer_input};
use cmd_sandbox::query_of;
use model::Refusal;
use soql::Query;
use std::alloc::{AllocError, Global};

/// Why the printout of `csvq` wasn't made.
#[derive(Clone, Copy, Debug, PartialEq, Eq)]
pub enum InputFail {
    /// The source failed.
    Failed,
    /// Out of memory.
    Memory,
}

impl From<AllocError> for InputFail {
    ghost from_gives = { λ _ e. e ≡ Memory };

    fn from(_: AllocError) -> InputFail {
        InputFail::Memory
    }
}

// What is said of a row whose record is refused.
fn row_message(alloc: Global, row: u64, message: &str) -> Result<String, AllocError>
    ensures { IfOk result (λ text. string_bytes text ≡ codes "row " ++ (decimal row ++ (codes ": " ++ message.now))) }
{
    format!(in alloc; "row {row}: {message}")
}

// The printout that says why the record of a row is refused.
fn printout_of_row(alloc: Global, row: u64, refusal: &Refusal) -> Result<Printout, AllocError>
    ensures { IfOk result (λ p. p ≡ refused_row row refusal.now) }
{
    let message = refusal.message(alloc)?;
    let message = row_message(alloc, row, message.as_str())?;
    let text = refusal_line(alloc, refusal.code(), message.as_str())?;
    Ok(Printout::refused(text.into_bytes()))
}

fn printout_of_outcome(alloc: Global, outcome: Outcome) -> Result<Printout, AllocError>
    ensures { IfOk result (λ p. p ≡ outcome_printout outcome) }
{
    match outcome {
        Outcome::Rows(text) => Ok(Printout::done(text.into_vec())),
        Outcome::Refused(refusal) => printout_of_refusal(alloc, &refusal),
        Outcome::RefusedIn(row, refusal) => printout_of_row(alloc, row, &refusal),
    }
}

// The printout of a query that was read.
fn printout_of_query<S: Source>(
    alloc: Global,
    query: &Query,
    now: u64,
    source: &mut S,
) -> Result<Printout, InputFail>
    requires { IsTrue (is_moment (pos now)) }
    ensures printout { IfOk result (λ p. (bytes : List ℕ) × MayTell (S.left source.old) bytes
        × (p ≡ outcome_printout (input_outcome query.now (pos now) bytes))) }
    ensures whole { IfOk result (λ p. p.status ≡ 0 → IsAtEnd (S.left source.new)) }
    ensures stays { S.stays source.old source.new }
    ensures cause { Cause (S.faults source.old) (S.faults source.new) (IsErrOf result Failed) }
{
    match read_all(alloc, source, INPUT_LIMIT) {
        Ok(bytes) => {
            let outcome = answer_input(alloc, query, now, bytes.as_slice())?;
            Ok(printout_of_outcome(alloc, outcome)?)
        }
        Err(ReadFail::TooLong) => Ok(printout_of_refusal(alloc, &Refusal::InputTooLarge)?),
        Err(ReadFail::Failed) => Err(InputFail::Failed),
        Err(ReadFail::Memory) => Err(InputFail::Memory),
    }
}

/// The printout of `csvq` with this query over the source's bytes, asked at this moment. A query that is refused before its input is
/// looked at reads nothing.
pub(crate) fn printout_of<S: Source>(
    alloc: Global,
    query: &str,
    now: u64,
    source: &mut S,
) -> Result<Printout, InputFail>
    requires { IsTrue (is_moment (pos now)) }
    ensures printout { IfOk result (λ p. (bytes : List ℕ) × MayBe (reads_input query.now) (S.left source.old) bytes × (p ≡ rows_printed query.now bytes now)) }
    ensures unread { reads_input query.now ≡ false → source.new ≡ source.old }
    ensures whole { IfOk result (λ p. p.status ≡ 0 → IsAtEnd (S.left source.new)) }
    ensures stays { S.stays source.old source.new }
    ensures cause { Cause (S.faults source.old) (S.faults source.new) (IsErrOf result Failed) }
{
    match query_of(alloc, query)? {
        Ok(query) => printout_of_query(alloc, &query, now, source),
        Err(refusal) => Ok(printout_of_refusal(alloc, &refusal)?),
    }
}

//! Queries of a demo.

ghost use Rattle.std.specs.Prelude.{IsTrue, Ok, pos, ℕ};
ghost use Rattle.cmd_demo.specs.Demos.{answer_to_text, lines_read};
ghost use Rattle.cmd_demo.specs.inner.Coming.{Returns};
ghost use Rattle.model.specs.Paths.{Asked};
ghost use Rattle.cmd_sandbox.specs.Making.{IsOwned};
ghost use Rattle.base_value.specs.Dates.{is_moment};

use base_value::Bytes;
use cmd_sandbox::{answer, query_of};
use soql::Query;
use std::alloc::Global;
use store_abstraction::EditFail;
use store_kv::{Draft, MemoryKeeper};

// The lines of what a query finds.
fn ask_query(
    alloc: Global,
    draft: &mut Draft<'_, MemoryKeeper>,
    now: u64,
    query: &Query,
) -> Result<Bytes, EditFail>
    requires { IsTrue (is_moment (pos now)) }
    ensures lines { (a : Asked) → IsOwned now draft.old a → Returns (lines_read a (Ok query.now)) result }
    ensures kept { (at : ℕ) (a : Asked) → IsOwned at draft.old a → IsOwned at draft.new a }
{
    match answer(alloc, draft, now, query) {
        Ok(Ok(lines)) => Ok(lines),
        Ok(Err(refusal)) => Err(EditFail::Refused(refusal)),
        Err(fail) => Err(EditFail::Store(fail)),
    }
}

/// The lines of what the query of a text finds.
///
/// # Errors
///
/// `Refused` as the definition says, `Store` if out of memory.
pub(crate) fn ask(
    alloc: Global,
    draft: &mut Draft<'_, MemoryKeeper>,
    now: u64,
    text: &str,
) -> Result<Bytes, EditFail>
    requires { IsTrue (is_moment (pos now)) }
    ensures lines { (a : Asked) → IsOwned now draft.old a → Returns (answer_to_text text.now a) result }
    ensures kept { (at : ℕ) (a : Asked) → IsOwned at draft.old a → IsOwned at draft.new a }
{
    match query_of(alloc, text) {
        Ok(Ok(query)) => ask_query(alloc, draft, now, &query),
        Ok(Err(refusal)) => Err(EditFail::Refused(refusal)),
        Err(fail) => Err(EditFail::from(fail)),
    }
}

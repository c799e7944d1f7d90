//! The query of a text.

ghost use Rattle.std.specs.Prelude.{◌≡◌, IfOk};
ghost use Rattle.cmd_sandbox.specs.Own.{query_or_refusal};

use model::Refusal;
use soql::Query;
use soql_parser::{ParseFail, parse};
use std::alloc::{AllocError, Global};

/// The query that a text spells, or why it is refused.
///
/// # Errors
///
/// If out of memory.
pub fn query_of(alloc: Global, text: &str) -> Result<Result<Query, Refusal>, AllocError>
    ensures { IfOk result (λ read. read ≡ query_or_refusal text.now) }
{
    match parse(alloc, text) {
        Ok(query) => Ok(Ok(query)),
        Err(ParseFail::Malformed(place)) => Ok(Err(Refusal::MalformedQuery { place })),
        Err(ParseFail::Memory) => Err(AllocError),
    }
}

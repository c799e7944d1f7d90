//! From a text to the query that it spells.

ghost use Rattle.std.specs.Prelude.{◌≡◌, length, chars, IfOk};
ghost use Rattle.base_grammar.specs.Place.{IsOrMemory, OnMalformed, UnlessMemory};
ghost use Rattle.soql.specs.grammar.Spelling.{IsRefusedAt, Spells, reads_query};
ghost use Rattle.soql.specs.declared.query.Query.{Query};

use crate::items::whole;
use base_grammar::{ParseFail, at_end, starts, tokens};
use soql::{Query, QueryLexis};
use soql_lexer::signs;
use std::alloc::Global;

/// The query that a text spells.
///
/// # Errors
///
/// - `Malformed` exactly if the text spells none: with the byte at which the first token begins that can't follow, or the
///   length of the text if it ends too early.
/// - `Memory` if out of memory.
pub fn parse(alloc: Global, text: &str) -> Result<Query, ParseFail>
    // What is returned is spelled.
    ensures found { IfOk result (λ query. Spells (chars text.now) query) }
    // What is spelled is returned, unless out of memory.
    ensures only { (query : Query) → Spells (chars text.now) query → IsOrMemory result query }
    // The place that is refused is the defined one.
    ensures place { OnMalformed result (λ at. IsRefusedAt (chars text.now) (length text.now) at) }
    // It is what reading by the grammar computes: the query, or the place; unless out of memory.
    ensures reads { UnlessMemory result (λ read. reads_query text.now ≡ read) }
{
    let all = tokens::<QueryLexis>(alloc, text)?;
    let signs = signs(alloc, all.as_slice())?;
    let starts = starts(alloc, all.as_slice())?;
    at_end(
        whole(alloc, signs.as_slice()),
        starts.as_slice(),
        text.len(),
    )
}

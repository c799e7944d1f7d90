//! Whole texts: where their tokens begin, and what a text reads as once its tokens were read.

ghost use Rattle.std.specs.Prelude.{◌≡◌, ℕ, IfOk};
ghost use Rattle.base_grammar.specs.Place.{UnlessMemory, at_end, starts};
ghost use Rattle.base_grammar.specs.Reader.{Gives, Outcome};

use crate::cursor::place;
use crate::fail::{Fail, ParseFail};
use crate::token::Placed;
use base_value::Items;
use std::alloc::{AllocError, Global};

/// Where some tokens begin.
pub fn starts(alloc: Global, tokens: &[Placed]) -> Result<Items<usize>, AllocError>
    ensures { IfOk result (λ all. all ≡ starts tokens.now) }
{
    let mut found = Items::new(alloc);
    let mut rest = tokens;
    'tokens: while let Some((placed, behind)) = rest.split_first() {
        found.push(placed.start)?;
        rest = behind;
    }
    Ok(found)
}

/// What a whole text reads as, once so much of its tokens was read. They begin at these bytes of a text which ends at `end`.
///
/// # Errors
///
/// - `Malformed` with the place of the first token that can't follow, if one is left.
/// - `Memory` if reading was out of memory.
pub fn at_end<K, A: Drop>(
    read: Result<(A, &[K]), Fail>,
    starts: &[usize],
    end: usize,
) -> Result<A, ParseFail>
    ensures { (reading : Outcome K A) → Gives (λ x. (x.0, x.1.now)) read.entry reading
        → UnlessMemory result (λ outcome. outcome ≡ at_end starts.now end reading) }
{
    match read {
        Ok((value, rest)) => {
            if rest.is_empty() {
                Ok(value)
            } else {
                Err(ParseFail::Malformed(place(starts, rest.len(), end)))
            }
        }
        Err(Fail::Stuck(left)) => Err(ParseFail::Malformed(place(starts, left, end))),
        Err(Fail::Memory) => Err(ParseFail::Memory),
    }
}

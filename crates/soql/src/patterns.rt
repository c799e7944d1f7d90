//! Whether a text is like a pattern.
//!
//! The parts of a pattern are gone through from the last to the first. A row says of each rest of the folded text, the shortest
//! first, whether the parts so far take it whole. The folded text is held backwards: at `k` is the character before the rest
//! of length `k`.

ghost use Rattle.std.specs.Prelude.{◌≡◌, ◌∷◌, [], ◌||◌, false, List, IfOk, chars};
ghost use Rattle.std.specs.List.{scan};
ghost use Rattle.caseless.specs.Caseless.{default_case_fold};
ghost use Rattle.soql.specs.Like as spec;
ghost use Rattle.soql.specs.declared.query.LikePart.{LikePart};
ghost use Rattle.soql.specs.inner.Rests.{row_of, row_behind, with_one};

use crate::query::{LikePart, LikePattern};
use caseless::Caseless;
use std::alloc::{AllocError, Global};
use std::iter::once;

/// Whether a text is like a pattern. It takes time by the number of parts times the length of the folded text.
///
/// # Errors
///
/// If out of memory.
pub fn like(alloc: Global, pattern: &LikePattern, text: &str) -> Result<bool, AllocError>
    ensures { IfOk result (λ answer. answer ≡ spec.like pattern.now.parts (chars text.now)) }
{
    let mut backwards = folded_text(alloc, text)?;
    backwards.reverse();
    let row = row_of(alloc, pattern.parts.as_slice(), backwards.as_slice())?;
    Ok(row.last().copied().unwrap_or(false))
}

// Which rests some parts take whole.
fn row_of(alloc: Global, parts: &[LikePart], backwards: &[char]) -> Result<Vec<bool>, AllocError>
    ensures { IfOk result (λ row. row.items ≡ row_of parts.now backwards.now) }
{
    let mut row = row_of_none(alloc, backwards)?;
    for part in parts.iter().rev() {
        row = with_part(alloc, *part, backwards, row)?;
    }
    Ok(row)
}

// No parts take the empty rest alone.
fn row_of_none(alloc: Global, backwards: &[char]) -> Result<Vec<bool>, AllocError>
    ensures { IfOk result (λ row. row.items ≡ row_of [] backwards.now) }
{
    once(true)
        .chain(backwards.iter().map(|_| false))
        .collect(alloc)
}

// The row of some parts, from that of all but the first.
fn with_part(
    alloc: Global,
    part: LikePart,
    backwards: &[char],
    row: Vec<bool>,
) -> Result<Vec<bool>, AllocError>
    ensures { IfOk result (λ next. (parts : List LikePart) →
        row.items ≡ row_of parts backwards.now → next.items ≡ row_of (part ∷ parts) backwards.now) }
{
    match part {
        LikePart::One => with_one(alloc, None, backwards, row.as_slice()),
        LikePart::Many => with_any(alloc, row.as_slice()),
        LikePart::Exact(c) => {
            let folding = folded_char(alloc, c)?;
            with_prefix(alloc, folding.as_slice(), backwards, row)
        }
    }
}

// The row of a prefix and then some parts, from that of the parts.
fn with_prefix(
    alloc: Global,
    prefix: &[char],
    backwards: &[char],
    mut row: Vec<bool>,
) -> Result<Vec<bool>, AllocError>
    ensures { IfOk result (λ next. (parts : List LikePart) →
        row.items ≡ row_of parts backwards.now → next.items ≡ row_behind prefix.now parts backwards.now) }
{
    for c in prefix.iter().rev() {
        row = with_one(alloc, Some(*c), backwards, row.as_slice())?;
    }
    Ok(row)
}

// One character, which is the wanted one if one is wanted, and then what the row says of the rest behind it.
fn with_one(
    alloc: Global,
    wanted: Option<char>,
    backwards: &[char],
    row: &[bool],
) -> Result<Vec<bool>, AllocError>
    ensures { IfOk result (λ next. next.items ≡ with_one wanted backwards.now row.now) }
{
    once(false)
        .chain(
            backwards
                .iter()
                .zip(row)
                .map(|(c, taken)| wanted.is_none_or(|w| w == *c) && *taken),
        )
        .collect(alloc)
}

// Any run of characters, and then what the row says of a rest behind it.
fn with_any(alloc: Global, row: &[bool]) -> Result<Vec<bool>, AllocError>
    ensures { IfOk result (λ next. next.items ≡ scan ◌||◌ ◌||◌ false row.now) }
{
    row.iter()
        .scan(false, |any, taken| {
            *any = *any || *taken;
            Some(*any)
        })
        .collect(alloc)
}

fn folded_text(alloc: Global, text: &str) -> Result<Vec<char>, AllocError>
    ensures { IfOk result (λ folded. folded.items ≡ default_case_fold (chars text.now)) }
{
    text.chars().default_case_fold().collect(alloc)
}

fn folded_char(alloc: Global, c: char) -> Result<Vec<char>, AllocError>
    ensures { IfOk result (λ folded. folded.items ≡ default_case_fold (c ∷ [])) }
{
    once(c).default_case_fold().collect(alloc)
}

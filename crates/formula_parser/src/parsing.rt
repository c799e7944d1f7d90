//! From a text to the formula that it spells.

ghost use Rattle.std.specs.Prelude.{◌≡◌, ◌≤◌, length, chars, IfOk};
ghost use Rattle.std.specs.Option.{ok_or};
ghost use Rattle.formula.specs.declared.formula.Formula.{Formula};
ghost use Rattle.formula.specs.grammar.Spelling.{IsRefusedAt, Spells, formula_in, place_in};
ghost use Rattle.formula_parser.specs.Texts.{most_fields};
ghost use Rattle.base_grammar.specs.Place.{IsOrMemory, OnMalformed, UnlessMemory};

use crate::reader::whole;
use crate::words::{FormulaLexis, signs};
use base_grammar::{ParseFail, at_end, starts, tokens};
use formula::{Fields, Formula};
use std::alloc::Global;

/// The formula that a text spells over some fields. The formula of a sharing rule by criteria (`criteria`) has no `ISNEW`,
/// `ISCHANGED` or `PRIORVALUE`.
///
/// # Errors
///
/// - `Malformed` exactly if the text spells none: with the byte at which the first token begins that can't follow, or the
///   length of the text if it ends too early.
/// - `Memory` if out of memory.
pub fn parse(
    alloc: Global,
    text: &str,
    fields: &Fields,
    criteria: bool,
) -> Result<Formula, ParseFail>
    requires { length fields.now.items ≤ most_fields }
    // What is returned is spelled.
    ensures found { IfOk result (λ f. Spells criteria fields.now.items (chars text.now) f) }
    // What is spelled is returned, unless out of memory.
    ensures only { (f : Formula) → Spells criteria fields.now.items (chars text.now) f → IsOrMemory result f }
    // The place that is refused is the defined one.
    ensures place { OnMalformed result (λ at. IsRefusedAt criteria fields.now.items (chars text.now) (length text.now) at) }
    // It is what reading by the grammar computes: the formula, or the place; unless out of memory.
    ensures reads { UnlessMemory result (λ read.
        ok_or (formula_in criteria fields.now.items (chars text.now)) (place_in criteria fields.now.items (chars text.now) (length text.now)) ≡ read) }
{
    let all = tokens::<FormulaLexis>(alloc, text)?;
    let signs = signs(alloc, criteria, fields.items.as_slice(), all.as_slice())?;
    let starts = starts(alloc, all.as_slice())?;
    at_end(
        whole(alloc, signs.as_slice()),
        starts.as_slice(),
        text.len(),
    )
}

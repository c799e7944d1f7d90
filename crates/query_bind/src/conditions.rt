//! What literals and patterns of conditions become.

ghost use Rattle.std.specs.Prelude.{◌≡◌, IfOk, map};
ghost use Rattle.query_bind.specs.inner.Binding as spec;

use base_value::{Items, Text, Value, character_count, id_in};
use query_check::{Family, is_ids};
use query_plan::Operand;
use soql::{LikePattern, Literal};
use std::alloc::{AllocError, Global};

// ---- what is compared with

// A text beside a field: an id where it holds ids, and the empty one is null elsewhere.
fn text_operand(alloc: Global, family: Family, text: &Text) -> Result<Value, AllocError>
    ensures { IfOk result (λ v. v ≡ spec.text_operand family text.now) }
{
    if is_ids(family) {
        match id_in(text.as_str()) {
            Some(id) => Ok(Value::Ref(id)),
            None => Ok(Value::Null),
        }
    } else if character_count(text.as_str()) == 0 {
        Ok(Value::Null)
    } else {
        Ok(Value::Text(Text::from_str(alloc, text.as_str())?))
    }
}

/// What a literal means beside a field, on this day.
///
/// # Errors
///
/// When out of memory.
pub(crate) fn operand_of(
    alloc: Global,
    day: i64,
    family: Family,
    literal: &Literal,
) -> Result<Operand, AllocError>
    ensures { IfOk result (λ x. x ≡ spec.operand_of day family literal.now) }
{
    match literal {
        Literal::Null => Ok(Operand::Plain(Value::Null)),
        Literal::Text(text) => Ok(Operand::Plain(text_operand(alloc, family, text)?)),
        Literal::Num(count) => Ok(Operand::Plain(Value::Num(*count))),
        Literal::Bool(truth) => Ok(Operand::Plain(Value::Bool(*truth))),
        Literal::Day(day) => Ok(Operand::Plain(Value::Day(*day))),
        Literal::Moment(second) => Ok(Operand::Plain(Value::Moment(*second))),
        Literal::Today => Ok(Operand::Clock(i128::from(day))),
        Literal::Yesterday => Ok(Operand::Clock(i128::from(day) - 1)),
        Literal::Tomorrow => Ok(Operand::Clock(i128::from(day) + 1)),
    }
}

/// What literals mean beside a field, on this day.
///
/// # Errors
///
/// When out of memory.
pub(crate) fn operands_of(
    alloc: Global,
    day: i64,
    family: Family,
    literals: &[Literal],
) -> Result<Items<Operand>, AllocError>
    ensures { IfOk result (λ xs. xs ≡ map (spec.operand_of day family) literals.now) }
{
    let mut operands = Vec::new(alloc);
    for literal in literals {
        operands.push(operand_of(alloc, day, family, literal)?)?;
    }
    Ok(Items::from_vec(operands))
}

/// A copy of a pattern.
///
/// # Errors
///
/// When out of memory.
pub(crate) fn pattern_of(alloc: Global, pattern: &LikePattern) -> Result<LikePattern, AllocError>
    ensures { IfOk result (λ p. p ≡ pattern.now) }
{
    Ok(LikePattern {
        parts: Items::from_slice(alloc, pattern.parts.as_slice())?,
    })
}

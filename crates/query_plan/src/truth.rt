//! Whether a condition whose names are places holds on a record.

ghost use Rattle.std.specs.Prelude.{◌≡◌, IfOk, Some};
ghost use Rattle.std.specs.List.{list_all, list_any};
ghost use Rattle.model.specs.Conditions.{as_day, is_like};
ghost use Rattle.model.specs.Fields.{is_null};
ghost use Rattle.base_value.specs.Values.{cmp};
ghost use Rattle.base_value.specs.declared.value.Value.TheVariants as its;
ghost use Rattle.soql.specs.declared.query.Op.TheVariants as op;
ghost use Rattle.query_plan.specs.Checks as spec;
ghost use Rattle.query_plan.specs.Given.{GivesJust};
ghost use Rattle.model.specs.declared.record.Record.{Record};

use crate::check::{Check, Operand, Spot};
use crate::values::{HasValues, spot_value};
use base_value::{Value, day_of_moment, order};
use model::Record;
use soql::{LikePattern, Op, like};
use std::alloc::{AllocError, Global};
use std::cmp::Ordering;
use store_codec::CodecFail;

// ---- comparisons

fn is_null(value: &Value) -> bool
    ensures { result ≡ is_null value.now }
{
    match value {
        Value::Null => true,
        _ => false,
    }
}

fn means_null(with: &Operand) -> bool
    ensures { result ≡ is_null (spec.meant_of with.now) }
{
    match with {
        Operand::Plain(value) => is_null(value),
        Operand::Clock(_) => false,
    }
}

// A value beside a day by the clock.
fn clock_order(value: &Value, day: i128) -> Ordering
    ensures { result ≡ cmp (as_day value.now) (its.Day day) }
{
    match value {
        Value::Moment(second) => i128::from(day_of_moment(*second)).cmp(&day),
        Value::Day(other) => i128::from(*other).cmp(&day),
        Value::Null => order(value, &Value::Day(0)),
        Value::Text(_) => order(value, &Value::Day(0)),
        Value::Num(_) => order(value, &Value::Day(0)),
        Value::Bool(_) => order(value, &Value::Day(0)),
        Value::Ref(_) => order(value, &Value::Day(0)),
    }
}

fn order_beside(value: &Value, with: &Operand) -> Ordering
    ensures { result ≡ cmp (spec.beside with.now value.now) (spec.meant_of with.now) }
{
    match with {
        Operand::Plain(other) => order(value, other),
        Operand::Clock(day) => clock_order(value, *day),
    }
}

// Whether an operator that orders holds of an order.
fn is_so(op: Op, order: Ordering) -> bool
    ensures { result ≡ spec.is_so op order }
{
    match op {
        Op::Equal => order.is_eq(),
        Op::NotEqual => !order.is_eq(),
        Op::Less => order.is_lt(),
        Op::LessEqual => order.is_le(),
        Op::Greater => order.is_gt(),
        Op::GreaterEqual => order.is_ge(),
    }
}

// Whether an operator may hold of null.
fn takes_null(op: Op) -> bool
    ensures { result ≡ spec.takes_null op }
{
    match op {
        Op::Equal | Op::NotEqual => true,
        Op::Less | Op::LessEqual | Op::Greater | Op::GreaterEqual => false,
    }
}

// A value, compared.
fn passes(op: Op, value: &Value, with: &Operand) -> bool
    ensures { result ≡ spec.passes_with op value.now with.now }
{
    if !takes_null(op) && (is_null(value) || means_null(with)) {
        return false;
    }
    is_so(op, order_beside(value, with))
}

// Whether a value equals one of these.
fn is_among(value: &Value, with: &[Operand]) -> bool
    ensures { result ≡ list_any (spec.passes_with op.Equal value.now) with.now }
{
    with.iter().any(|one| passes(Op::Equal, value, one))
}

fn is_like(alloc: Global, pattern: &LikePattern, value: &Value) -> Result<bool, AllocError>
    ensures { IfOk result (λ x. x ≡ is_like pattern.now.parts value.now) }
{
    match value {
        Value::Text(text) => like(alloc, pattern, text.as_str()),
        _ => Ok(false),
    }
}

// ---- tests

fn test_value(alloc: Global, value: &Value, check: &Check) -> Result<bool, AllocError>
    ensures { IfOk result (λ x. x ≡ spec.tested check.now value.now) }
{
    match check {
        Check::Test { spot: _, op, with } => Ok(passes(*op, value, with)),
        Check::Like { spot: _, pattern } => is_like(alloc, pattern, value),
        Check::In {
            spot: _,
            negated,
            with,
        } => Ok(is_among(value, with.as_slice()) != *negated),
        Check::Not(_) | Check::And(_) | Check::Or(_) => Ok(false),
    }
}

fn test_at<V: HasValues>(
    alloc: Global,
    item: &V,
    far: &[Option<Record>],
    spot: Spot,
    check: &Check,
) -> Result<bool, CodecFail>
    ensures { (r : Record) → V.its_record item.now ≡ Some r → GivesJust (spec.tested check.now (spec.spot_value far.now r spot)) result }
{
    let value = spot_value(alloc, item, far, spot)?;
    Ok(test_value(alloc, &value, check)?)
}

#[cycle(truth)]
fn holds<V: HasValues>(
    alloc: Global,
    check: &Check,
    item: &V,
    far: &[Option<Record>],
) -> Result<bool, CodecFail>
    ensures { (r : Record) → V.its_record item.now ≡ Some r → GivesJust (spec.check_holds far.now r check.now) result }
{
    match check {
        Check::Test { spot, .. } | Check::Like { spot, .. } | Check::In { spot, .. } => {
            test_at(alloc, item, far, *spot, check)
        }
        Check::Not(part) => Ok(!holds(alloc, part.get(), item, far)?),
        Check::And(parts) => all_hold(alloc, parts.as_slice(), item, far),
        Check::Or(parts) => some_hold(alloc, parts.as_slice(), item, far),
    }
}

#[cycle(truth)]
fn all_hold<V: HasValues>(
    alloc: Global,
    checks: &[Check],
    item: &V,
    far: &[Option<Record>],
) -> Result<bool, CodecFail>
    ensures { (r : Record) → V.its_record item.now ≡ Some r → GivesJust (list_all (spec.check_holds far.now r) checks.now) result }
{
    for check in checks {
        if !holds(alloc, check, item, far)? {
            return Ok(false);
        }
    }
    Ok(true)
}

#[cycle(truth)]
fn some_hold<V: HasValues>(
    alloc: Global,
    checks: &[Check],
    item: &V,
    far: &[Option<Record>],
) -> Result<bool, CodecFail>
    ensures { (r : Record) → V.its_record item.now ≡ Some r → GivesJust (list_any (spec.check_holds far.now r) checks.now) result }
{
    for check in checks {
        if holds(alloc, check, item, far)? {
            return Ok(true);
        }
    }
    Ok(false)
}

/// Whether a plan's condition, if there is one, holds on a record, beside the records of the plan's branches. A value is made for each
/// test that is made.
///
/// # Errors
///
/// `Memory` if out of memory, `Damaged` never if there is a record.
pub fn check_holds<V: HasValues>(
    alloc: Global,
    check: &Option<Check>,
    item: &V,
    far: &[Option<Record>],
) -> Result<bool, CodecFail>
    ensures { (r : Record) → V.its_record item.now ≡ Some r → GivesJust (spec.takes check.now far.now r) result }
{
    match check {
        Some(check) => holds(alloc, check, item, far),
        None => Ok(true),
    }
}

//! Whether a formula holds of a record.

ghost use Rattle.std.specs.Prelude.{◌≡◌, Some, None, option_map};
ghost use Rattle.std.specs.Cmp.Lexicographic.{slice_cmp};
ghost use Rattle.std.specs.List.{list_all, list_any};
ghost use Rattle.std.specs.Ordering.{nat_cmp};
ghost use Rattle.formula.specs.Meaning as spec;
ghost use Rattle.formula.specs.Operands.{seen};
ghost use Rattle.base_value.specs.Values.{kind_place, same_value};

use crate::formula::{Formula, Record, Relation, Term};
use base_value::{Id, Text, Value, character_count};
use std::cmp::Ordering;

/// Numbers are counted in units of 10^-8.
const SCALE: i128 = 100_000_000;

/// A value that is compared, where it is kept.
#[derive(Clone, Copy)]
pub enum Operand<'a> {
    Null,
    Text(&'a Text),
    Num(i128),
    Day(i32),
    Moment(i64),
    Ref(&'a Id),
    Bool(bool),
}

fn operand_of(value: &Value) -> Operand
    ensures { seen result ≡ value.now }
{
    match value {
        Value::Null => Operand::Null,
        Value::Text(text) => Operand::Text(text),
        Value::Num(count) => Operand::Num(*count),
        Value::Bool(truth) => Operand::Bool(*truth),
        Value::Day(day) => Operand::Day(*day),
        Value::Moment(second) => Operand::Moment(*second),
        Value::Ref(id) => Operand::Ref(id),
    }
}

// What a record has at a position.
fn value_at(whose: &Record, position: u8) -> Operand
    ensures { seen result ≡ spec.value_at whose.now.values position }
{
    match whose.values.as_slice().get(usize::from(position)) {
        Some(value) => operand_of(value),
        None => Operand::Null,
    }
}

// How many characters a text has.
fn len(value: Operand) -> usize
    ensures { result ≡ spec.len (seen value.entry) }
{
    match value {
        Operand::Text(text) => character_count(text.as_str()),
        _ => 0,
    }
}

// A text, which is null where it is empty.
fn text_value(text: &Text) -> Operand
    ensures { seen result ≡ spec.text_value text.now }
{
    if character_count(text.as_str()) == 0 {
        Operand::Null
    } else {
        Operand::Text(text)
    }
}

fn value_of<'a>(term: &'a Term, new: &'a Record, old: Option<&'a Record>) -> Operand<'a>
    ensures { seen result ≡ spec.value_of term.now new.now.values (option_map (λ r. r.now.values) old.entry) }
{
    match term {
        Term::Field(position) => value_at(new, *position),
        Term::Num(count) => Operand::Num(*count),
        Term::Text(text) => text_value(text),
        Term::Len(position) => Operand::Num(len(value_at(new, *position)) as i128 * SCALE),
        Term::Prior(position) => value_at(old.unwrap_or(new), *position),
    }
}

// Whether two values are the same, texts character by character.
fn is_same(a: Operand, b: Operand) -> bool
    ensures { result ≡ same_value (seen a.entry) (seen b.entry) }
{
    match (a, b) {
        (Operand::Null, Operand::Null) => true,
        (Operand::Text(a), Operand::Text(b)) => a == b,
        (Operand::Num(a), Operand::Num(b)) => a == b,
        (Operand::Day(a), Operand::Day(b)) => a == b,
        (Operand::Moment(a), Operand::Moment(b)) => a == b,
        (Operand::Ref(a), Operand::Ref(b)) => a == b,
        (Operand::Bool(a), Operand::Bool(b)) => a == b,
        _ => false,
    }
}

// The place of a value's kind in the order of kinds.
fn kind_place(value: Operand) -> u8
    ensures { result ≡ kind_place (seen value.entry) }
{
    match value {
        Operand::Null => 0,
        Operand::Text(_) => 1,
        Operand::Num(_) => 2,
        Operand::Day(_) => 3,
        Operand::Moment(_) => 4,
        Operand::Ref(_) => 5,
        Operand::Bool(_) => 6,
    }
}

// The order of texts by the numbers of their characters, which is that of their bytes.
fn text_order(a: &Text, b: &Text) -> Ordering
    ensures { result ≡ slice_cmp nat_cmp a.now b.now }
{
    a.as_str().cmp(b.as_str())
}

// How two values that are there compare.
fn compared(a: Operand, b: Operand) -> Option<Ordering>
    ensures { result ≡ spec.compared (seen a.entry) (seen b.entry) }
{
    match (a, b) {
        (Operand::Null, _) => None,
        (_, Operand::Null) => None,
        (Operand::Text(a), Operand::Text(b)) => Some(text_order(a, b)),
        (Operand::Num(a), Operand::Num(b)) => Some(a.cmp(&b)),
        (Operand::Day(a), Operand::Day(b)) => Some(a.cmp(&b)),
        (Operand::Moment(a), Operand::Moment(b)) => Some(a.cmp(&b)),
        (Operand::Ref(a), Operand::Ref(b)) => Some(a.cmp(b)),
        (Operand::Bool(a), Operand::Bool(b)) => Some(a.cmp(&b)),
        _ => Some(kind_place(a).cmp(&kind_place(b))),
    }
}

fn relates(relation: Relation, a: Operand, b: Operand) -> bool
    ensures { result ≡ spec.relates relation (seen a.entry) (seen b.entry) }
{
    match relation {
        Relation::Equal => is_same(a, b),
        Relation::NotEqual => !is_same(a, b),
        Relation::Less => compared(a, b).is_some_and(|order| order.is_lt()),
        Relation::LessEqual => compared(a, b).is_some_and(|order| order.is_le()),
        Relation::Greater => compared(a, b).is_some_and(|order| order.is_gt()),
        Relation::GreaterEqual => compared(a, b).is_some_and(|order| order.is_ge()),
    }
}

// Whether the record was there before, and had another value at this position.
fn has_changed(position: u8, new: &Record, old: Option<&Record>) -> bool
    ensures { result ≡ spec.has_changed position new.now.values (option_map (λ r. r.now.values) old.entry) }
{
    match old {
        Some(old) => !is_same(value_at(new, position), value_at(old, position)),
        None => false,
    }
}

/// Whether a formula holds of a record, and of the one that it was before, if it was there.
///
/// A position at which the record has no value is null.
#[cycle(judging)]
pub fn holds(formula: &Formula, new: &Record, old: Option<&Record>) -> bool
    ensures { result ≡ spec.holds formula.now new.now.values (option_map (λ r. r.now.values) old.entry) }
{
    match formula {
        Formula::Const(truth) => *truth,
        Formula::IsNew => old.is_none(),
        Formula::Not(part) => !holds(part.get(), new, old),
        Formula::And(parts) => all_hold(parts.as_slice(), new, old),
        Formula::Or(parts) => some_hold(parts.as_slice(), new, old),
        Formula::IsBlank(position) => is_same(value_at(new, *position), Operand::Null),
        Formula::IsChanged(position) => has_changed(*position, new, old),
        Formula::IsPickval { field, value } => {
            is_same(value_at(new, *field), Operand::Text(value))
        }
        Formula::Compare {
            left,
            relation,
            right,
        } => relates(
            *relation,
            value_of(left, new, old),
            value_of(right, new, old),
        ),
    }
}

#[cycle(judging)]
fn all_hold(formulas: &[Formula], new: &Record, old: Option<&Record>) -> bool
    ensures { result ≡ list_all (λ f. spec.holds f new.now.values (option_map (λ r. r.now.values) old.entry)) formulas.now }
{
    for formula in formulas {
        if !holds(formula, new, old) {
            return false;
        }
    }
    true
}

#[cycle(judging)]
fn some_hold(formulas: &[Formula], new: &Record, old: Option<&Record>) -> bool
    ensures { result ≡ list_any (λ f. spec.holds f new.now.values (option_map (λ r. r.now.values) old.entry)) formulas.now }
{
    for formula in formulas {
        if holds(formula, new, old) {
            return true;
        }
    }
    false
}

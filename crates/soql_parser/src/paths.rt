//! Reading of paths, literals and tests from what the grammar sees of tokens.
//!
//! Each function reads one part of the grammar, and returns its value and the tokens behind it.

ghost use Rattle.std.specs.Prelude.{◌≡◌, ◌<◌, ◌≤◌, length, ◌∷◌, [], IfOk};
ghost use Rattle.base_grammar.specs.Reader as reader;
ghost use Rattle.base_grammar.specs.Reader.{Gives, with_front};
ghost use Rattle.soql.specs.grammar.Readers as spec;
ghost use Rattle.soql.specs.grammar.Signs.{kind};

use crate::values::{literal_in, name_in, operator_in, pattern_in};
use base_grammar::{Fail, begins_with, next, skip, taken};
use base_value::{Items, Text};
use soql::{Cond, LikePattern, Literal, Op, Path, Sign, SignKind};
use std::alloc::Global;

#[tactic(auto, unfolding(soql::specs::grammar::Readers::name))]
pub fn name(alloc: Global, signs: &[Sign]) -> Result<(Text, &[Sign]), Fail>
    ensures value { Gives (λ x. (x.0, x.1.now)) result (spec.name signs.now) }
    ensures shorter { IfOk result (λ x. length x.1.now < length signs.now) }
{
    match next(signs) {
        Some((sign, _)) => taken(name_in(alloc, sign)?, signs),
        None => Err(Fail::Stuck(0)),
    }
}

#[tactic(auto, unfolding(soql::specs::grammar::Readers::literal))]
fn literal(alloc: Global, signs: &[Sign]) -> Result<(Literal, &[Sign]), Fail>
    ensures value { Gives (λ x. (x.0, x.1.now)) result (spec.literal signs.now) }
    ensures shorter { IfOk result (λ x. length x.1.now < length signs.now) }
{
    match next(signs) {
        Some((sign, _)) => taken(literal_in(alloc, sign)?, signs),
        None => Err(Fail::Stuck(0)),
    }
}

#[tactic(auto, unfolding(soql::specs::grammar::Readers::operator))]
fn operator(signs: &[Sign]) -> Result<(Op, &[Sign]), Fail>
    ensures value { Gives (λ x. (x.0, x.1.now)) result (spec.operator signs.now) }
    ensures shorter { IfOk result (λ x. length x.1.now < length signs.now) }
{
    match next(signs) {
        Some((sign, _)) => taken(operator_in(sign), signs),
        None => Err(Fail::Stuck(0)),
    }
}

#[tactic(auto, unfolding(soql::specs::grammar::Readers::pattern))]
fn pattern(alloc: Global, signs: &[Sign]) -> Result<(LikePattern, &[Sign]), Fail>
    ensures value { Gives (λ x. (x.0, x.1.now)) result (spec.pattern signs.now) }
    ensures shorter { IfOk result (λ x. length x.1.now < length signs.now) }
{
    match next(signs) {
        Some((sign, _)) => taken(pattern_in(alloc, sign)?, signs),
        None => Err(Fail::Stuck(0)),
    }
}

// ---- paths

// One more, behind its token.
fn another_name(alloc: Global, signs: &[Sign]) -> Result<(Text, &[Sign]), Fail>
    ensures value { Gives (λ x. (x.0, x.1.now)) result (reader.after kind 29 spec.name signs.now) }
    ensures shorter { IfOk result (λ x. length x.1.now < length signs.now) }
{
    let rest = skip(signs, SignKind::Dot)?;
    name(alloc, rest)
}

// The names behind the first, at most 5.
fn more_names(
    alloc: Global,
    mut all: Items<Text>,
    signs: &[Sign],
) -> Result<(Items<Text>, &[Sign]), Fail>
    ensures value { Gives (λ x. (x.0, x.1.now)) result (with_front all (spec.more_names 5 signs.now)) }
    ensures shorter { IfOk result (λ x. length x.1.now ≤ length signs.now) }
{
    let mut rest = signs;
    let mut left: usize = 5;
    'items: while begins_with(rest, &[SignKind::Dot]) {
        if left == 0 {
            return Err(Fail::Stuck(rest.len()));
        }
        let (found, more) = another_name(alloc, rest)?;
        all.push(found)?;
        rest = more;
        left -= 1;
    }
    Ok((all, rest))
}

// From 1 to 6 names, with points between.
#[tactic(auto, unfolding(soql::specs::grammar::Readers::names))]
fn names(alloc: Global, signs: &[Sign]) -> Result<(Items<Text>, &[Sign]), Fail>
    ensures value { Gives (λ x. (x.0, x.1.now)) result (spec.names signs.now) }
    ensures shorter { IfOk result (λ x. length x.1.now < length signs.now) }
{
    let (first, rest) = name(alloc, signs)?;
    let mut all = Items::new(alloc);
    all.push(first)?;
    more_names(alloc, all, rest)
}

#[tactic(auto, unfolding(soql::specs::grammar::Readers::path))]
pub fn path(alloc: Global, signs: &[Sign]) -> Result<(Path, &[Sign]), Fail>
    ensures value { Gives (λ x. (x.0, x.1.now)) result (spec.path signs.now) }
    ensures shorter { IfOk result (λ x. length x.1.now < length signs.now) }
{
    let (names, rest) = names(alloc, signs)?;
    Ok((Path { names }, rest))
}

// ---- literals

// One more, behind its token.
fn another_literal(alloc: Global, signs: &[Sign]) -> Result<(Literal, &[Sign]), Fail>
    ensures value { Gives (λ x. (x.0, x.1.now)) result (reader.after kind 28 spec.literal signs.now) }
    ensures shorter { IfOk result (λ x. length x.1.now < length signs.now) }
{
    let rest = skip(signs, SignKind::Comma)?;
    literal(alloc, rest)
}

// The literals behind the first, at most 999.
fn more_literals(
    alloc: Global,
    mut all: Items<Literal>,
    signs: &[Sign],
) -> Result<(Items<Literal>, &[Sign]), Fail>
    ensures value { Gives (λ x. (x.0, x.1.now)) result (with_front all (spec.more_literals 999 signs.now)) }
    ensures shorter { IfOk result (λ x. length x.1.now ≤ length signs.now) }
{
    let mut rest = signs;
    let mut left: usize = 999;
    'items: while begins_with(rest, &[SignKind::Comma]) {
        if left == 0 {
            return Err(Fail::Stuck(rest.len()));
        }
        let (found, more) = another_literal(alloc, rest)?;
        all.push(found)?;
        rest = more;
        left -= 1;
    }
    Ok((all, rest))
}

// From 1 to 1,000 literals, with commas between.
#[tactic(auto, unfolding(soql::specs::grammar::Readers::literal_list))]
fn literal_list(alloc: Global, signs: &[Sign]) -> Result<(Items<Literal>, &[Sign]), Fail>
    ensures value { Gives (λ x. (x.0, x.1.now)) result (spec.literal_list signs.now) }
    ensures shorter { IfOk result (λ x. length x.1.now < length signs.now) }
{
    let (first, rest) = literal(alloc, signs)?;
    let mut all = Items::new(alloc);
    all.push(first)?;
    more_literals(alloc, all, rest)
}

#[tactic(auto, unfolding(soql::specs::grammar::Readers::literals))]
fn literals(alloc: Global, signs: &[Sign]) -> Result<(Items<Literal>, &[Sign]), Fail>
    ensures value { Gives (λ x. (x.0, x.1.now)) result (spec.literals signs.now) }
    ensures shorter { IfOk result (λ x. length x.1.now < length signs.now) }
{
    let rest = skip(signs, SignKind::Open)?;
    let (all, rest) = literal_list(alloc, rest)?;
    let rest = skip(rest, SignKind::Close)?;
    Ok((all, rest))
}

// ---- tests

#[tactic(auto, unfolding(soql::specs::grammar::Readers::comparison))]
fn comparison(alloc: Global, path: Path, signs: &[Sign]) -> Result<(Cond, &[Sign]), Fail>
    ensures value { Gives (λ x. (x.0, x.1.now)) result (spec.comparison path signs.now) }
    ensures shorter { IfOk result (λ x. length x.1.now < length signs.now) }
{
    let (op, rest) = operator(signs)?;
    let (literal, rest) = literal(alloc, rest)?;
    Ok((Cond::Test { path, op, literal }, rest))
}

#[tactic(auto, unfolding(soql::specs::grammar::Readers::likeness))]
fn likeness(alloc: Global, path: Path, signs: &[Sign]) -> Result<(Cond, &[Sign]), Fail>
    ensures value { Gives (λ x. (x.0, x.1.now)) result (spec.likeness path signs.now) }
    ensures shorter { IfOk result (λ x. length x.1.now < length signs.now) }
{
    let rest = skip(signs, SignKind::Like)?;
    let (pattern, rest) = pattern(alloc, rest)?;
    Ok((Cond::Like { path, pattern }, rest))
}

#[tactic(auto, unfolding(soql::specs::grammar::Readers::membership))]
fn membership(alloc: Global, path: Path, signs: &[Sign]) -> Result<(Cond, &[Sign]), Fail>
    ensures value { Gives (λ x. (x.0, x.1.now)) result (spec.membership path signs.now) }
    ensures shorter { IfOk result (λ x. length x.1.now < length signs.now) }
{
    let rest = skip(signs, SignKind::In)?;
    let (literals, rest) = literals(alloc, rest)?;
    let test = Cond::In {
        path,
        negated: false,
        literals,
    };
    Ok((test, rest))
}

#[tactic(auto, unfolding(soql::specs::grammar::Readers::exclusion))]
fn exclusion(alloc: Global, path: Path, signs: &[Sign]) -> Result<(Cond, &[Sign]), Fail>
    ensures value { Gives (λ x. (x.0, x.1.now)) result (spec.exclusion path signs.now) }
    ensures shorter { IfOk result (λ x. length x.1.now < length signs.now) }
{
    let rest = skip(signs, SignKind::Not)?;
    let rest = skip(rest, SignKind::In)?;
    let (literals, rest) = literals(alloc, rest)?;
    let test = Cond::In {
        path,
        negated: true,
        literals,
    };
    Ok((test, rest))
}

#[tactic(auto, unfolding(soql::specs::grammar::Readers::ending))]
fn ending(alloc: Global, path: Path, signs: &[Sign]) -> Result<(Cond, &[Sign]), Fail>
    ensures value { Gives (λ x. (x.0, x.1.now)) result (spec.ending path signs.now) }
    ensures shorter { IfOk result (λ x. length x.1.now < length signs.now) }
{
    if begins_with(signs, &[SignKind::Op]) {
        comparison(alloc, path, signs)
    } else if begins_with(signs, &[SignKind::Like]) {
        likeness(alloc, path, signs)
    } else if begins_with(signs, &[SignKind::In]) {
        membership(alloc, path, signs)
    } else {
        exclusion(alloc, path, signs)
    }
}

#[tactic(auto, unfolding(soql::specs::grammar::Readers::of_path))]
pub fn of_path(alloc: Global, signs: &[Sign]) -> Result<(Cond, &[Sign]), Fail>
    ensures value { Gives (λ x. (x.0, x.1.now)) result (spec.of_path signs.now) }
    ensures shorter { IfOk result (λ x. length x.1.now < length signs.now) }
{
    let (path, rest) = path(alloc, signs)?;
    ending(alloc, path, rest)
}

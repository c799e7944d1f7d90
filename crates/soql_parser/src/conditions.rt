//! Reading of conditions from what the grammar sees of tokens.

ghost use Rattle.std.specs.Prelude.{◌≡◌, ◌<◌, ◌≤◌, length, ◌∷◌, [], IfOk};
ghost use Rattle.base_grammar.specs.Reader as reader;
ghost use Rattle.base_grammar.specs.Reader.{Gives, with_front};
ghost use Rattle.soql.specs.grammar.Readers as spec;
ghost use Rattle.soql.specs.grammar.Signs.{kind, number};

use crate::paths::of_path;
use base_grammar::{Fail, begins_with, skip};
use base_value::{Boxed, Items};
use soql::{Cond, Sign, SignKind};
use std::alloc::Global;

// A unit, in which NOT and parentheses nest at most so many levels.
#[cycle(conditions)]
fn unit(alloc: Global, levels: usize, signs: &[Sign]) -> Result<(Cond, &[Sign]), Fail>
    ensures value { Gives (λ x. (x.0, x.1.now)) result (spec.unit levels signs.now) }
    ensures shorter { IfOk result (λ x. length x.1.now < length signs.now) }
{
    if levels == 0 {
        return of_path(alloc, signs);
    }
    inner(alloc, levels - 1, signs)
}

#[cycle(conditions)]
#[tactic(auto, unfolding(soql::specs::grammar::Readers::inner))]
fn inner(alloc: Global, levels: usize, signs: &[Sign]) -> Result<(Cond, &[Sign]), Fail>
    ensures value { Gives (λ x. (x.0, x.1.now)) result (spec.inner (spec.unit levels) signs.now) }
    ensures shorter { IfOk result (λ x. length x.1.now < length signs.now) }
{
    if begins_with(signs, &[SignKind::Not]) {
        negation(alloc, levels, signs)
    } else if begins_with(signs, &[SignKind::Open]) {
        group(alloc, levels, signs)
    } else {
        of_path(alloc, signs)
    }
}

#[cycle(conditions)]
#[tactic(auto, unfolding(soql::specs::grammar::Readers::negation))]
fn negation(alloc: Global, levels: usize, signs: &[Sign]) -> Result<(Cond, &[Sign]), Fail>
    ensures value { Gives (λ x. (x.0, x.1.now)) result (spec.negation (spec.unit levels) signs.now) }
    ensures shorter { IfOk result (λ x. length x.1.now < length signs.now) }
{
    let (within, rest) = another(alloc, levels, SignKind::Not, signs)?;
    Ok((Cond::Not(Boxed::new(alloc, within)?), rest))
}

// A condition in parentheses.
#[cycle(conditions)]
#[tactic(auto, unfolding(soql::specs::grammar::Readers::group))]
fn group(alloc: Global, levels: usize, signs: &[Sign]) -> Result<(Cond, &[Sign]), Fail>
    ensures value { Gives (λ x. (x.0, x.1.now)) result (spec.group (spec.unit levels) signs.now) }
    ensures shorter { IfOk result (λ x. length x.1.now < length signs.now) }
{
    let rest = skip(signs, SignKind::Open)?;
    let (within, rest) = cond_of(alloc, levels, rest)?;
    let rest = skip(rest, SignKind::Close)?;
    Ok((within, rest))
}

// A unit behind a word of this kind.
#[cycle(conditions)]
fn another(
    alloc: Global,
    levels: usize,
    word: SignKind,
    signs: &[Sign],
) -> Result<(Cond, &[Sign]), Fail>
    ensures value { Gives (λ x. (x.0, x.1.now)) result (reader.after kind (number word) (spec.unit levels) signs.now) }
    ensures shorter { IfOk result (λ x. length x.1.now < length signs.now) }
{
    let rest = skip(signs, word)?;
    unit(alloc, levels, rest)
}

// The units behind the first two, which AND or OR joins.
#[cycle(conditions)]
fn more_units(
    alloc: Global,
    levels: usize,
    word: SignKind,
    mut all: Items<Cond>,
    signs: &[Sign],
) -> Result<(Items<Cond>, &[Sign]), Fail>
    ensures value { Gives (λ x. (x.0, x.1.now)) result (with_front all (spec.more_units (spec.unit levels) (number word) signs.now)) }
    ensures shorter { IfOk result (λ x. length x.1.now ≤ length signs.now) }
{
    let mut rest = signs;
    'units: while begins_with(rest, &[word]) {
        let (found, more) = another(alloc, levels, word, rest)?;
        all.push(found)?;
        rest = more;
    }
    Ok((all, rest))
}

// The units that AND or OR joins.
#[cycle(conditions)]
#[tactic(auto, unfolding(soql::specs::grammar::Readers::joined))]
fn joined(
    alloc: Global,
    levels: usize,
    word: SignKind,
    first: Cond,
    signs: &[Sign],
) -> Result<(Items<Cond>, &[Sign]), Fail>
    ensures value { Gives (λ x. (x.0, x.1.now)) result (spec.joined (spec.unit levels) (number word) first signs.now) }
    ensures shorter { IfOk result (λ x. length x.1.now ≤ length signs.now) }
{
    let mut all = Items::new(alloc);
    all.push(first)?;
    let (second, rest) = another(alloc, levels, word, signs)?;
    all.push(second)?;
    more_units(alloc, levels, word, all, rest)
}

#[cycle(conditions)]
#[tactic(auto, unfolding(soql::specs::grammar::Readers::conjunction))]
fn conjunction(
    alloc: Global,
    levels: usize,
    first: Cond,
    signs: &[Sign],
) -> Result<(Cond, &[Sign]), Fail>
    ensures value { Gives (λ x. (x.0, x.1.now)) result (spec.conjunction (spec.unit levels) first signs.now) }
    ensures shorter { IfOk result (λ x. length x.1.now ≤ length signs.now) }
{
    let (all, rest) = joined(alloc, levels, SignKind::And, first, signs)?;
    Ok((Cond::And(all), rest))
}

#[cycle(conditions)]
#[tactic(auto, unfolding(soql::specs::grammar::Readers::disjunction))]
fn disjunction(
    alloc: Global,
    levels: usize,
    first: Cond,
    signs: &[Sign],
) -> Result<(Cond, &[Sign]), Fail>
    ensures value { Gives (λ x. (x.0, x.1.now)) result (spec.disjunction (spec.unit levels) first signs.now) }
    ensures shorter { IfOk result (λ x. length x.1.now ≤ length signs.now) }
{
    let (all, rest) = joined(alloc, levels, SignKind::Or, first, signs)?;
    Ok((Cond::Or(all), rest))
}

// The condition that a first unit and what is behind it make.
#[cycle(conditions)]
#[tactic(auto, unfolding(soql::specs::grammar::Readers::chain))]
fn chain(alloc: Global, levels: usize, first: Cond, signs: &[Sign]) -> Result<(Cond, &[Sign]), Fail>
    ensures value { Gives (λ x. (x.0, x.1.now)) result (spec.chain (spec.unit levels) first signs.now) }
    ensures shorter { IfOk result (λ x. length x.1.now ≤ length signs.now) }
{
    if begins_with(signs, &[SignKind::And]) {
        conjunction(alloc, levels, first, signs)
    } else if begins_with(signs, &[SignKind::Or]) {
        disjunction(alloc, levels, first, signs)
    } else {
        Ok((first, signs))
    }
}

// A condition whose units nest at most so many levels.
#[cycle(conditions)]
#[tactic(auto, unfolding(soql::specs::grammar::Readers::cond_of))]
fn cond_of(alloc: Global, levels: usize, signs: &[Sign]) -> Result<(Cond, &[Sign]), Fail>
    ensures value { Gives (λ x. (x.0, x.1.now)) result (spec.cond_of (spec.unit levels) signs.now) }
    ensures shorter { IfOk result (λ x. length x.1.now < length signs.now) }
{
    let (first, rest) = unit(alloc, levels, signs)?;
    chain(alloc, levels, first, rest)
}

/// A whole condition.
#[tactic(auto, unfolding(soql::specs::grammar::Readers::condition))]
pub fn condition(alloc: Global, signs: &[Sign]) -> Result<(Cond, &[Sign]), Fail>
    ensures value { Gives (λ x. (x.0, x.1.now)) result (spec.condition signs.now) }
    ensures shorter { IfOk result (λ x. length x.1.now < length signs.now) }
{
    cond_of(alloc, 32, signs)
}

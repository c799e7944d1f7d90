//! Reading of clauses from what the grammar sees of tokens.

ghost use Rattle.std.specs.Prelude.{◌≡◌, ◌<◌, ◌≤◌, length, ◌∷◌, [], IfOk};
ghost use Rattle.base_grammar.specs.Reader as reader;
ghost use Rattle.base_grammar.specs.Reader.{Gives, with_front};
ghost use Rattle.soql.specs.grammar.Readers as spec;
ghost use Rattle.soql.specs.grammar.Signs.{kind, number};

use crate::conditions::condition;
use crate::paths::{name, path};
use crate::values::{count_in, descending_in, last_in};
use base_grammar::{Fail, begins_with, next, skip, taken};
use base_value::{Items, Text};
use soql::{Cond, OrderKey, Path, Sign, SignKind, Tail};
use std::alloc::Global;

#[tactic(auto, unfolding(soql::specs::grammar::Readers::descending))]
fn descending(signs: &[Sign]) -> Result<(bool, &[Sign]), Fail>
    ensures value { Gives (λ x. (x.0, x.1.now)) result (spec.descending signs.now) }
    ensures shorter { IfOk result (λ x. length x.1.now < length signs.now) }
{
    match next(signs) {
        Some((sign, _)) => taken(descending_in(sign), signs),
        None => Err(Fail::Stuck(0)),
    }
}

#[tactic(auto, unfolding(soql::specs::grammar::Readers::last))]
fn last(signs: &[Sign]) -> Result<(bool, &[Sign]), Fail>
    ensures value { Gives (λ x. (x.0, x.1.now)) result (spec.last signs.now) }
    ensures shorter { IfOk result (λ x. length x.1.now < length signs.now) }
{
    match next(signs) {
        Some((sign, _)) => taken(last_in(sign), signs),
        None => Err(Fail::Stuck(0)),
    }
}

#[tactic(auto, unfolding(soql::specs::grammar::Readers::count))]
fn count(most: u32, signs: &[Sign]) -> Result<(u32, &[Sign]), Fail>
    ensures value { Gives (λ x. (x.0, x.1.now)) result (spec.count most signs.now) }
    ensures shorter { IfOk result (λ x. length x.1.now < length signs.now) }
{
    match next(signs) {
        Some((sign, _)) => taken(count_in(most, sign), signs),
        None => Err(Fail::Stuck(0)),
    }
}

// ---- keys

#[tactic(auto, unfolding(soql::specs::grammar::Readers::direction))]
fn direction(signs: &[Sign]) -> Result<(bool, &[Sign]), Fail>
    ensures value { Gives (λ x. (x.0, x.1.now)) result (spec.direction signs.now) }
    ensures shorter { IfOk result (λ x. length x.1.now ≤ length signs.now) }
{
    if begins_with(signs, &[SignKind::Descending]) {
        descending(signs)
    } else {
        Ok((false, signs))
    }
}

#[tactic(auto, unfolding(soql::specs::grammar::Readers::nulls))]
fn nulls(signs: &[Sign]) -> Result<(bool, &[Sign]), Fail>
    ensures value { Gives (λ x. (x.0, x.1.now)) result (spec.nulls signs.now) }
    ensures shorter { IfOk result (λ x. length x.1.now ≤ length signs.now) }
{
    if begins_with(signs, &[SignKind::Nulls]) {
        let rest = skip(signs, SignKind::Nulls)?;
        last(rest)
    } else {
        Ok((false, signs))
    }
}

#[tactic(auto, unfolding(soql::specs::grammar::Readers::directed))]
fn directed(alloc: Global, signs: &[Sign]) -> Result<((Path, bool), &[Sign]), Fail>
    ensures value { Gives (λ x. (x.0, x.1.now)) result (spec.directed signs.now) }
    ensures shorter { IfOk result (λ x. length x.1.now < length signs.now) }
{
    let (path, rest) = path(alloc, signs)?;
    let (descending, rest) = direction(rest)?;
    Ok(((path, descending), rest))
}

#[tactic(auto, unfolding(soql::specs::grammar::Readers::key))]
fn key(alloc: Global, signs: &[Sign]) -> Result<(OrderKey, &[Sign]), Fail>
    ensures value { Gives (λ x. (x.0, x.1.now)) result (spec.key signs.now) }
    ensures shorter { IfOk result (λ x. length x.1.now < length signs.now) }
{
    let ((path, descending), rest) = directed(alloc, signs)?;
    let (nulls_last, rest) = nulls(rest)?;
    let key = OrderKey {
        path,
        descending,
        nulls_last,
    };
    Ok((key, rest))
}

// One more, behind its token.
fn another_key(alloc: Global, signs: &[Sign]) -> Result<(OrderKey, &[Sign]), Fail>
    ensures value { Gives (λ x. (x.0, x.1.now)) result (reader.after kind 28 spec.key signs.now) }
    ensures shorter { IfOk result (λ x. length x.1.now < length signs.now) }
{
    let rest = skip(signs, SignKind::Comma)?;
    key(alloc, rest)
}

// The keys behind the first, at most 31.
fn more_keys(
    alloc: Global,
    mut all: Items<OrderKey>,
    signs: &[Sign],
) -> Result<(Items<OrderKey>, &[Sign]), Fail>
    ensures value { Gives (λ x. (x.0, x.1.now)) result (with_front all (spec.more_keys 31 signs.now)) }
    ensures shorter { IfOk result (λ x. length x.1.now ≤ length signs.now) }
{
    let mut rest = signs;
    let mut left: usize = 31;
    'items: while begins_with(rest, &[SignKind::Comma]) {
        if left == 0 {
            return Err(Fail::Stuck(rest.len()));
        }
        let (found, more) = another_key(alloc, rest)?;
        all.push(found)?;
        rest = more;
        left -= 1;
    }
    Ok((all, rest))
}

#[tactic(auto, unfolding(soql::specs::grammar::Readers::keys))]
fn keys(alloc: Global, signs: &[Sign]) -> Result<(Items<OrderKey>, &[Sign]), Fail>
    ensures value { Gives (λ x. (x.0, x.1.now)) result (spec.keys signs.now) }
    ensures shorter { IfOk result (λ x. length x.1.now < length signs.now) }
{
    let (first, rest) = key(alloc, signs)?;
    let mut all = Items::new(alloc);
    all.push(first)?;
    more_keys(alloc, all, rest)
}

#[tactic(auto, unfolding(soql::specs::grammar::Readers::ordering))]
fn ordering(alloc: Global, signs: &[Sign]) -> Result<(Items<OrderKey>, &[Sign]), Fail>
    ensures value { Gives (λ x. (x.0, x.1.now)) result (spec.ordering signs.now) }
    ensures shorter { IfOk result (λ x. length x.1.now ≤ length signs.now) }
{
    if begins_with(signs, &[SignKind::Order]) {
        let rest = skip(signs, SignKind::Order)?;
        let rest = skip(rest, SignKind::By)?;
        keys(alloc, rest)
    } else {
        Ok((Items::new(alloc), signs))
    }
}

// ---- clauses

#[tactic(auto, unfolding(soql::specs::grammar::Readers::filtered))]
fn filtered(alloc: Global, signs: &[Sign]) -> Result<(Option<Cond>, &[Sign]), Fail>
    ensures value { Gives (λ x. (x.0, x.1.now)) result (spec.filtered signs.now) }
    ensures shorter { IfOk result (λ x. length x.1.now < length signs.now) }
{
    let rest = skip(signs, SignKind::Where)?;
    let (condition, rest) = condition(alloc, rest)?;
    Ok((Some(condition), rest))
}

#[tactic(auto, unfolding(soql::specs::grammar::Readers::filter))]
fn filter(alloc: Global, signs: &[Sign]) -> Result<(Option<Cond>, &[Sign]), Fail>
    ensures value { Gives (λ x. (x.0, x.1.now)) result (spec.filter signs.now) }
    ensures shorter { IfOk result (λ x. length x.1.now ≤ length signs.now) }
{
    if begins_with(signs, &[SignKind::Where]) {
        filtered(alloc, signs)
    } else {
        Ok((None, signs))
    }
}

// A number behind a word of this kind.
#[tactic(auto, unfolding(soql::specs::grammar::Readers::counted))]
fn counted(word: SignKind, most: u32, signs: &[Sign]) -> Result<(Option<u32>, &[Sign]), Fail>
    ensures value { Gives (λ x. (x.0, x.1.now)) result (spec.counted (number word) most signs.now) }
    ensures shorter { IfOk result (λ x. length x.1.now < length signs.now) }
{
    let rest = skip(signs, word)?;
    let (count, rest) = count(most, rest)?;
    Ok((Some(count), rest))
}

#[tactic(auto, unfolding(soql::specs::grammar::Readers::limit))]
fn limit(signs: &[Sign]) -> Result<(Option<u32>, &[Sign]), Fail>
    ensures value { Gives (λ x. (x.0, x.1.now)) result (spec.limit signs.now) }
    ensures shorter { IfOk result (λ x. length x.1.now ≤ length signs.now) }
{
    if begins_with(signs, &[SignKind::Limit]) {
        counted(SignKind::Limit, 50_000, signs)
    } else {
        Ok((None, signs))
    }
}

#[tactic(auto, unfolding(soql::specs::grammar::Readers::sourced))]
fn sourced(alloc: Global, signs: &[Sign]) -> Result<((Text, Option<Cond>), &[Sign]), Fail>
    ensures value { Gives (λ x. (x.0, x.1.now)) result (spec.sourced signs.now) }
    ensures shorter { IfOk result (λ x. length x.1.now < length signs.now) }
{
    let rest = skip(signs, SignKind::From)?;
    let (from, rest) = name(alloc, rest)?;
    let (condition, rest) = filter(alloc, rest)?;
    Ok(((from, condition), rest))
}

#[tactic(auto, unfolding(soql::specs::grammar::Readers::ordered))]
fn ordered(
    alloc: Global,
    signs: &[Sign],
) -> Result<(((Text, Option<Cond>), Items<OrderKey>), &[Sign]), Fail>
    ensures value { Gives (λ x. (x.0, x.1.now)) result (spec.ordered signs.now) }
    ensures shorter { IfOk result (λ x. length x.1.now < length signs.now) }
{
    let (source, rest) = sourced(alloc, signs)?;
    let (order, rest) = ordering(alloc, rest)?;
    Ok(((source, order), rest))
}

/// Where rows come from, which they are and in which order.
#[tactic(auto, unfolding(soql::specs::grammar::Readers::tail))]
pub fn tail(alloc: Global, signs: &[Sign]) -> Result<(Tail, &[Sign]), Fail>
    ensures value { Gives (λ x. (x.0, x.1.now)) result (spec.tail signs.now) }
    ensures shorter { IfOk result (λ x. length x.1.now < length signs.now) }
{
    let (((from, condition), order), rest) = ordered(alloc, signs)?;
    let (limit, rest) = limit(rest)?;
    let tail = Tail {
        from,
        condition,
        order,
        limit,
    };
    Ok((tail, rest))
}

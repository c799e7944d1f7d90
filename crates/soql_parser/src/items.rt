//! Reading of items and whole queries from what the grammar sees of tokens.

ghost use Rattle.std.specs.Prelude.{◌≡◌, ◌<◌, ◌≤◌, length, ◌∷◌, [], IfOk};
ghost use Rattle.base_grammar.specs.Reader as reader;
ghost use Rattle.base_grammar.specs.Reader.{Gives, with_front};
ghost use Rattle.soql.specs.grammar.Readers as spec;
ghost use Rattle.soql.specs.grammar.Signs.{kind};
ghost use Rattle.soql.specs.grammar.Grammar.{left_behind};

use crate::clauses::tail;
use crate::paths::path;
use crate::values::small_count;
use base_grammar::{Fail, begins_with, next, skip, taken};
use base_value::Items;
use soql::{Item, Path, Query, Sign, SignKind, Tail};
use std::alloc::Global;

// ---- children

// One more, behind its token.
fn another_path(alloc: Global, signs: &[Sign]) -> Result<(Path, &[Sign]), Fail>
    ensures value { Gives (λ x. (x.0, x.1.now)) result (reader.after kind 28 spec.path signs.now) }
    ensures shorter { IfOk result (λ x. length x.1.now < length signs.now) }
{
    let rest = skip(signs, SignKind::Comma)?;
    path(alloc, rest)
}

// The paths behind the first.
fn more_paths(
    alloc: Global,
    mut all: Items<Path>,
    signs: &[Sign],
) -> Result<(Items<Path>, &[Sign]), Fail>
    ensures value { Gives (λ x. (x.0, x.1.now)) result (with_front all (spec.more_paths signs.now)) }
    ensures shorter { IfOk result (λ x. length x.1.now ≤ length signs.now) }
{
    let mut rest = signs;
    'items: while begins_with(rest, &[SignKind::Comma]) {
        let (found, more) = another_path(alloc, rest)?;
        all.push(found)?;
        rest = more;
    }
    Ok((all, rest))
}

#[tactic(auto, unfolding(soql::specs::grammar::Readers::paths))]
fn paths(alloc: Global, signs: &[Sign]) -> Result<(Items<Path>, &[Sign]), Fail>
    ensures value { Gives (λ x. (x.0, x.1.now)) result (spec.paths signs.now) }
    ensures shorter { IfOk result (λ x. length x.1.now < length signs.now) }
{
    let (first, rest) = path(alloc, signs)?;
    let mut all = Items::new(alloc);
    all.push(first)?;
    more_paths(alloc, all, rest)
}

#[tactic(auto, unfolding(soql::specs::grammar::Readers::within_child))]
fn within_child(alloc: Global, signs: &[Sign]) -> Result<(Item, &[Sign]), Fail>
    ensures value { Gives (λ x. (x.0, x.1.now)) result (spec.within_child signs.now) }
    ensures shorter { IfOk result (λ x. length x.1.now < length signs.now) }
{
    let rest = skip(signs, SignKind::Select)?;
    let (paths, rest) = paths(alloc, rest)?;
    let (tail, rest) = tail(alloc, rest)?;
    Ok((Item::Child { paths, tail }, rest))
}

#[tactic(auto, unfolding(soql::specs::grammar::Readers::child))]
fn child(alloc: Global, signs: &[Sign]) -> Result<(Item, &[Sign]), Fail>
    ensures value { Gives (λ x. (x.0, x.1.now)) result (spec.child signs.now) }
    ensures shorter { IfOk result (λ x. length x.1.now < length signs.now) }
{
    let rest = skip(signs, SignKind::Open)?;
    let (item, rest) = within_child(alloc, rest)?;
    let rest = skip(rest, SignKind::Close)?;
    Ok((item, rest))
}

// ---- items

#[tactic(auto, unfolding(soql::specs::grammar::Readers::path_item))]
fn path_item(alloc: Global, signs: &[Sign]) -> Result<(Item, &[Sign]), Fail>
    ensures value { Gives (λ x. (x.0, x.1.now)) result (spec.path_item signs.now) }
    ensures shorter { IfOk result (λ x. length x.1.now < length signs.now) }
{
    let (path, rest) = path(alloc, signs)?;
    Ok((Item::Path(path), rest))
}

#[tactic(auto, unfolding(soql::specs::grammar::Readers::any_item))]
fn any_item(alloc: Global, signs: &[Sign]) -> Result<(Item, &[Sign]), Fail>
    ensures value { Gives (λ x. (x.0, x.1.now)) result (spec.any_item signs.now) }
    ensures shorter { IfOk result (λ x. length x.1.now < length signs.now) }
{
    if begins_with(
        signs,
        &[
            SignKind::Name,
            SignKind::Today,
            SignKind::Yesterday,
            SignKind::Tomorrow,
        ],
    ) {
        path_item(alloc, signs)
    } else {
        child(alloc, signs)
    }
}

// An item, if so many children are left.
fn item_of(alloc: Global, left: usize, signs: &[Sign]) -> Result<(Item, &[Sign]), Fail>
    ensures value { Gives (λ x. (x.0, x.1.now)) result (spec.item_of left signs.now) }
    ensures shorter { IfOk result (λ x. length x.1.now < length signs.now) }
{
    if left == 0 {
        return path_item(alloc, signs);
    }
    any_item(alloc, signs)
}

// How many children are left behind an item.
fn left_behind(left: usize, item: &Item) -> usize
    ensures { result ≡ left_behind left item.now }
{
    match item {
        Item::Path(_) => left,
        Item::Child { .. } => left.saturating_sub(1),
    }
}

// A comma and an item.
fn another_item(alloc: Global, left: usize, signs: &[Sign]) -> Result<(Item, &[Sign]), Fail>
    ensures value { Gives (λ x. (x.0, x.1.now)) result (reader.after kind 28 (spec.item_of left) signs.now) }
    ensures shorter { IfOk result (λ x. length x.1.now < length signs.now) }
{
    let rest = skip(signs, SignKind::Comma)?;
    item_of(alloc, left, rest)
}

// The items behind the first, if so many children are left.
fn more_items(
    alloc: Global,
    children: usize,
    mut all: Items<Item>,
    signs: &[Sign],
) -> Result<(Items<Item>, &[Sign]), Fail>
    ensures value { Gives (λ x. (x.0, x.1.now)) result (with_front all (spec.more_items children signs.now)) }
    ensures shorter { IfOk result (λ x. length x.1.now ≤ length signs.now) }
{
    let mut rest = signs;
    let mut left = children;
    'items: while begins_with(rest, &[SignKind::Comma]) {
        let (found, more) = another_item(alloc, left, rest)?;
        left = left_behind(left, &found);
        all.push(found)?;
        rest = more;
    }
    Ok((all, rest))
}

#[tactic(auto, unfolding(soql::specs::grammar::Readers::items))]
fn items(alloc: Global, signs: &[Sign]) -> Result<(Items<Item>, &[Sign]), Fail>
    ensures value { Gives (λ x. (x.0, x.1.now)) result (spec.items signs.now) }
    ensures shorter { IfOk result (λ x. length x.1.now < length signs.now) }
{
    let (first, rest) = item_of(alloc, 20, signs)?;
    let left = left_behind(20, &first);
    let mut all = Items::new(alloc);
    all.push(first)?;
    more_items(alloc, left, all, rest)
}

// ---- queries

#[tactic(auto, unfolding(soql::specs::grammar::Readers::selected))]
fn selected(alloc: Global, signs: &[Sign]) -> Result<((Items<Item>, Tail), &[Sign]), Fail>
    ensures value { Gives (λ x. (x.0, x.1.now)) result (spec.selected signs.now) }
    ensures shorter { IfOk result (λ x. length x.1.now < length signs.now) }
{
    let rest = skip(signs, SignKind::Select)?;
    let (select, rest) = items(alloc, rest)?;
    let (tail, rest) = tail(alloc, rest)?;
    Ok(((select, tail), rest))
}

// A number of rows that are left out, at most 2,000.
#[tactic(auto, unfolding(soql::specs::grammar::Readers::count))]
fn left_out(signs: &[Sign]) -> Result<(u16, &[Sign]), Fail>
    ensures value { Gives (λ x. (x.0, x.1.now)) result (spec.count 2000 signs.now) }
    ensures shorter { IfOk result (λ x. length x.1.now < length signs.now) }
{
    match next(signs) {
        Some((sign, _)) => taken(small_count(sign), signs),
        None => Err(Fail::Stuck(0)),
    }
}

#[tactic(auto, unfolding(soql::specs::grammar::Readers::offset, soql::specs::grammar::Readers::counted))]
fn offset(signs: &[Sign]) -> Result<(Option<u16>, &[Sign]), Fail>
    ensures value { Gives (λ x. (x.0, x.1.now)) result (spec.offset signs.now) }
    ensures shorter { IfOk result (λ x. length x.1.now ≤ length signs.now) }
{
    if begins_with(signs, &[SignKind::Offset]) {
        let rest = skip(signs, SignKind::Offset)?;
        let (count, rest) = left_out(rest)?;
        Ok((Some(count), rest))
    } else {
        Ok((None, signs))
    }
}

/// A whole query.
#[tactic(auto, unfolding(soql::specs::grammar::Readers::whole))]
pub fn whole(alloc: Global, signs: &[Sign]) -> Result<(Query, &[Sign]), Fail>
    ensures { Gives (λ x. (x.0, x.1.now)) result (spec.whole signs.now) }
{
    let ((select, tail), rest) = selected(alloc, signs)?;
    let (offset, rest) = offset(rest)?;
    let query = Query {
        select,
        tail,
        offset,
    };
    Ok((query, rest))
}

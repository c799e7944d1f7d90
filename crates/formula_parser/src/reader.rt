//! Reading of formulas from what the grammar sees of tokens.
//!
//! Each function reads one part of the grammar, and returns its value and the tokens behind it.

ghost use Rattle.std.specs.Prelude.{◌≡◌, ◌<◌, ◌≤◌, length, ◌∷◌, [], IfOk};
ghost use Rattle.formula.specs.grammar.Reading as spec;
ghost use Rattle.formula.specs.grammar.Signs.{kind};
ghost use Rattle.base_grammar.specs.Reader as reader;
ghost use Rattle.base_grammar.specs.Reader.{Gives, with_front};

use crate::values::{
    field_in, is_len, measured_in, picklist_in, prior_in, relation_in, simple_in, text_in, truth_in,
};
use base_grammar::{Fail, begins_with, next, skip, taken};
use base_value::{Boxed, Items, Text};
use formula::{Formula, Kind, Relation, Sign, SignKind, Term};
use std::alloc::Global;

// A field of any type.
#[tactic(auto, unfolding(formula::specs::grammar::Reading::field))]
fn field(signs: &[Sign]) -> Result<(u8, &[Sign]), Fail>
    ensures value { Gives (λ x. (x.0, x.1.now)) result (spec.field signs.now) }
    ensures shorter { IfOk result (λ x. length x.1.now < length signs.now) }
{
    match next(signs) {
        Some((sign, _)) => taken(field_in(sign), signs),
        None => Err(Fail::Stuck(0)),
    }
}

#[tactic(auto, unfolding(formula::specs::grammar::Reading::picklist))]
fn picklist(signs: &[Sign]) -> Result<(u8, &[Sign]), Fail>
    ensures value { Gives (λ x. (x.0, x.1.now)) result (spec.picklist signs.now) }
    ensures shorter { IfOk result (λ x. length x.1.now < length signs.now) }
{
    match next(signs) {
        Some((sign, _)) => taken(picklist_in(sign), signs),
        None => Err(Fail::Stuck(0)),
    }
}

// A field that has a length.
#[tactic(auto, unfolding(formula::specs::grammar::Reading::measured))]
fn measured(signs: &[Sign]) -> Result<(u8, &[Sign]), Fail>
    ensures value { Gives (λ x. (x.0, x.1.now)) result (spec.measured signs.now) }
    ensures shorter { IfOk result (λ x. length x.1.now < length signs.now) }
{
    match next(signs) {
        Some((sign, _)) => taken(measured_in(sign), signs),
        None => Err(Fail::Stuck(0)),
    }
}

#[tactic(auto, unfolding(formula::specs::grammar::Reading::text))]
fn text(alloc: Global, signs: &[Sign]) -> Result<(Text, &[Sign]), Fail>
    ensures value { Gives (λ x. (x.0, x.1.now)) result (spec.text signs.now) }
    ensures shorter { IfOk result (λ x. length x.1.now < length signs.now) }
{
    match next(signs) {
        Some((sign, _)) => taken(text_in(alloc, sign)?, signs),
        None => Err(Fail::Stuck(0)),
    }
}

#[tactic(auto, unfolding(formula::specs::grammar::Reading::relation))]
fn relation(signs: &[Sign]) -> Result<(Relation, &[Sign]), Fail>
    ensures value { Gives (λ x. (x.0, x.1.now)) result (spec.relation signs.now) }
    ensures shorter { IfOk result (λ x. length x.1.now < length signs.now) }
{
    match next(signs) {
        Some((sign, _)) => taken(relation_in(sign), signs),
        None => Err(Fail::Stuck(0)),
    }
}

// A field, a number or a text as a term, with its kind.
#[tactic(auto, unfolding(formula::specs::grammar::Reading::simple))]
fn simple(
    alloc: Global,
    wanted: Option<Kind>,
    signs: &[Sign],
) -> Result<((Term, Kind), &[Sign]), Fail>
    ensures value { Gives (λ x. (x.0, x.1.now)) result (spec.simple wanted signs.now) }
    ensures shorter { IfOk result (λ x. length x.1.now < length signs.now) }
{
    match next(signs) {
        Some((sign, _)) => taken(simple_in(alloc, wanted, sign)?, signs),
        None => Err(Fail::Stuck(0)),
    }
}

// The tokens behind LEN, where a number suits.
#[tactic(auto, unfolding(formula::specs::grammar::Reading::len_word))]
fn len_word(wanted: Option<Kind>, signs: &[Sign]) -> Result<&[Sign], Fail>
    ensures value { Gives (λ rest. (tt, rest.now)) result (spec.len_word wanted signs.now) }
    ensures shorter { IfOk result (λ rest. length rest.now < length signs.now) }
{
    match next(signs) {
        Some((sign, rest)) => {
            if is_len(wanted, sign) {
                Ok(rest)
            } else {
                Err(Fail::Stuck(signs.len()))
            }
        }
        None => Err(Fail::Stuck(0)),
    }
}

// A field within PRIORVALUE.
#[tactic(auto, unfolding(formula::specs::grammar::Reading::prior_field))]
fn prior_field(wanted: Option<Kind>, signs: &[Sign]) -> Result<((Term, Kind), &[Sign]), Fail>
    ensures value { Gives (λ x. (x.0, x.1.now)) result (spec.prior_field wanted signs.now) }
    ensures shorter { IfOk result (λ x. length x.1.now < length signs.now) }
{
    match next(signs) {
        Some((sign, _)) => taken(prior_in(wanted, sign), signs),
        None => Err(Fail::Stuck(0)),
    }
}

#[tactic(auto, unfolding(formula::specs::grammar::Reading::length_term))]
fn length_term(wanted: Option<Kind>, signs: &[Sign]) -> Result<((Term, Kind), &[Sign]), Fail>
    ensures value { Gives (λ x. (x.0, x.1.now)) result (spec.length_term wanted signs.now) }
    ensures shorter { IfOk result (λ x. length x.1.now < length signs.now) }
{
    let rest = len_word(wanted, signs)?;
    let rest = skip(rest, SignKind::Open)?;
    let (position, rest) = measured(rest)?;
    let rest = skip(rest, SignKind::Close)?;
    Ok(((Term::Len(position), Kind::Number), rest))
}

#[tactic(auto, unfolding(formula::specs::grammar::Reading::prior_term))]
fn prior_term(wanted: Option<Kind>, signs: &[Sign]) -> Result<((Term, Kind), &[Sign]), Fail>
    ensures value { Gives (λ x. (x.0, x.1.now)) result (spec.prior_term wanted signs.now) }
    ensures shorter { IfOk result (λ x. length x.1.now < length signs.now) }
{
    let rest = skip(signs, SignKind::Prior)?;
    let rest = skip(rest, SignKind::Open)?;
    let (term, rest) = prior_field(wanted, rest)?;
    let rest = skip(rest, SignKind::Close)?;
    Ok((term, rest))
}

// A term of the kind that is wanted, or of any, with its kind.
#[tactic(auto, unfolding(formula::specs::grammar::Reading::term_of))]
fn term_of(
    alloc: Global,
    wanted: Option<Kind>,
    signs: &[Sign],
) -> Result<((Term, Kind), &[Sign]), Fail>
    ensures value { Gives (λ x. (x.0, x.1.now)) result (spec.term_of wanted signs.now) }
    ensures shorter { IfOk result (λ x. length x.1.now < length signs.now) }
{
    if begins_with(signs, &[SignKind::Field, SignKind::Number, SignKind::Text]) {
        simple(alloc, wanted, signs)
    } else if begins_with(signs, &[SignKind::Len]) {
        length_term(wanted, signs)
    } else {
        prior_term(wanted, signs)
    }
}

// A relation, and a term of this kind.
#[tactic(auto, unfolding(formula::specs::grammar::Reading::ending))]
fn ending(alloc: Global, left: Kind, signs: &[Sign]) -> Result<((Relation, Term), &[Sign]), Fail>
    ensures value { (term : Term) → Gives (λ x. (x.0, x.1.now)) result (spec.ending (term, left) signs.now) }
    ensures shorter { IfOk result (λ x. length x.1.now < length signs.now) }
{
    let (relation, rest) = relation(signs)?;
    let ((right, _), rest) = term_of(alloc, Some(left), rest)?;
    Ok(((relation, right), rest))
}

#[tactic(auto, unfolding(formula::specs::grammar::Reading::comparison))]
fn comparison(alloc: Global, signs: &[Sign]) -> Result<(Formula, &[Sign]), Fail>
    ensures value { Gives (λ x. (x.0, x.1.now)) result (spec.comparison signs.now) }
    ensures shorter { IfOk result (λ x. length x.1.now < length signs.now) }
{
    let ((left, kind), rest) = term_of(alloc, None, signs)?;
    let ((relation, right), rest) = ending(alloc, kind, rest)?;
    let compared = Formula::Compare {
        left,
        relation,
        right,
    };
    Ok((compared, rest))
}

// ---- formulas without formulas within them

#[tactic(auto, unfolding(formula::specs::grammar::Reading::truth))]
fn truth(signs: &[Sign]) -> Result<(Formula, &[Sign]), Fail>
    ensures value { Gives (λ x. (x.0, x.1.now)) result (spec.truth signs.now) }
    ensures shorter { IfOk result (λ x. length x.1.now < length signs.now) }
{
    match next(signs) {
        Some((sign, rest)) => match truth_in(sign) {
            Some(truth) => Ok((Formula::Const(truth), rest)),
            None => Err(Fail::Stuck(signs.len())),
        },
        None => Err(Fail::Stuck(0)),
    }
}

#[tactic(auto, unfolding(formula::specs::grammar::Reading::is_new))]
fn is_new(signs: &[Sign]) -> Result<(Formula, &[Sign]), Fail>
    ensures value { Gives (λ x. (x.0, x.1.now)) result (spec.is_new signs.now) }
    ensures shorter { IfOk result (λ x. length x.1.now < length signs.now) }
{
    let rest = skip(signs, SignKind::IsNew)?;
    let rest = skip(rest, SignKind::Open)?;
    let rest = skip(rest, SignKind::Close)?;
    Ok((Formula::IsNew, rest))
}

#[tactic(auto, unfolding(formula::specs::grammar::Reading::is_blank))]
fn is_blank(signs: &[Sign]) -> Result<(Formula, &[Sign]), Fail>
    ensures value { Gives (λ x. (x.0, x.1.now)) result (spec.is_blank signs.now) }
    ensures shorter { IfOk result (λ x. length x.1.now < length signs.now) }
{
    let rest = skip(signs, SignKind::IsBlank)?;
    let rest = skip(rest, SignKind::Open)?;
    let (position, rest) = field(rest)?;
    let rest = skip(rest, SignKind::Close)?;
    Ok((Formula::IsBlank(position), rest))
}

#[tactic(auto, unfolding(formula::specs::grammar::Reading::is_changed))]
fn is_changed(signs: &[Sign]) -> Result<(Formula, &[Sign]), Fail>
    ensures value { Gives (λ x. (x.0, x.1.now)) result (spec.is_changed signs.now) }
    ensures shorter { IfOk result (λ x. length x.1.now < length signs.now) }
{
    let rest = skip(signs, SignKind::IsChanged)?;
    let rest = skip(rest, SignKind::Open)?;
    let (position, rest) = field(rest)?;
    let rest = skip(rest, SignKind::Close)?;
    Ok((Formula::IsChanged(position), rest))
}

// A picklist and one of its values.
#[tactic(auto, unfolding(formula::specs::grammar::Reading::choice))]
fn choice(alloc: Global, signs: &[Sign]) -> Result<((u8, Text), &[Sign]), Fail>
    ensures value { Gives (λ x. (x.0, x.1.now)) result (spec.choice signs.now) }
    ensures shorter { IfOk result (λ x. length x.1.now < length signs.now) }
{
    let (field, rest) = picklist(signs)?;
    let rest = skip(rest, SignKind::Comma)?;
    let (value, rest) = text(alloc, rest)?;
    Ok(((field, value), rest))
}

#[tactic(auto, unfolding(formula::specs::grammar::Reading::is_pickval))]
fn is_pickval(alloc: Global, signs: &[Sign]) -> Result<(Formula, &[Sign]), Fail>
    ensures value { Gives (λ x. (x.0, x.1.now)) result (spec.is_pickval signs.now) }
    ensures shorter { IfOk result (λ x. length x.1.now < length signs.now) }
{
    let rest = skip(signs, SignKind::IsPickval)?;
    let rest = skip(rest, SignKind::Open)?;
    let ((field, value), rest) = choice(alloc, rest)?;
    let rest = skip(rest, SignKind::Close)?;
    Ok((Formula::IsPickval { field, value }, rest))
}

#[tactic(auto, unfolding(formula::specs::grammar::Reading::of_fields))]
fn of_fields(alloc: Global, signs: &[Sign]) -> Result<(Formula, &[Sign]), Fail>
    ensures value { Gives (λ x. (x.0, x.1.now)) result (spec.of_fields signs.now) }
    ensures shorter { IfOk result (λ x. length x.1.now < length signs.now) }
{
    if begins_with(signs, &[SignKind::IsBlank]) {
        is_blank(signs)
    } else if begins_with(signs, &[SignKind::IsChanged]) {
        is_changed(signs)
    } else if begins_with(signs, &[SignKind::IsPickval]) {
        is_pickval(alloc, signs)
    } else {
        comparison(alloc, signs)
    }
}

#[tactic(auto, unfolding(formula::specs::grammar::Reading::plain))]
fn plain(alloc: Global, signs: &[Sign]) -> Result<(Formula, &[Sign]), Fail>
    ensures value { Gives (λ x. (x.0, x.1.now)) result (spec.plain signs.now) }
    ensures shorter { IfOk result (λ x. length x.1.now < length signs.now) }
{
    if begins_with(signs, &[SignKind::Truth]) {
        truth(signs)
    } else if begins_with(signs, &[SignKind::IsNew]) {
        is_new(signs)
    } else {
        of_fields(alloc, signs)
    }
}

// ---- formulas with formulas within them

// A formula in which NOT, AND and OR nest at most so many levels.
#[cycle(formulas)]
fn nested(alloc: Global, levels: usize, signs: &[Sign]) -> Result<(Formula, &[Sign]), Fail>
    ensures value { Gives (λ x. (x.0, x.1.now)) result (spec.nested levels signs.now) }
    ensures shorter { IfOk result (λ x. length x.1.now < length signs.now) }
{
    if levels == 0 {
        return plain(alloc, signs);
    }
    formula_over(alloc, levels - 1, signs)
}

// A formula in which the formulas within it have at most so many levels.
#[cycle(formulas)]
#[tactic(auto, unfolding(formula::specs::grammar::Reading::formula_over))]
fn formula_over(alloc: Global, levels: usize, signs: &[Sign]) -> Result<(Formula, &[Sign]), Fail>
    ensures value { Gives (λ x. (x.0, x.1.now)) result (spec.formula_over (spec.nested levels) signs.now) }
    ensures shorter { IfOk result (λ x. length x.1.now < length signs.now) }
{
    if begins_with(signs, &[SignKind::Not]) {
        negation(alloc, levels, signs)
    } else if begins_with(signs, &[SignKind::And]) {
        conjunction(alloc, levels, signs)
    } else if begins_with(signs, &[SignKind::Or]) {
        disjunction(alloc, levels, signs)
    } else {
        plain(alloc, signs)
    }
}

#[cycle(formulas)]
#[tactic(auto, unfolding(formula::specs::grammar::Reading::negation))]
fn negation(alloc: Global, levels: usize, signs: &[Sign]) -> Result<(Formula, &[Sign]), Fail>
    ensures value { Gives (λ x. (x.0, x.1.now)) result (spec.negation (spec.nested levels) signs.now) }
    ensures shorter { IfOk result (λ x. length x.1.now < length signs.now) }
{
    let rest = skip(signs, SignKind::Not)?;
    let rest = skip(rest, SignKind::Open)?;
    let (within, rest) = nested(alloc, levels, rest)?;
    let rest = skip(rest, SignKind::Close)?;
    Ok((Formula::Not(Boxed::new(alloc, within)?), rest))
}

#[cycle(formulas)]
#[tactic(auto, unfolding(formula::specs::grammar::Reading::conjunction))]
fn conjunction(alloc: Global, levels: usize, signs: &[Sign]) -> Result<(Formula, &[Sign]), Fail>
    ensures value { Gives (λ x. (x.0, x.1.now)) result (spec.conjunction (spec.nested levels) signs.now) }
    ensures shorter { IfOk result (λ x. length x.1.now < length signs.now) }
{
    let rest = skip(signs, SignKind::And)?;
    let rest = skip(rest, SignKind::Open)?;
    let (all, rest) = formulas(alloc, levels, rest)?;
    let rest = skip(rest, SignKind::Close)?;
    Ok((Formula::And(all), rest))
}

#[cycle(formulas)]
#[tactic(auto, unfolding(formula::specs::grammar::Reading::disjunction))]
fn disjunction(alloc: Global, levels: usize, signs: &[Sign]) -> Result<(Formula, &[Sign]), Fail>
    ensures value { Gives (λ x. (x.0, x.1.now)) result (spec.disjunction (spec.nested levels) signs.now) }
    ensures shorter { IfOk result (λ x. length x.1.now < length signs.now) }
{
    let rest = skip(signs, SignKind::Or)?;
    let rest = skip(rest, SignKind::Open)?;
    let (all, rest) = formulas(alloc, levels, rest)?;
    let rest = skip(rest, SignKind::Close)?;
    Ok((Formula::Or(all), rest))
}

// One formula or more, with commas between.
#[cycle(formulas)]
#[tactic(auto, unfolding(formula::specs::grammar::Reading::formulas))]
fn formulas(alloc: Global, levels: usize, signs: &[Sign]) -> Result<(Items<Formula>, &[Sign]), Fail>
    ensures value { Gives (λ x. (x.0, x.1.now)) result (spec.formulas (spec.nested levels) signs.now) }
    ensures shorter { IfOk result (λ x. length x.1.now < length signs.now) }
{
    let (first, rest) = nested(alloc, levels, signs)?;
    let mut all = Items::new(alloc);
    all.push(first)?;
    more_formulas(alloc, levels, all, rest)
}

// The formulas behind the first.
#[cycle(formulas)]
fn more_formulas(
    alloc: Global,
    levels: usize,
    mut all: Items<Formula>,
    signs: &[Sign],
) -> Result<(Items<Formula>, &[Sign]), Fail>
    ensures value { Gives (λ x. (x.0, x.1.now)) result (with_front all (spec.more_formulas (spec.nested levels) signs.now)) }
    ensures shorter { IfOk result (λ x. length x.1.now ≤ length signs.now) }
{
    let mut rest = signs;
    'formulas: while begins_with(rest, &[SignKind::Comma]) {
        let (found, more) = another(alloc, levels, rest)?;
        all.push(found)?;
        rest = more;
    }
    Ok((all, rest))
}

// A comma and a formula.
#[cycle(formulas)]
fn another(alloc: Global, levels: usize, signs: &[Sign]) -> Result<(Formula, &[Sign]), Fail>
    ensures value { Gives (λ x. (x.0, x.1.now)) result (reader.after kind 16 (spec.nested levels) signs.now) }
    ensures shorter { IfOk result (λ x. length x.1.now < length signs.now) }
{
    let rest = skip(signs, SignKind::Comma)?;
    nested(alloc, levels, rest)
}

/// A whole formula.
#[tactic(auto, unfolding(formula::specs::grammar::Reading::whole))]
pub fn whole(alloc: Global, signs: &[Sign]) -> Result<(Formula, &[Sign]), Fail>
    ensures { Gives (λ x. (x.0, x.1.now)) result (spec.whole signs.now) }
{
    nested(alloc, 32, signs)
}

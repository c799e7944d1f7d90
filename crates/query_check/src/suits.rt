//! Which operators and literals suit which fields.

ghost use Rattle.std.specs.Prelude.{◌≡◌};
ghost use Rattle.std.specs.List.{list_all};
ghost use Rattle.model.specs.Tests.{clock_or_null, is_equality, way_suits};
ghost use Rattle.query_check.specs.Rules.{is_ids, suits_in, way_of};

use crate::columns::Family;
use soql::{Literal, Op};

/// How a path is tested.
#[derive(Clone, Copy)]
pub(crate) enum Way<'a> {
    /// By an operator.
    By(Op, &'a Literal),
    /// By a pattern.
    Pattern,
    /// As one of some literals, or as none of them.
    Among(&'a [Literal]),
}

fn clock_or_null(literal: &Literal) -> bool
    ensures { result ≡ clock_or_null literal.now }
{
    match literal {
        Literal::Null | Literal::Today | Literal::Yesterday | Literal::Tomorrow => true,
        _ => false,
    }
}

fn literal_suits(family: Family, literal: &Literal) -> bool
    ensures { result ≡ (suits_in family).literal literal.now }
{
    match (family, literal) {
        (_, Literal::Null) => true,
        (Family::Text | Family::Picklist | Family::Ids, Literal::Text(_)) => true,
        (Family::Number, Literal::Num(_)) => true,
        (Family::Truth, Literal::Bool(_)) => true,
        (Family::Day, Literal::Day(_)) => true,
        (Family::Moment, Literal::Moment(_)) => true,
        (Family::Day | Family::Moment, other) => clock_or_null(other),
        _ => false,
    }
}

fn takes_order(family: Family) -> bool
    ensures { result ≡ (suits_in family).orders }
{
    match family {
        Family::Text | Family::Picklist | Family::Number | Family::Day | Family::Moment => true,
        Family::Truth | Family::Ids => false,
    }
}

fn takes_patterns(family: Family) -> bool
    ensures { result ≡ (suits_in family).patterns }
{
    match family {
        Family::Text => true,
        _ => false,
    }
}

fn takes_lists(family: Family) -> bool
    ensures { result ≡ (suits_in family).lists }
{
    match family {
        Family::Truth => false,
        _ => true,
    }
}

/// Whether a field holds ids.
pub fn is_ids(family: Family) -> bool
    ensures { result ≡ is_ids family }
{
    match family {
        Family::Ids => true,
        _ => false,
    }
}

fn is_equality(op: Op) -> bool
    ensures { result ≡ is_equality op }
{
    match op {
        Op::Equal | Op::NotEqual => true,
        Op::Less | Op::LessEqual | Op::Greater | Op::GreaterEqual => false,
    }
}

fn literals_suit(family: Family, literals: &[Literal]) -> bool
    ensures { result ≡ list_all (suits_in family).literal literals.now }
{
    literals
        .iter()
        .all(|literal| literal_suits(family, literal))
}

/// Whether a field may be tested in this way.
pub(crate) fn way_suits(family: Family, way: Way) -> bool
    ensures { result ≡ way_suits (suits_in family) (way_of way.entry) }
{
    match way {
        Way::By(op, literal) => {
            (is_equality(op) || takes_order(family)) && literal_suits(family, literal)
        }
        Way::Pattern => takes_patterns(family),
        Way::Among(literals) => takes_lists(family) && literals_suit(family, literals),
    }
}

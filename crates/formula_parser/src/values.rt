//! What a single token stands for in a formula.

ghost use Rattle.std.specs.Prelude.{◌≡◌, IfOk, if◌then◌else◌, Some, None};
ghost use Rattle.formula.specs.declared.formula.Term.TheVariants as term;
ghost use Rattle.formula.specs.grammar.Terms as spec;

use base_value::Text;
use formula::{Kind, Relation, Sign, Sort, Term};
use std::alloc::{AllocError, Global};

fn kind_of(sort: Sort) -> Option<Kind>
    ensures { result ≡ spec.kind_of sort }
{
    match sort {
        Sort::Text | Sort::Picklist => Some(Kind::Text),
        Sort::Number => Some(Kind::Number),
        Sort::Checkbox => Some(Kind::Checkbox),
        Sort::Day => Some(Kind::Day),
        Sort::Moment => Some(Kind::Moment),
        Sort::Reference => None,
    }
}

fn is_same(a: Kind, b: Kind) -> bool
    ensures { result ≡ spec.is_same a b }
{
    match (a, b) {
        (Kind::Text, Kind::Text) => true,
        (Kind::Number, Kind::Number) => true,
        (Kind::Checkbox, Kind::Checkbox) => true,
        (Kind::Day, Kind::Day) => true,
        (Kind::Moment, Kind::Moment) => true,
        _ => false,
    }
}

/// Whether a term of this kind suits where another was wanted.
fn suits(wanted: Option<Kind>, found: Kind) -> bool
    ensures { result ≡ spec.suits wanted found }
{
    match wanted {
        Some(kind) => is_same(kind, found),
        None => true,
    }
}

fn if_suits(wanted: Option<Kind>, found: Kind, term: Term) -> Option<(Term, Kind)>
    ensures { result ≡ spec.if_suits wanted found term }
{
    if suits(wanted, found) {
        Some((term, found))
    } else {
        None
    }
}

pub fn truth_in(sign: &Sign) -> Option<bool>
    ensures { result ≡ spec.truth_in sign.now }
{
    match sign {
        Sign::Truth(truth) => Some(*truth),
        _ => None,
    }
}

/// A field of any type.
pub fn field_in(sign: &Sign) -> Option<u8>
    ensures { result ≡ spec.field_token sign.now }
{
    match sign {
        Sign::Field(position, _) => Some(*position),
        _ => None,
    }
}

pub fn picklist_in(sign: &Sign) -> Option<u8>
    ensures { result ≡ spec.picklist_in sign.now }
{
    match sign {
        Sign::Field(position, Sort::Picklist) => Some(*position),
        _ => None,
    }
}

/// A field that has a length.
pub fn measured_in(sign: &Sign) -> Option<u8>
    ensures { result ≡ spec.measured_in sign.now }
{
    match sign {
        Sign::Field(position, Sort::Text | Sort::Picklist) => Some(*position),
        _ => None,
    }
}

pub fn text_in(alloc: Global, sign: &Sign) -> Result<Option<Text>, AllocError>
    ensures { IfOk result (λ text. text ≡ spec.text_in sign.now) }
{
    match sign {
        Sign::Text(text) => Ok(Some(Text::from_str(alloc, text.as_str())?)),
        _ => Ok(None),
    }
}

pub fn relation_in(sign: &Sign) -> Option<Relation>
    ensures { result ≡ spec.relation_in sign.now }
{
    match sign {
        Sign::Relation(relation) => Some(*relation),
        _ => None,
    }
}

// A field as a term of its kind.
fn field_term(wanted: Option<Kind>, position: u8, sort: Sort) -> Option<(Term, Kind)>
    ensures { result ≡ spec.of_field term.Field position wanted (spec.kind_of sort) }
{
    match kind_of(sort) {
        Some(kind) => if_suits(wanted, kind, Term::Field(position)),
        None => None,
    }
}

/// A field, a number or a text as a term.
pub fn simple_in(
    alloc: Global,
    wanted: Option<Kind>,
    sign: &Sign,
) -> Result<Option<(Term, Kind)>, AllocError>
    ensures { IfOk result (λ term. term ≡ spec.simple_in wanted sign.now) }
{
    match sign {
        Sign::Field(position, sort) => Ok(field_term(wanted, *position, *sort)),
        Sign::Number(count) => Ok(if_suits(wanted, Kind::Number, Term::Num(*count))),
        Sign::Text(text) => {
            let text = Text::from_str(alloc, text.as_str())?;
            Ok(if_suits(wanted, Kind::Text, Term::Text(text)))
        }
        _ => Ok(None),
    }
}

/// Whether the token is LEN, and a number suits.
pub fn is_len(wanted: Option<Kind>, sign: &Sign) -> bool
    ensures { spec.len_in wanted sign.now ≡ (if result then Some tt else None) }
{
    match sign {
        Sign::Len => suits(wanted, Kind::Number),
        _ => false,
    }
}

// What a field was before, as a term of its kind.
fn prior_term(wanted: Option<Kind>, position: u8, sort: Sort) -> Option<(Term, Kind)>
    ensures { result ≡ spec.of_field term.Prior position wanted (spec.kind_of sort) }
{
    match kind_of(sort) {
        Some(kind) => if_suits(wanted, kind, Term::Prior(position)),
        None => None,
    }
}

/// A field within PRIORVALUE.
pub fn prior_in(wanted: Option<Kind>, sign: &Sign) -> Option<(Term, Kind)>
    ensures { result ≡ spec.prior_in wanted sign.now }
{
    match sign {
        Sign::Field(position, sort) => prior_term(wanted, *position, *sort),
        _ => None,
    }
}

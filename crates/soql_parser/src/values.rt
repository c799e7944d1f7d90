//! What a single token stands for in a query.

ghost use Rattle.std.specs.Prelude.{◌≡◌, ◌++◌, IfOk, map};
ghost use Rattle.base_grammar.specs.Counts.{plain_text};
ghost use Rattle.soql.specs.grammar.Grammar as grammar;

use base_grammar::{Piece, plain_text};
use base_value::{Items, Text};
use soql::{LikePart, LikePattern, Literal, Op, Sign};
use std::alloc::{AllocError, Global};

pub fn name_in(alloc: Global, sign: &Sign) -> Result<Option<Text>, AllocError>
    ensures { IfOk result (λ name. name ≡ grammar.name_in sign.now) }
{
    match sign {
        Sign::Name(text) => Ok(Some(Text::from_str(alloc, text.as_str())?)),
        Sign::Today(text) => Ok(Some(Text::from_str(alloc, text.as_str())?)),
        Sign::Yesterday(text) => Ok(Some(Text::from_str(alloc, text.as_str())?)),
        Sign::Tomorrow(text) => Ok(Some(Text::from_str(alloc, text.as_str())?)),
        _ => Ok(None),
    }
}

pub fn operator_in(sign: &Sign) -> Option<Op>
    ensures { result ≡ grammar.operator_in sign.now }
{
    match sign {
        Sign::Op(op) => Some(*op),
        _ => None,
    }
}

// A text without `\%` and `\_`.
fn text_literal(alloc: Global, pieces: &[Piece]) -> Result<Option<Literal>, AllocError>
    ensures { IfOk result (λ literal. literal ≡ grammar.text_literal (plain_text pieces.now)) }
{
    match plain_text(alloc, pieces)? {
        Some(text) => Ok(Some(Literal::Text(text))),
        None => Ok(None),
    }
}

pub fn literal_in(alloc: Global, sign: &Sign) -> Result<Option<Literal>, AllocError>
    ensures { IfOk result (λ literal. literal ≡ grammar.literal_in sign.now) }
{
    match sign {
        Sign::Null => Ok(Some(Literal::Null)),
        Sign::Truth(truth) => Ok(Some(Literal::Bool(*truth))),
        Sign::Today(_) => Ok(Some(Literal::Today)),
        Sign::Yesterday(_) => Ok(Some(Literal::Yesterday)),
        Sign::Tomorrow(_) => Ok(Some(Literal::Tomorrow)),
        Sign::Number(count, _) => Ok(Some(Literal::Num(*count))),
        Sign::Day(day) => Ok(Some(Literal::Day(*day))),
        Sign::Moment(second) => Ok(Some(Literal::Moment(*second))),
        Sign::Text(pieces) => text_literal(alloc, pieces.as_slice()),
        _ => Ok(None),
    }
}

#[tactic(auto, unfolding(soql::specs::grammar::Grammar::part_of))]
fn part_of(piece: Piece) -> LikePart
    ensures { result ≡ grammar.part_of piece }
{
    match piece {
        Piece::Plain('%') => LikePart::Many,
        Piece::Plain('_') => LikePart::One,
        Piece::Plain(c) => LikePart::Exact(c),
        Piece::Escaped(c) => LikePart::Exact(c),
    }
}

fn parts_of(alloc: Global, pieces: &[Piece]) -> Result<Items<LikePart>, AllocError>
    ensures { IfOk result (λ parts. parts ≡ grammar.parts_of pieces.now) }
{
    let mut parts = Items::new(alloc);
    let mut rest = pieces;
    'pieces: while let Some((piece, behind)) = rest.split_first() {
        parts.push(part_of(*piece))?;
        rest = behind;
    }
    Ok(parts)
}

pub fn pattern_in(alloc: Global, sign: &Sign) -> Result<Option<LikePattern>, AllocError>
    ensures { IfOk result (λ pattern. pattern ≡ grammar.pattern_in sign.now) }
{
    match sign {
        Sign::Text(pieces) => {
            let parts = parts_of(alloc, pieces.as_slice())?;
            Ok(Some(LikePattern { parts }))
        }
        _ => Ok(None),
    }
}

pub fn descending_in(sign: &Sign) -> Option<bool>
    ensures { result ≡ grammar.descending_in sign.now }
{
    match sign {
        Sign::Descending(is) => Some(*is),
        _ => None,
    }
}

pub fn last_in(sign: &Sign) -> Option<bool>
    ensures { result ≡ grammar.last_in sign.now }
{
    match sign {
        Sign::Last(is) => Some(*is),
        _ => None,
    }
}

/// A number of digits alone, if it is at most this one.
pub fn count_in(most: u32, sign: &Sign) -> Option<u32>
    ensures { result ≡ grammar.count_in most sign.now }
{
    match sign {
        Sign::Number(_, Some(n)) => { if *n <= most { Some(*n) } else { None } }
        _ => None,
    }
}

/// A number of digits alone, if it is at most 2,000.
pub fn small_count(sign: &Sign) -> Option<u16>
    ensures { result ≡ grammar.count_in 2000 sign.now }
{
    match sign {
        Sign::Number(_, Some(n)) => { if *n <= 2000 { Some(*n as u16) } else { None } }
        _ => None,
    }
}

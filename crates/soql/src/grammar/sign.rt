//! What the grammar of queries sees of a token.

use crate::query::Op;
use base_grammar::{Kinded, Piece, TokenKind};
use base_value::{Items, Text};

/// A token, as the grammar of queries sees it.
#[derive(Debug, Drop)]
pub enum Sign {
    /// A word that is no other of these.
    Name(Text),
    /// `TODAY`, which is a name too.
    Today(Text),
    /// `YESTERDAY`, which is a name too.
    Yesterday(Text),
    /// `TOMORROW`, which is a name too.
    Tomorrow(Text),
    /// `AND`
    And,
    /// `OR`
    Or,
    /// `NOT`
    Not,
    /// `IN`
    In,
    /// `LIKE`
    Like,
    /// `NULL`
    Null,
    /// `TRUE` or `FALSE`.
    Truth(bool),
    /// `SELECT`
    Select,
    /// `FROM`
    From,
    /// `WHERE`
    Where,
    /// `ORDER`
    Order,
    /// `BY`
    By,
    /// `DESC`, or `ASC` if it is false.
    Descending(bool),
    /// `NULLS`
    Nulls,
    /// `LAST`, or `FIRST` if it is false.
    Last(bool),
    /// `LIMIT`
    Limit,
    /// `OFFSET`
    Offset,
    /// A number, counted in units of 10^-8; and what it is if it is digits alone and at most 50,000.
    Number(i128, Option<u32>),
    /// A date, in days from 1970-01-01.
    Day(i32),
    /// A moment, in seconds from 1970-01-01T00:00:00Z.
    Moment(i64),
    /// What is between two quotes.
    Text(Items<Piece>),
    /// An operator.
    Op(Op),
    /// `(`
    Open,
    /// `)`
    Close,
    /// `,`
    Comma,
    /// `.`
    Dot,
    /// What can follow nothing.
    Bad,
}

/// The kinds of tokens, as the definitions number them.
#[derive(Clone, Copy, Debug, PartialEq, Eq)]
pub enum SignKind {
    /// A word that is no other of these.
    Name,
    /// `TODAY`, which is a name too.
    Today,
    /// `YESTERDAY`, which is a name too.
    Yesterday,
    /// `TOMORROW`, which is a name too.
    Tomorrow,
    /// `AND`
    And,
    /// `OR`
    Or,
    /// `NOT`
    Not,
    /// `IN`
    In,
    /// `LIKE`
    Like,
    /// `NULL`
    Null,
    /// `TRUE` or `FALSE`.
    Truth,
    /// `SELECT`
    Select,
    /// `FROM`
    From,
    /// `WHERE`
    Where,
    /// `ORDER`
    Order,
    /// `BY`
    By,
    /// `DESC`, or `ASC` if it is false.
    Descending,
    /// `NULLS`
    Nulls,
    /// `LAST`, or `FIRST` if it is false.
    Last,
    /// `LIMIT`
    Limit,
    /// `OFFSET`
    Offset,
    /// A number, counted in units of 10^-8; and what it is if it is digits alone and at most 50,000.
    Number,
    /// A date, in days from 1970-01-01.
    Day,
    /// A moment, in seconds from 1970-01-01T00:00:00Z.
    Moment,
    /// What is between two quotes.
    Text,
    /// An operator.
    Op,
    /// `(`
    Open,
    /// `)`
    Close,
    /// `,`
    Comma,
    /// `.`
    Dot,
    /// What can follow nothing.
    Bad,
}

impl TokenKind for SignKind {
    ghost use Rattle.soql.specs.grammar.Signs as spec;

    ghost number = { spec.number };

    fn number(self) -> u8 {
        self as u8
    }
}

impl Kinded for Sign {
    ghost use Rattle.soql.specs.grammar.Signs as spec;

    type Kind = SignKind;

    ghost kind = { spec.kind };

    fn kind(&self) -> SignKind {
        match self {
            Sign::Name(_) => SignKind::Name,
            Sign::Today(_) => SignKind::Today,
            Sign::Yesterday(_) => SignKind::Yesterday,
            Sign::Tomorrow(_) => SignKind::Tomorrow,
            Sign::And => SignKind::And,
            Sign::Or => SignKind::Or,
            Sign::Not => SignKind::Not,
            Sign::In => SignKind::In,
            Sign::Like => SignKind::Like,
            Sign::Null => SignKind::Null,
            Sign::Truth(_) => SignKind::Truth,
            Sign::Select => SignKind::Select,
            Sign::From => SignKind::From,
            Sign::Where => SignKind::Where,
            Sign::Order => SignKind::Order,
            Sign::By => SignKind::By,
            Sign::Descending(_) => SignKind::Descending,
            Sign::Nulls => SignKind::Nulls,
            Sign::Last(_) => SignKind::Last,
            Sign::Limit => SignKind::Limit,
            Sign::Offset => SignKind::Offset,
            Sign::Number(_, _) => SignKind::Number,
            Sign::Day(_) => SignKind::Day,
            Sign::Moment(_) => SignKind::Moment,
            Sign::Text(_) => SignKind::Text,
            Sign::Op(_) => SignKind::Op,
            Sign::Open => SignKind::Open,
            Sign::Close => SignKind::Close,
            Sign::Comma => SignKind::Comma,
            Sign::Dot => SignKind::Dot,
            Sign::Bad => SignKind::Bad,
        }
    }
}

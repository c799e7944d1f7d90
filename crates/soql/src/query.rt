//! Queries, as they are held. Names are held as they are spelled, and parentheses aren't held.

use base_value::{Boxed, Items, Text};

/// A query.
#[derive(Debug, Drop)]
pub struct Query {
    /// What each row shows.
    pub select: Items<Item>,
    /// Where the rows come from, which they are and in which order.
    pub tail: Tail,
    /// `OFFSET`: how many rows are left out first, at most 2,000.
    pub offset: Option<u16>,
}

/// What a row shows.
#[derive(Debug, Drop)]
pub enum Item {
    /// The value of a path.
    Path(Path),
    /// The rows of a child relationship, of which there are at most 20 in a query.
    Child {
        /// What each of them shows.
        paths: Items<Path>,
        /// The relationship, which of its rows and in which order.
        tail: Tail,
    },
}

/// Where rows come from, which they are and in which order.
#[derive(Debug, Drop)]
pub struct Tail {
    /// `FROM`: the name of an object, or of a child relationship.
    pub from: Text,
    /// `WHERE`: the rows that are taken, or all.
    pub condition: Option<Cond>,
    /// `ORDER BY`: at most 32 keys, the first one first.
    pub order: Items<OrderKey>,
    /// `LIMIT`: how many rows are taken at most, up to 50,000.
    pub limit: Option<u32>,
}

/// The names of parent relationships, at most 5, and then of a field.
#[derive(Debug, Drop)]
pub struct Path {
    /// The names, from 1 to 6.
    pub names: Items<Text>,
}

/// A condition: true or false of a record.
#[derive(Debug, Drop)]
pub enum Cond {
    /// `path < literal`, or another comparison.
    Test {
        /// The value that is compared.
        path: Path,
        /// How.
        op: Op,
        /// What it is compared with.
        literal: Literal,
    },
    /// `path LIKE 'pattern'`.
    Like {
        /// The text.
        path: Path,
        /// The pattern that it is to be like.
        pattern: LikePattern,
    },
    /// `path IN (literal, ..)` or `path NOT IN (literal, ..)`.
    In {
        /// The value.
        path: Path,
        /// Whether it is `NOT IN`.
        negated: bool,
        /// The literals, at most 1,000.
        literals: Items<Literal>,
    },
    /// `NOT condition`.
    Not(Boxed<Cond>),
    /// `condition AND condition ..`, at least two.
    And(Items<Cond>),
    /// `condition OR condition ..`, at least two.
    Or(Items<Cond>),
}

/// How a value is compared.
#[derive(Clone, Copy, Debug, PartialEq, Eq)]
pub enum Op {
    /// `=`
    Equal,
    /// `!=`
    NotEqual,
    /// `<`
    Less,
    /// `<=`
    LessEqual,
    /// `>`
    Greater,
    /// `>=`
    GreaterEqual,
}

/// What a value is compared with.
#[derive(Debug, PartialEq, Eq, Drop)]
pub enum Literal {
    /// `NULL`.
    Null,
    /// A text between quotes, without its escapes.
    Text(Text),
    /// A number, counted in units of 10^-8.
    Num(i128),
    /// `TRUE` or `FALSE`.
    Bool(bool),
    /// A date, in days from 1970-01-01.
    Day(i32),
    /// A moment, in seconds from 1970-01-01T00:00:00Z.
    Moment(i64),
    /// `TODAY`: the day by the clock, in UTC.
    Today,
    /// `YESTERDAY`: the day before it.
    Yesterday,
    /// `TOMORROW`: the day after it.
    Tomorrow,
}

/// What a text may be like.
#[derive(Debug, Drop)]
pub struct LikePattern {
    /// Its parts, which take the characters of the text in turn.
    pub parts: Items<LikePart>,
}

/// A part of a pattern.
#[derive(Clone, Copy, Debug, PartialEq, Eq)]
pub enum LikePart {
    /// `_`: one character of the folded text.
    One,
    /// `%`: any run of characters, also none.
    Many,
    /// The folding of this character; `\%` and `\_` are characters too.
    Exact(char),
}

/// A value by which rows are ordered.
#[derive(Debug, Drop)]
pub struct OrderKey {
    /// The value.
    pub path: Path,
    /// `DESC`: whether greater values come first.
    pub descending: bool,
    /// `NULLS LAST`: whether nulls come last and not first.
    pub nulls_last: bool,
}

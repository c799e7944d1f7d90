//! What a text is made of.

use base_value::{Items, Text};

/// A piece of a text between quotes.
#[derive(Clone, Copy, Debug, PartialEq, Eq)]
pub enum Piece {
    /// A character that stands for itself, also one that was written by an escape.
    Plain(char),
    /// A character that was written behind a backslash and means something else without one.
    Escaped(char),
}

/// A token: what was written, and nothing computed from it.
#[derive(Debug, Drop)]
pub enum Token {
    /// A letter, then letters, digits and `_`.
    Word(Text),
    /// A number, a day or a moment.
    Run(Text),
    /// What is between two quotes.
    Text(Items<Piece>),
    /// A mark of one character.
    Mark(char),
    /// A mark of two characters.
    Pair(char, char),
    /// What can follow nothing.
    Bad,
}

/// A token, and where it begins.
#[derive(Debug, Drop)]
pub struct Placed {
    /// The byte of the text, in UTF-8, at which it begins.
    pub start: usize,
    /// The token.
    pub token: Token,
}

//! What differs between the tokens of one language and those of another.

ghost use Rattle.std.specs.Prelude.{◌≡◌};
ghost use Rattle.base_grammar.specs.Tokens as spec;

use crate::token::Piece;

/// How a language writes texts and marks.
pub trait Lexis {
    ghost lexis: { spec.Lexis };

    /// Whether this character is the quote before a text and behind it.
    fn is_quote(c: char) -> bool
        ensures { result ≡ lexis.is_quote c };

    /// The piece that a character is behind a backslash.
    fn escape(c: char) -> Option<Piece>
        ensures { result ≡ lexis.escape c };

    /// Whether a character is a mark.
    fn is_mark(c: char) -> bool
        ensures { result ≡ lexis.is_mark c };

    /// Whether two characters are one mark.
    fn is_pair(c: char, d: char) -> bool
        ensures { result ≡ lexis.is_pair c d };
}

//! How queries write texts and marks.

ghost use Rattle.std.specs.Prelude.{◌≡◌};

use base_grammar::{Lexis, Piece};

/// The lexis of queries.
pub struct QueryLexis;

impl Lexis for QueryLexis {
    ghost use Rattle.soql.specs.Lexis as spec;

    ghost lexis = { spec.lexis };

    fn is_quote(c: char) -> bool {
        c == '\''
    }

    #[tactic(auto, unfolding(crate::specs::Lexis::escaped))]
    fn escape(c: char) -> Option<Piece> {
        match c {
            'n' => Some(Piece::Plain('\n')),
            'r' => Some(Piece::Plain('\r')),
            't' => Some(Piece::Plain('\t')),
            'b' => Some(Piece::Plain('\u{8}')),
            'f' => Some(Piece::Plain('\u{c}')),
            '"' | '\'' | '\\' => Some(Piece::Plain(c)),
            '%' | '_' => Some(Piece::Escaped(c)),
            _ => None,
        }
    }

    #[tactic(auto, unfolding(crate::specs::Lexis::is_mark))]
    fn is_mark(c: char) -> bool {
        c == '(' || c == ')' || c == ',' || c == '.' || c == '=' || c == '<' || c == '>'
    }

    #[tactic(auto, unfolding(crate::specs::Lexis::is_pair))]
    fn is_pair(c: char, d: char) -> bool {
        d == '=' && (c == '!' || c == '<' || c == '>')
    }
}

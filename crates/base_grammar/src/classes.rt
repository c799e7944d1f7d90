//! Which characters begin a token and go on with one.

ghost use Rattle.std.specs.Prelude.{◌≡◌};
ghost use Rattle.base_grammar.specs.Tokens as spec;

use crate::lexis::Lexis;
use base_value::is_digit;

/// What a first character begins.
#[derive(Clone, Copy, Debug, PartialEq, Eq)]
pub enum Class {
    /// No token.
    Blank,
    /// A word.
    Letters,
    /// A run.
    Digits,
    /// A text between quotes.
    Quote,
    /// A mark, or what can follow nothing.
    Other,
}

#[tactic(auto, unfolding(crate::specs::Tokens::is_blank))]
pub fn is_blank(c: char) -> bool
    ensures { result ≡ spec.is_blank c }
{
    c == ' ' || c == '\t' || c == '\r' || c == '\n'
}

#[tactic(auto, unfolding(crate::specs::Tokens::is_letter))]
fn is_letter(c: char) -> bool
    ensures { result ≡ spec.is_letter c }
{
    'A' <= c && c <= 'Z' || 'a' <= c && c <= 'z'
}

/// Whether the character goes on with a word.
#[tactic(auto, unfolding(crate::specs::Tokens::in_word))]
pub fn in_word(c: char) -> bool
    ensures { result ≡ spec.in_word c }
{
    is_letter(c) || is_digit(c) || c == '_'
}

/// Whether the character goes on with a run.
#[tactic(auto, unfolding(crate::specs::Tokens::in_run))]
pub fn in_run(c: char) -> bool
    ensures { result ≡ spec.in_run c }
{
    is_letter(c) || is_digit(c) || c == '.' || c == ':' || c == '+' || c == '-'
}

#[tactic(auto, unfolding(crate::specs::Tokens::begins_run))]
fn begins_run(c: char) -> bool
    ensures { result ≡ spec.begins_run c }
{
    is_digit(c) || c == '+' || c == '-'
}

/// What the character begins.
#[tactic(auto, unfolding(crate::specs::Tokens::class_of))]
pub fn class_of<L: Lexis>(c: char) -> Class
    ensures { result ≡ spec.class_of L.lexis c }
{
    if is_blank(c) {
        Class::Blank
    } else if is_letter(c) {
        Class::Letters
    } else if begins_run(c) {
        Class::Digits
    } else if L::is_quote(c) {
        Class::Quote
    } else {
        Class::Other
    }
}

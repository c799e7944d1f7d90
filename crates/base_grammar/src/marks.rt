//! Marks of one character and of two.

ghost use Rattle.std.specs.Prelude.{◌≡◌, ◌≤◌, length};
ghost use Rattle.base_grammar.specs.Lexing as read;
ghost use Rattle.base_grammar.specs.Tokens as spec;

use crate::lexis::Lexis;
use crate::token::Token;

#[tactic(auto, unfolding(crate::specs::Tokens::single_token))]
fn single_token<L: Lexis>(c: char) -> Token
    ensures { result ≡ spec.single_token L.lexis c }
{
    if L::is_mark(c) {
        Token::Mark(c)
    } else {
        Token::Bad
    }
}

/// How many characters behind a first one belong to a mark with it.
#[tactic(auto, unfolding(crate::specs::Lexing::mark_len))]
pub fn mark_len<L: Lexis>(first: char, rest: &[char]) -> usize
    ensures value { result ≡ read.mark_len L.lexis first rest.now }
    ensures within { result ≤ length rest.now }
{
    match rest.split_first() {
        Some((next, _)) => { if L::is_pair(first, *next) { 1 } else { 0 } }
        None => 0,
    }
}

/// The mark of a first character and what belongs to it.
#[tactic(auto, unfolding(crate::specs::Lexing::mark_token))]
pub fn mark_token<L: Lexis>(first: char, taken: &[char]) -> Token
    ensures { result ≡ read.mark_token L.lexis first taken.now }
{
    match taken.split_first() {
        Some((next, _)) => Token::Pair(first, *next),
        None => single_token::<L>(first),
    }
}

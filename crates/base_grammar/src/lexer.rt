//! From a text to its tokens.

ghost use Rattle.std.specs.Prelude.{◌≡◌, ◌∷◌, ◌++◌, ◌^◌, ◌<◌, ◌≤◌, length, chars, encode_utf8_all, IfOk, OnOk};
ghost use Rattle.std.specs.List.{prefix_len};
ghost use Rattle.base_grammar.specs.Lexing as read;
ghost use Rattle.base_grammar.specs.Tokens as spec;

use crate::classes::{Class, class_of, in_run, in_word, is_blank};
use crate::lexis::Lexis;
use crate::marks::{mark_len, mark_token};
use crate::quoted::{text_len, text_token};
use crate::text::{characters, text_from};
use crate::token::{Placed, Token};
use base_value::{Items, is_written_day, is_written_moment, is_written_number};
use std::alloc::{AllocError, Global};

/// How many characters at the front go on with a word.
fn word_len(chars: &[char]) -> usize
    ensures value { result ≡ prefix_len spec.in_word chars.now }
    ensures within { result ≤ length chars.now }
{
    chars.iter().take_while(|c| in_word(**c)).count()
}

/// How many characters at the front go on with a run.
fn run_len(chars: &[char]) -> usize
    ensures value { result ≡ prefix_len spec.in_run chars.now }
    ensures within { result ≤ length chars.now }
{
    chars.iter().take_while(|c| in_run(**c)).count()
}

/// How many characters behind a first one belong to its token.
#[tactic(auto, unfolding(crate::specs::Lexing::token_len))]
fn token_len<L: Lexis>(first: char, rest: &[char]) -> usize
    ensures value { result ≡ read.token_len L.lexis (spec.class_of L.lexis first) first rest.now }
    ensures within { result ≤ length rest.now }
{
    match class_of::<L>(first) {
        Class::Letters => word_len(rest),
        Class::Digits => run_len(rest),
        Class::Quote => text_len::<L>(rest),
        Class::Other => mark_len::<L>(first, rest),
        Class::Blank => 0,
    }
}

/// The token of a run, which is written whole.
#[tactic(auto, unfolding(crate::specs::Tokens::run_token))]
fn run_token(alloc: Global, run: &[char]) -> Result<Token, AllocError>
    ensures { IfOk result (λ token. token ≡ spec.run_token run.now) }
{
    if is_written_number(run) || is_written_day(run) || is_written_moment(run) {
        Ok(Token::Run(text_from(alloc, run)?))
    } else {
        Ok(Token::Bad)
    }
}

/// The token that these characters are.
#[tactic(auto, unfolding(crate::specs::Lexing::token_of))]
fn token_of<L: Lexis>(
    alloc: Global,
    class: Class,
    first: char,
    behind: &[char],
    all: &[char],
) -> Result<Token, AllocError>
    requires { all.now ≡ first ∷ behind.now }
    ensures { IfOk result (λ token. token ≡ read.token_of L.lexis class first behind.now) }
{
    match class {
        Class::Letters => Ok(Token::Word(text_from(alloc, all)?)),
        Class::Digits => run_token(alloc, all),
        Class::Quote => text_token::<L>(alloc, behind),
        Class::Other => Ok(mark_token::<L>(first, behind)),
        Class::Blank => Ok(Token::Bad),
    }
}

/// How many characters the blank or the token at the front has.
#[tactic(auto, unfolding(crate::specs::Lexing::front_len))]
fn front_len<L: Lexis>(chars: &[char]) -> usize
    ensures value { result ≡ read.front_len L.lexis chars.now }
    ensures within { result ≤ length chars.now }
    ensures moves { 0 < length chars.now → 0 < result }
{
    match chars.split_first() {
        Some((first, rest)) => 1 + token_len::<L>(*first, rest),
        None => 0,
    }
}

/// Adds the token that these characters are, which begin at this byte; a blank is none.
#[tactic(auto, unfolding(crate::specs::Lexing::token_at))]
fn add_token<L: Lexis>(
    alloc: Global,
    found: &mut Items<Placed>,
    at: usize,
    front: &[char],
) -> Result<(), AllocError>
    ensures { OnOk result (found.new ≡ found.old ++ read.token_at L.lexis at front.now) }
{
    let Some((first, behind)) = front.split_first() else {
        return Ok(());
    };
    if is_blank(*first) {
        return Ok(());
    }
    let token = token_of::<L>(alloc, class_of::<L>(*first), *first, behind, front)?;
    found.push(Placed { start: at, token })
}

/// How many bytes the characters take in UTF-8.
fn bytes_of(chars: &[char]) -> usize
    requires { spec.byte_len chars.now < 2 ^ 64 }
    ensures { result ≡ spec.byte_len chars.now }
{
    let mut sum: usize = 0;
    for c in chars {
        sum += c.len_utf8();
    }
    sum
}

/// The tokens of some characters.
fn all_tokens<L: Lexis>(alloc: Global, chars: &[char]) -> Result<Items<Placed>, AllocError>
    requires { spec.byte_len chars.now < 2 ^ 64 }
    ensures { IfOk result (λ all. all ≡ read.tokens_of L.lexis 0 chars.now) }
{
    let mut found = Items::new(alloc);
    let mut rest = chars;
    let mut at: usize = 0;
    'tokens: while !rest.is_empty() {
        let (front, tail) = rest.split_at(front_len::<L>(rest));
        add_token::<L>(alloc, &mut found, at, front)?;
        at += bytes_of(front);
        rest = tail;
    }
    Ok(found)
}

/// The tokens of a text, as they are computed.
pub fn tokens_of<L: Lexis>(alloc: Global, text: &str) -> Result<Items<Placed>, AllocError>
    ensures { IfOk result (λ all. all ≡ read.tokens_of L.lexis 0 (chars text.now)) }
{
    // A text's length is a `usize`, and so is every place in it.
    let _length = text.len();
    let all = characters(alloc, text)?;
    all_tokens::<L>(alloc, all.as_slice())
}

/// The tokens of a text, in order. Every text has tokens: what can follow nothing is one too.
///
/// # Errors
///
/// When out of memory.
#[tactic(auto, using(crate::proofs::Meets::meets_same))]
pub fn tokens<L: Lexis>(alloc: Global, text: &str) -> Result<Items<Placed>, AllocError>
    ensures { IfOk result (λ all. spec.AreTokens L.lexis 0 (chars text.now) all) }
{
    tokens_of::<L>(alloc, text)
}

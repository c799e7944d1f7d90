//! Texts between quotes.

ghost use Rattle.std.specs.Prelude.{◌≡◌, ◌∷◌, ◌≤◌, length, false, IfOk, IfSome, option_map};
ghost use Rattle.base_grammar.specs.Lexing as read;
ghost use Rattle.base_grammar.specs.Counts.{plain_text};
ghost use Rattle.base_grammar.specs.Tokens as spec;

use crate::lexis::Lexis;
use crate::text::text_from;
use crate::token::{Piece, Token};
use base_value::{Items, Text};
use std::alloc::{AllocError, Global};

/// How many characters behind an opening quote belong to its text.
pub fn text_len<L: Lexis>(chars: &[char]) -> usize
    ensures value { result ≡ spec.text_len L.lexis chars.now false }
    ensures within { result ≤ length chars.now }
{
    let mut escaped = false;
    for (at, c) in chars.iter().enumerate() {
        if !escaped && L::is_quote(*c) {
            return at + 1;
        }
        escaped = !escaped && *c == '\\';
    }
    chars.len()
}

/// The pieces of a text, from what is behind its opening quote.
fn pieces_of<L: Lexis>(alloc: Global, chars: &[char]) -> Result<Option<Items<Piece>>, AllocError>
    ensures { IfOk result (λ pieces. pieces ≡ spec.pieces_of L.lexis chars.now false) }
{
    let mut pieces = Items::new(alloc);
    let mut rest = chars;
    'pieces: while let Some((first, behind)) = rest.split_first() {
        if L::is_quote(*first) {
            return Ok(Some(pieces));
        }
        let Some((piece, tail)) = piece_at::<L>(*first, behind) else {
            return Ok(None);
        };
        pieces.push(piece)?;
        rest = tail;
    }
    Ok(None)
}

/// The piece at the front, and what is behind it.
fn piece_at<L: Lexis>(first: char, behind: &[char]) -> Option<(Piece, &[char])>
    requires { L.lexis.is_quote first ≡ false }
    ensures pieces { read.GoesOn L.lexis (first ∷ behind.now) (option_map (λ x. (x.0, x.1.now)) result) }
    ensures shorter { IfSome result (λ x. length x.1.now ≤ length behind.now) }
{
    if first != '\\' {
        return Some((Piece::Plain(first), behind));
    }
    let (next, tail) = behind.split_first()?;
    Some((L::escape(*next)?, tail))
}

/// The token of a text, of which this is behind its opening quote.
#[tactic(auto, unfolding(crate::specs::Tokens::text_token))]
pub fn text_token<L: Lexis>(alloc: Global, behind: &[char]) -> Result<Token, AllocError>
    ensures { IfOk result (λ token. token ≡ spec.text_token L.lexis behind.now) }
{
    match pieces_of::<L>(alloc, behind)? {
        Some(pieces) => Ok(Token::Text(pieces)),
        None => Ok(Token::Bad),
    }
}

// The characters of some pieces, if all of them stand for themselves.
fn plain_characters(alloc: Global, pieces: &[Piece]) -> Result<Option<Items<char>>, AllocError>
    ensures { IfOk result (λ characters. characters ≡ plain_text pieces.now) }
{
    let mut characters = Items::new(alloc);
    let mut rest = pieces;
    'pieces: while let Some((first, behind)) = rest.split_first() {
        let Piece::Plain(c) = first else {
            return Ok(None);
        };
        characters.push(*c)?;
        rest = behind;
    }
    Ok(Some(characters))
}

/// The text of some pieces, if all of them stand for themselves.
///
/// # Errors
///
/// When out of memory.
pub fn plain_text(alloc: Global, pieces: &[Piece]) -> Result<Option<Text>, AllocError>
    ensures { IfOk result (λ text. text ≡ plain_text pieces.now) }
{
    match plain_characters(alloc, pieces)? {
        Some(characters) => Ok(Some(text_from(alloc, characters.as_slice())?)),
        None => Ok(None),
    }
}

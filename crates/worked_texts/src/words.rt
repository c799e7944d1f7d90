//! The tokens of query texts.

use base_grammar::{Piece, Placed, Token, tokens};
use soql::QueryLexis;
use std::alloc::{AllocError, Global};

// What kind of token it is, or the mark.
fn kind(alloc: Global, token: &Token) -> Result<String, AllocError> {
    match token {
        Token::Word(_) => String::from_str(alloc, "word"),
        Token::Run(_) => String::from_str(alloc, "run"),
        Token::Text(_) => String::from_str(alloc, "text"),
        Token::Mark(c) => format!(in alloc; "{c}"),
        Token::Pair(c, d) => format!(in alloc; "{c}{d}"),
        Token::Bad => String::from_str(alloc, "bad"),
    }
}

fn push_token(alloc: Global, all: &mut String, placed: &Placed) -> Result<(), AllocError> {
    let kind = kind(alloc, &placed.token)?;
    let start = placed.start;
    if !all.is_empty() {
        all.push(' ')?;
    }
    all.push_str(format!(in alloc; "{kind}@{start}")?.as_str())
}

/// The kinds of a text's tokens, and the bytes at which they begin.
pub(crate) fn kinds(alloc: Global, text: &str) -> Result<String, AllocError> {
    let tokens = tokens::<QueryLexis>(alloc, text)?;
    let mut all = String::new(alloc);
    for placed in tokens.as_slice() {
        push_token(alloc, &mut all, placed)?;
    }
    Ok(all)
}

fn written(alloc: Global, pieces: &[Piece]) -> Result<String, AllocError> {
    format!(in alloc; "{pieces:?}")
}

/// The pieces of the text that is the first token.
pub(crate) fn pieces(alloc: Global, text: &str) -> Result<String, AllocError> {
    let tokens = tokens::<QueryLexis>(alloc, text)?;
    match tokens.as_slice().first() {
        Some(
            Placed {
                token: Token::Text(pieces),
                ..
            },
        ) => written(alloc, pieces.as_slice()),
        _ => String::from_str(alloc, "no text"),
    }
}

//! What grammars are made of: the tokens of a text, parts of a grammar over tokens, and the place of a refusal.
//!
//! It depends on `base_value` alone, and knows no language. Its contract: a text's tokens are those that the relation
//! `AreTokens` of its lexis gives it, each with the byte at which it begins; every text has tokens, and only one list of them.
//! A part of a grammar is two relations, which tokens spell it and which open it; a reader that is `Exact` for a part returns
//! what the tokens spell, and is stuck at the first token that can't follow.
#![tactic(auto)]

mod classes;
mod cursor;
mod fail;
mod laws;
mod lexer;
mod lexis;
mod marks;
mod number;
mod quoted;
mod text;
mod token;
mod whole;

pub use crate::cursor::{Kinded, TokenKind, begins_with, next, skip, taken};
pub use crate::fail::{Fail, ParseFail};
pub use crate::laws::token_laws;
pub use crate::lexer::tokens;
pub use crate::lexis::Lexis;
pub use crate::number::number_count;
pub use crate::quoted::plain_text;
pub use crate::text::{characters, is_written};
pub use crate::token::{Piece, Placed, Token};
pub use crate::whole::{at_end, starts};

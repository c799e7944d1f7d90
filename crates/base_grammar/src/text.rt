//! Texts, their characters, and the words that they are.

ghost use Rattle.std.specs.Prelude.{◌≡◌, IfOk, chars, encode_utf8_all};
ghost use Rattle.base_grammar.specs.Tokens.{is_written};

use base_value::Text;
use std::alloc::{AllocError, Global};

/// The text of some characters.
pub fn text_from(alloc: Global, chars: &[char]) -> Result<Text, AllocError>
    ensures { IfOk result (λ text. text ≡ chars.now) }
{
    let mut string = String::new(alloc);
    for c in chars {
        string.push(*c)?;
    }
    Ok(Text::from_string(string))
}

/// The characters of a text.
///
/// # Errors
///
/// When out of memory.
pub fn characters(alloc: Global, text: &str) -> Result<Vec<char>, AllocError>
    ensures value { IfOk result (λ all. all.items ≡ chars text.now) }
    ensures bytes { IfOk result (λ all. encode_utf8_all all.items ≡ text.now) }
{
    text.chars().collect(alloc)
}

/// Whether the text is this word, with the case of ASCII letters ignored.
#[tactic(auto, unfolding(crate::specs::Tokens::is_written))]
pub fn is_written(word: &str, text: &Text) -> bool
    ensures { result ≡ is_written word.now text.now }
{
    word.eq_ignore_ascii_case(text.as_str())
}

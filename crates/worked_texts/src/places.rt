//! The place at which a text is refused.

use base_grammar::ParseFail;
use std::alloc::{AllocError, Global};

// The text with `^` before the token that begins at a place.
fn marked(alloc: Global, text: &str, place: usize) -> Result<String, AllocError> {
    match text.split_at_checked(place) {
        Some((before, behind)) => format!(in alloc; "{before}^{behind}"),
        None => String::from_str(alloc, "within a character"),
    }
}

/// The text, with `^` before the token at which it is refused.
pub(crate) fn with_place(
    alloc: Global,
    text: &str,
    read: Result<(), ParseFail>,
) -> Result<String, AllocError> {
    match read {
        Ok(()) => String::from_str(alloc, text),
        Err(ParseFail::Malformed(place)) => marked(alloc, text, place),
        Err(ParseFail::Memory) => String::from_str(alloc, "out of memory"),
    }
}

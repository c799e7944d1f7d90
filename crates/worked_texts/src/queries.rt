//! Query texts.

use crate::places::with_place;
use soql_parser::parse;
use soql_printer::print;
use std::alloc::{AllocError, Global};

/// The text, with `^` before the token at which it is refused.
pub(crate) fn read(alloc: Global, text: &str) -> Result<String, AllocError> {
    with_place(alloc, text, parse(alloc, text).map(|_| ()))
}

/// What is printed of the query of a text.
pub(crate) fn printed(alloc: Global, text: &str) -> Result<String, AllocError> {
    match parse(alloc, text) {
        Ok(query) => Ok(print(alloc, &query)?.into_string()),
        Err(_) => String::from_str(alloc, "no query"),
    }
}

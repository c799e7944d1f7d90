//! Patterns as queries have them behind LIKE.

use crate::line::{first_of, truth};
use soql::{Cond, Query, like};
use soql_parser::parse;
use std::alloc::{AllocError, Global};

// Whether a text is like the pattern of a query.
fn is_like_in(alloc: Global, query: &Query, text: &str) -> Result<String, AllocError> {
    match &query.tail.condition {
        Some(Cond::Like { pattern, .. }) => truth(alloc, like(alloc, pattern, text)?),
        _ => String::from_str(alloc, "no pattern"),
    }
}

/// Whether a text is like a pattern: the pattern as it is written between quotes, and the text.
pub(crate) fn is_like(alloc: Global, arguments: &str) -> Result<String, AllocError> {
    let (written, text) = first_of(arguments);
    let query = format!(in alloc; "SELECT Id FROM A WHERE Name LIKE '{written}'")?;
    match parse(alloc, query.as_str()) {
        Ok(query) => is_like_in(alloc, &query, text),
        Err(_) => String::from_str(alloc, "no query"),
    }
}

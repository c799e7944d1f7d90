//! The query that a text spells.
//!
//! It depends on `soql`, which has the grammar, on `soql_lexer`, `soql`, `base_grammar` and `base_value`. Its
//! contract: `parse` returns a query exactly where the text spells one, and then that one, and refuses all else at exactly the
//! place that the grammar defines.
#![tactic(auto)]

mod clauses;
mod conditions;
mod items;
mod parsing;
mod paths;
mod values;

pub use crate::parsing::parse;
pub use base_grammar::ParseFail;
pub use soql::{
    Cond, Item, LikePart, LikePattern, Literal, Op, OrderKey, Path, Query, Tail, like_rows,
};

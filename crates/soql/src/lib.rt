//! Queries, as they are held, how their texts are cut into tokens, and their grammar.
//!
//! It depends on `base_value` and `base_grammar`. Its contract: `like` returns whether a text is like a pattern, by the definition of
//! that name; and by `spelling_laws` of `grammar` a text spells at most one query.
#![tactic(auto)]

mod grammar;
mod lexis;
mod patterns;
mod query;
mod worked;

pub use crate::grammar::{Sign, SignKind, spelling_laws};
pub use crate::lexis::QueryLexis;
pub use crate::patterns::like;
pub use crate::query::{
    Cond, Item, LikePart, LikePattern, Literal, Op, OrderKey, Path, Query, Tail,
};
pub use crate::worked::like_rows;

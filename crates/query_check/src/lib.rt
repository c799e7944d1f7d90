//! Why a query is refused, by layouts, and which fields its names lead to.
//!
//! It depends on `soql` for queries, on `store_abstraction` for layouts, on `query_plan` for relationships, on `query_plan` for where records
//! have values, and on `model` for the definitions; it reads no table. Its contract: a query is refused as the
//! model's rules say.
#![tactic(auto)]

mod columns;
mod flat;
mod items;
mod paths;
mod refusals;
mod rules;
mod suits;
mod tails;

pub use crate::columns::{Column, Family, column_in, name_at};
pub use crate::flat::is_flat;
pub use crate::refusals::query_refusal;
pub use crate::rules::{Rule, own_name};
pub use crate::suits::is_ids;

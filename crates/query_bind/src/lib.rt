//! Queries by layouts: the places that their names become.
//!
//! It depends on `soql` for queries, on `store_abstraction` for layouts, on `query_plan` for relationships, on `query_plan` for plans, on
//! `query_check` for the fields to which names lead, and on `model` for the definitions; it reads no table. Its
//! contract: the plan of a query that nothing refuses means that query, of each record of a sound organisation's object.
#![tactic(auto)]

mod binding;
mod branching;
mod cells;
mod choosing;
mod conditions;
mod counting;
mod keys;
mod members;
mod selecting;
mod spots;

pub use crate::binding::bind;
pub use crate::cells::{CellPlan, bind_cells};
pub use crate::members::relationship_name;

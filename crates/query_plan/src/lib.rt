//! Plans of queries: what queries become once their names are places, and what that means.
//!
//! It depends on `soql` for operators and patterns, on `base_json` for what values are in JSON, and on
//! `model` for the definitions; it reads no table. Its contract: whether a plan's condition holds on what has a
//! record's values, and that a plan which means a query takes of the records that may be read those that the query finds. `paths` has
//! where relationships lead, and `order` what rows are ordered by.
#![tactic(auto)]

mod check;
mod laws;
mod order;
mod paths;
mod plan;
mod truth;
mod values;

pub use crate::check::{Check, Operand, Site, Spot};
pub use crate::laws::plan_laws;
pub use crate::order::{Rank, rank_laws, rank_of};
pub use crate::paths::{
    Branch, ChildStep, Place, branch_laws, child_in, layout_in, parent_in, place_in, step_from,
    way_laws,
};
pub use crate::plan::{Child, ChildPlan, Choice, Member, Plan, Shown, SortKey};
pub use crate::truth::check_holds;
pub use crate::values::{HasValues, spot_value};

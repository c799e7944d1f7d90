//! The parents and the children of a row by a plan, as who asks may read them.
//!
//! `parents` reads the records. It depends on `query_plan` for the order of children, and on `query_exec` for whom it is.
//! Its contract: over tables in which an organisation's rows stand for a tenant it finds, of a record, the parents that the plan's
//! branches name and the children that its child subqueries take, as the user of the tenant may read them whose rights are passed.
#![tactic(auto)]

mod children;
mod found;
mod ordered;
mod parents;
mod relatives;
mod taken;

pub use crate::relatives::PlanRelatives;

//! The end of a role and of a group: each is refused while something names it.
//!
//! It depends on `store_edit` and `people_rows`, and on `model_requests`, which has the verdicts. Its contract: each edit is that of
//! `Edit`, by its verdict.
#![tactic(auto)]

mod named;
mod removing;
mod rows;
mod shares;
mod uses;

pub use crate::removing::{RemoveGroup, RemoveRole};

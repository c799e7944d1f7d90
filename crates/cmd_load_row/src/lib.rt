//! One row of a CSV text, loaded into an object over a draft.
//!
//! It depends on `cmd_load_plan` for what a row asks for and for the lines that tell what became of rows, on `record_constraints` for the records that
//! cells find, on `record_save` for the edits, on `access_user` for the rights of who asks, and on `model_invariant` for what is
//! given. Its contract: over tables in which the caller's organisation's rows stand for a tenant a row makes or changes the record
//! that its request does and gives that line, or it changes nothing and gives the line of the refusal.
#![tactic(auto)]

mod edits;
mod finding;
mod loading;
mod parents;
mod rows;

pub use crate::loading::load_row;

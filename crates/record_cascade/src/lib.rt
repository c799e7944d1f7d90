//! What the deletion of a record comes to.
//!
//! It depends on `record_references` for the records that refer to a record. Its contract: over tables in which an organisation's
//! rows stand for a tenant it finds what the model says goes with a record and what loses a lookup, or the refusal of the first
//! rule that refuses the deletion, and it reads no record.
#![tactic(auto)]

mod clearing;
mod deletion;
mod holding;
mod levels;
mod object;
mod restricting;
mod taking;

pub use crate::clearing::is_cleared;
pub use crate::deletion::{Deletion, deletion_of};
pub use crate::object::object_number;

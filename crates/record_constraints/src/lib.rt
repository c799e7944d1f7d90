//! The rules by which a record is judged by others: those that it refers to, and those that have its unique values.
//!
//! It depends on `store_abstraction` and `record_read` for the rows of records, on `access_traits` for what who asks may read, and on `schema_rules`
//! for the object that a layout spells. Its contract: for whose rights are passed each rule comes to what the model says, over
//! tables in which the organisation's rows stand for a tenant.
#![tactic(auto)]

mod duplicates;
mod reading;
mod targets;
mod unique;

pub use crate::duplicates::duplicate;
pub use crate::targets::{bad_target, named_at};
pub use crate::unique::unique_find;

//! The records that refer to a record, by the rows of references.
//!
//! It depends on `store_abstraction` and `record_read` for the rows of records. Its contract: over tables in which an organisation's rows
//! stand for a tenant it finds the records that the model says refer to a record by a field, and it reads none of them. Whether
//! some record refers to one of many is found by going through the field's rows of references once.
#![tactic(auto)]

mod many;
mod relations;

pub use crate::many::any_referring;
pub use crate::relations::{all_referring, referring};

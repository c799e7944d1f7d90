//! The deletion of a record, with all that goes with it.
//!
//! It depends on `record_cascade` for what goes and what loses a lookup, on `record_target` for the record that is named, on `record_index` for
//! the rows of a record, and on `model_invariant` for the tenant that a deletion leaves. Its contract is that of `Edit`: a deletion is judged
//! by its verdict, and its changes take the organisation's rows to those of what the verdict leaves.
#![tactic(auto)]

mod clearing;
mod counts;
mod delete;
mod deleting;
mod ending;
mod laws;
mod object;
mod removing;

pub use crate::delete::Delete;
pub use crate::laws::delete_laws;

//! Sharing rules: their rows, and the edits that add and remove them.
//!
//! It depends on `store_abstraction` and `store_edit`. Its contract: each edit is that of `Edit`, by its verdict; and its laws say which
//! rows stay where a rule comes or goes.
#![tactic(auto)]

mod adding;
mod criteria;
mod judging;
mod keys;
mod laws;
mod members;
mod principals;
mod removing;
mod spelled;

pub use crate::adding::AddSharingRule;
pub use crate::laws::sharing_laws;
pub use crate::removing::RemoveSharingRule;

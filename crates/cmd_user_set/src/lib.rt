//! The command `user-set`: a user of an organisation is given a new secret, and is an active administrator afterwards.
//!
//! It depends on `people_edit` for the change of the user. Its contract: over tables that stand for a world, it comes to what
//! `user_set_verdict` says there, and nothing changes where that refuses.
#![tactic(auto)]

mod key;
mod laws;
mod named;

pub use crate::key::set_user_key;
pub use crate::laws::user_set_laws;

//! What who asks may do with records: the forms in which layers above ask for it, and the rights of an administrator.
//!
//! It depends on `record_read` for the rows of records. Its contract is that of two traits: `Rights` tells the level of a user on a
//! record by its id, and `Sight` whether the user may read the record of a row. An administrator has all levels.
#![tactic(auto)]

mod administrator;
mod levels;
mod rights;

pub use crate::administrator::Administrator;
pub use crate::levels::{at_least, below};
pub use crate::rights::{Rights, Sight};

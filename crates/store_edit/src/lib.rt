//! Edits of one organisation: each judges what it is to change, and one function makes the changes of all of them.
//!
//! It depends on `store_abstraction` for what tables stand for. Its contract: over tables in which the organisation's rows stand for
//! a tenant an edit is refused as its verdict says, or it answers what its verdict answers and those rows stand for what the
//! verdict leaves; and whatever the tables have, no row of another organisation changes.
#![tactic(auto)]

mod changes;
mod decided;
mod edit;
mod naming;

pub use crate::changes::{make_changes, put_row, remove_row};
pub use crate::decided::Decided;
pub use crate::edit::{Edit, make_edit, one_row};
pub use crate::naming::{invalid_type, layout_there, over_limit};

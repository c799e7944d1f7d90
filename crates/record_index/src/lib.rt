//! The rows of a record and of its values, as changes: index rows, unique rows, and rows of references.
//!
//! It depends on `store_edit` for changes of rows, and on `record_read` for the row of a record. Its contract: the changes that are
//! added to a list are exactly the rows that differ where a record comes, changes or goes; `diff` says it of all records of an edit.
#![tactic(auto)]

mod changed;
mod copied;
mod diff;
mod keys;
mod laws;
mod made;
mod removed;
mod rows;
mod slot;
mod turning;

pub use crate::changed::{changed_record_changes, turned_row};
pub use crate::copied::{converts, copied_value, is_copied};
pub use crate::diff::touched_laws;
pub use crate::laws::pivot_laws;
pub use crate::made::new_record_changes;
pub use crate::removed::{beside_value, removed_record_changes};
pub use crate::slot::RecordSlot;
pub use crate::turning::turn_value;

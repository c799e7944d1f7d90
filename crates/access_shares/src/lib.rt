//! Manual shares: edits that share a record with a principal, and that end a share.
//!
//! It depends on `store_edit` for what an edit is, on `access_traits` for what who asks may do with the record, on `record_target` for the rows
//! of a record's shares, and on `people_rows` for the principals. Its contract is that of `Edit`: each is judged by its verdict, by the
//! rights of whoever asks, and its change takes the organisation's rows to those of what the verdict leaves.
#![tactic(auto)]

mod among;
mod laws;
mod principals;
mod shareable;
mod sharing;
mod texts;
mod unsharing;

pub use crate::laws::share_laws;
pub use crate::shareable::find_shareable;
pub use crate::sharing::Share;
pub use crate::unsharing::Unshare;

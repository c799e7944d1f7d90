//! The object and the record that a request names, what the user may do with it, the record's row, and the rows of its manual shares.
//!
//! It depends on `store_edit` and `record_read` for what the tables have, on `access_traits` for the user's level on a record, on `record_index` for
//! what a layout converts, and on `schema_rules` for the object that a layout spells. Its contract: over tables in which the organisation's
//! rows stand for a tenant, `find_permitted` finds the object with a name and its record that a text names, on which the user has the
//! level that a request needs, or fails as that request does.
#![tactic(auto)]

mod kept;
mod named;
mod shares;
mod usable;

pub use crate::kept::{KeptRecord, kept_record};
pub use crate::named::{Named, find_permitted, ready_layout};
pub use crate::shares::{remove_shares, shares_of};
pub use crate::usable::is_ready;

//! What a user who doesn't administer may do with an organisation's records, over the tables.
//!
//! `level` has the level on a record that has no master. It depends on `access_closure` for people, on `people_rows` for
//! sharing rules, on `record_target` for manual shares, on `record_read` for records and on `store_abstraction` for layouts. Its contract is that of
//! the two traits of `access_traits`: where an organisation's rows stand for a tenant, the rights of one of its users tell the user's
//! level on each record, details included, and a sight by them whether the user may read the record of a row; and `Everyone` the
//! same of an object that all may read.
#![tactic(auto)]

mod climbing;
mod everyone;
mod level;
mod rights;
mod shares;
mod sight;
mod steps;

pub use crate::everyone::{Everyone, all_may_read};
pub use crate::rights::{UserRights, user_rights};
pub use crate::sight::{UserSight, sight_of};

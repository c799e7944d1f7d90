//! An organisation's users, roles, groups and sharing rules: their rows, and which of them stay where one comes or changes.
//!
//! It depends on `store_abstraction`. Its contract: where an organisation's rows stand for a tenant, it reads the role or the group with
//! an id and all users, roles and groups as the tenant has them; and its laws say what an edit of one of them leaves as it was.
#![tactic(auto)]

mod laws;
mod lists;
mod reads;
mod sharing;

pub use crate::laws::roster_laws;
pub use crate::lists::{groups_of, roles_of, users_of};
pub use crate::reads::{group, role};
pub use crate::sharing::sharing_rules_of;

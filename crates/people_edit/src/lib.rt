//! People: new organisations with their administrators, who calls, and edits of users, roles, groups and the organisation.
//!
//! It depends on `store_abstraction` and `store_edit`. Its contract: tables that stand for a world stand, once an organisation is added,
//! for the world with it at its end; the caller of a key is the definition's; and each edit is that of `Edit`, by its verdict.
#![tactic(auto)]

mod admission;
mod edits;
mod forms;
mod org;

pub use crate::admission::{caller, caller_named};
pub use crate::edits::{AddGroup, AddRole, AddUser, SetGroup, SetOrganisation, SetRole, SetUser};
pub use crate::forms::is_secret;
pub use crate::org::add_org;

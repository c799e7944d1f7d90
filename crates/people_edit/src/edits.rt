//! Edits of people: new users, roles and groups, changes of the old ones, and another name of the organisation.

mod administrators;
mod drawing;
mod groups;
mod hierarchy;
mod ids;
mod kind;
mod members;
mod names;
mod organisation;
mod roles;
mod rows;
mod users;

pub use crate::edits::groups::{AddGroup, SetGroup};
pub use crate::edits::organisation::SetOrganisation;
pub use crate::edits::roles::{AddRole, SetRole};
pub use crate::edits::users::{AddUser, SetUser};

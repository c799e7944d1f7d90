//! Which principals reach a user, whose records are the user's, and whom a user is a member of, from the rows of an
//! organisation's people.
//!
//! It depends on `store_rows` for rows, on `model` for what they mean, on `store_abstraction` for which rows are whose and on
//! `people_rows` for reads. Its contract: for every sound organisation whose people the rows are, and each user of it, what a
//! keyring holds is what reaches the user, and what a membership has is what the user is a member of; where an organisation's
//! rows stand for a tenant, the people that are read are the tenant's.
#![tactic(auto)]

mod chosen;
mod graph;
mod keyring;
mod membership;
mod people;
mod reading;
mod ring;
mod roles;

pub use crate::keyring::Keyring;
pub use crate::membership::Membership;
pub use crate::people::People;
pub use crate::reading::{Sharer, keyring_of};

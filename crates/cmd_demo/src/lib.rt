//! A demo: an organisation of its own, whose records keep being asked for while a field of theirs changes its type.
//!
//! It depends on `cmd_sandbox` for the organisation, for what is made in it and for queries. Its contract: what is told of it is what the
//! verdicts and the steps of the model come to, one after the other.
#![tactic(auto)]

mod asking;
mod items;
mod lines;
mod repeats;
mod show;

pub use crate::show::{DEMO_LIMIT, Demo, make_demo};

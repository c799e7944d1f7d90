//! The history law: what runs of the program do one after the other, from a store that begins empty, in worlds alone.
//!
//! It depends on `platform` for `run`. Its contract: whatever the words, and whatever a crash after each run leaves, the texts,
//! the replies and the statuses of the runs are those of the definitions, in the world that the run before left. Nothing of a
//! table, a row or a key occurs in it.
#![tactic(auto)]

mod laws;
mod twice;

pub use crate::laws::{call_laws, history_laws, history_rows};
pub use crate::twice::run_twice;

//! A keeper of the tables in a SQL database: in memory, or in a file that SQLite reads.
//!
//! All rows of all tables are the rows of one SQL table, `kept`, with a table's number, a key and a row in each. `SqlKeeper`
//! makes that table when it's opened; each batch is one transaction. It depends on `base_value`, `store_kv`, and the crate
//! `sqlite` of the Rattle toolchain, with the crates below that for its contracts and proofs.
//!
//! Its contract is that of `store_kv::Keeper`: if the keeper tells its tables and is trusted after the call, they are the
//! rows of that SQL table; a batch is made whole or not at all, once it's acknowledged a crash leaves it, and a crash in the
//! middle leaves all of it or nothing.
//!
//! # Example
//!
//! ```
//! let mut keeper = SqlKeeper::new(InMemory {});
//! if keeper.open(alloc).is_err() {
//!     if let Some(fault) = keeper.last_fault() {
//!         println!(rt; "{fault}")?;
//!     }
//! }
//! ```
#![tactic(auto)]

mod beside;
mod connected;
mod fault;
mod keeper;
mod opener;
mod refusing;
mod statements;

pub use crate::beside::{make_private, missing_log, remove_log};
pub use crate::connected::Connected;
pub use crate::fault::{DatabaseFault, fault_of};
pub use crate::keeper::SqlKeeper;
pub use crate::opener::{InMemory, OnPath, Opener, Ready};
pub use crate::statements::has_others;

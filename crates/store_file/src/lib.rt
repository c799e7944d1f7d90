//! A keeper of the tables in a file, opened and closed.
//!
//! It depends on `store_kv`, `store_sqlite`, and the crate `sqlite` of the Rattle toolchain with those below that. Its contract:
//! for all contents of the file, what the opened keeper tells is the map of the database that they hold; and once the keeper is
//! closed the file alone holds the tables that the keeper told.
//!
//! # Example
//!
//! ```
//! match open_file(rt, path, Unknown) {
//!     Ok(mut keeper) => {
//!         keeper.open(alloc)?;
//!         let fault = keeper.last_fault();
//!         let _whole = close_file(keeper);
//!     }
//!     Err(unopened) => {}
//! }
//! ```
#![tactic(auto)]

mod files;
mod unopened;

pub use crate::files::{FileKeeper, close_file, open_file};
pub use crate::unopened::Unopened;
pub use sqlite_disk::{Start, Unknown};

//! Serving connections, one after the other: each message is answered in turn, as the step of the world says.
//!
//! It depends on `people_edit`, `store_abstraction` and `server_http`, and on the traits of `base_io` and `store_kv`. Its contract: a
//! connection over tables that stand for a world is one that its definition allows, with the replies of the step of the
//! world in turn, and the tables then stand for the world after the last request. The connections of a door are served so
//! in their order, each in the world that the one before it left.
//!
//! # Example
//!
//! ```
//! let mut wire = Pair::new(&mut source, &mut sink);
//! connection(alloc, &mut keeper, &mut wire, &mut clock)?;
//! ```
#![tactic(auto)]

mod doors;
mod laws;
mod lines;
mod replies;
mod request;
mod wire;

pub use crate::doors::open_and_serve;
pub use crate::laws::{connection_laws, damage_laws, isolation_laws, serving_laws};
pub use crate::lines::connection;
pub use crate::request::{Answer, answer_message};
pub use crate::wire::{LineFail, Pair, Wire};

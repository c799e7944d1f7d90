//! The program as one call: `run` does what the words of a command line say, over what is handed in.
//!
//! It depends on `commands` for the words and the commands that print, on `server` for connections, and on the outside (`base_io`),
//! the keeper and the tables that stand for a world. Its contract: the status, the bytes written, the connections served and the world
//! afterwards are those of the definitions `printed` and `step`, and every other status has its cause.
#![tactic(auto)]

mod laws;
mod running;
mod serving;

pub use crate::laws::{printed_rows, run_laws, serving_rows};
pub use crate::running::run;

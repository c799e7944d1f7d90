//! Case files and scripts over keepers in memory. A case file says who asks, what is asked and what must come; a line of a script is a
//! JSON object that says what to run, and over what, and a run is answered by a JSON object.
//!
//! It depends on `platform` for `run`, on the objects in memory of `base_io` and `store_kv`, on `base_json`, and on the
//! toolchain's `hex`. It is a tool of the tests, and has no contract but that it is safe and ends. `run_script` does what the
//! program's words say.
#![tactic(auto)]

mod cases;
mod ending;
mod given;
mod line;
mod list;
mod output;
mod parts;
mod reading;
mod replaying;
mod report;
mod rows;
mod script;

pub use crate::replaying::{End, Replay};
pub use crate::script::run_script;

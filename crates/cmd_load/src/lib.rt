//! CSV texts, loaded row by row into an object by a user of an organisation, in batches.
//!
//! It depends on `cmd_load_row` for one row, on `cmd_auth` for who asks and for the step of a change of a field's type, on `cmd_load_plan` for
//! headings, on `base_csv` for the records of a text, and on `base_io` for the clock. Its contract: a batch of rows comes to what its rows
//! come to as requests, one after the other, each at its own moment; it is judged over one draft, so all of it is made or nothing.
#![tactic(auto)]

mod batch;
mod cells;
mod input;
mod laws;
mod rows;
mod target;

pub use crate::batch::{Loading, load_batch};
pub use crate::input::plan_input;
pub use crate::laws::batch_laws;
pub use crate::rows::{Row, Rows};
pub use crate::target::{Target, find_target};

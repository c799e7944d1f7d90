//! CSV texts that are loaded into an object.
//!
//! It depends on `model` for the requests that rows make, on `record_input` and `query_plan` for the fields that cells name, and on
//! `base_csv` for lines. Its definitions say which columns a heading has, which request each row makes, and which line tells
//! what became of it. Its contract: what it returns is what they say, for the object that the layout spells.
#![tactic(auto)]

mod columns;
mod heading;
mod laws;
mod lines;
mod plan;
mod rows;
mod worked;

pub use crate::heading::load_plan;
pub use crate::laws::load_laws;
pub use crate::lines::{done_line, heading_line, refused_line};
pub use crate::plan::{LoadColumn, LoadPlan};
pub use crate::rows::row_values;
pub use crate::worked::{heading_rows, load_rows};

//! A query over a CSV text: what it comes to, and the lines of the rows that it finds.
//!
//! It depends on `base_csv` for the records of the text, on `cmd_sandbox` for the organisation that they make and for the query, and on
//! `schema_edit` and `record_save` for what is made in it. Its contract: what a query comes to over the bytes of an input is that of the
//! verdicts which make an organisation of them, a field for each column and a record for each row, and of the verdict of the query in it.
#![tactic(auto)]

mod columns;
mod given;
mod input;
mod organisation;
mod outcome;
mod rows;

pub use crate::input::{INPUT_LIMIT, answer_input};
pub use crate::outcome::Outcome;

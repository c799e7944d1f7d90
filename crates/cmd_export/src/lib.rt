//! Exports: the rows of a query as lines of CSV, asked by a user of an organisation.
//!
//! It depends on `cmd_auth` for what is asked behind the step, on `query_run` for queries of callers, on `query_csv` for lines, and on
//! `soql_parser` for texts. Its contract is that of `Ask`, by the definition `exported`.
#![tactic(auto)]

mod export;
mod lines;

pub use crate::export::Export;

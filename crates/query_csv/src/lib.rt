//! Queries whose rows are lines of CSV: a line of the names that they select, and one for each record.
//!
//! It depends on `query_check` for why a query is refused, on `query_bind` and `query_plan` for what its names mean, on `query_json` and
//! `query_exec` for the records, on `query_related` for their parents, and on `base_csv` for the bytes of a line. Its contract: where the
//! organisation's rows stand for a tenant of whose user the sight and the rights are, the lines are those of what the query finds.
#![tactic(auto)]

mod answer;
mod form;
mod line;
mod names;

pub use crate::answer::answer_lines;

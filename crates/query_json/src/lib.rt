//! The reply to a query: its refusal, or its rows in JSON.
//!
//! It depends on `query_check` for why the query is refused, on `query_bind` and `query_plan` for what its names mean, on `query_exec` for
//! the records, on `query_related` for those to which they are related, and on `api_output` for the bytes; `row` writes a row. Its contract: where the
//! organisation's rows stand for a tenant of whose user the sight is, the reply is that of the query's verdict.
#![tactic(auto)]

mod answer;
mod ranks;
mod row;
mod rows;
mod test;

pub use crate::answer::{answer_flat, answer_related, refuse, write_chosen};
pub use crate::row::is_printable;

//! Rows of a query in JSON, by the members of a plan.
//!
//! It depends on `query_plan` for what a row shows, and on `api_output` for the bytes. Its contract: `write_row` writes the row that
//! `row_text` gives of a row's record, of the records of its branches and of its children, behind a comma.

mod children;
mod members;
mod rows;
mod values;

pub use self::rows::write_row;
pub use self::values::is_printable;

//! A CSV source as a table of records.
//!
//! It depends on the toolchain's `csv` alone. Its contract: a table is read exactly where no record of the source is
//! refused, and then with exactly its records; else the first refused record is told, with its number and where it stands.
//! `Records` gives the same records one at a time. `record_text` gives the text of a record.
//!
//! # Example
//!
//! `Name`, `Ada`, `Bob`, a line each, are three records of one cell. With `Ada,Bob` in place of `Ada` the record 1 is
//! refused, in line 2 and column 2.
#![tactic(auto)]

mod fail;
mod laws;
mod place;
mod read;
mod records;
mod text;

pub use crate::fail::TableFail;
pub use crate::laws::table_rows;
pub use crate::read::read_table;
pub use crate::records::Records;
pub use crate::text::record_text;

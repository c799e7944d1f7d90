//! Reads: requests that change nothing and are answered from the organisation as it is, and what each of them is told.
//!
//! It depends on `model` for organisations and on `base_json_tree` for values of JSON. What each read comes to is `told_of` of
//! `specs/Reads.antt`, a value of JSON or a refusal; a read knows nothing of routes, bodies or tables. Its contract: `value_part` returns
//! the text that a part of a path stands for, and a read leaves the organisation as it was.
#![tactic(auto)]

mod laws;
mod part;
mod read;
mod rows;

pub use crate::laws::read_laws;
pub use crate::part::value_part;
pub use crate::read::Read;
pub use crate::rows::{caller_rows, record_rows, refusal_rows};

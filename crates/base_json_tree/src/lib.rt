//! Bodies in JSON as values that are put together member by member, and one printer of them.
//!
//! It depends on `base_json`, which has the values and the writer. Its contract: each call returns the value of the word in
//! `specs/Words.antt` of its name, or is out of memory; and `print` the bytes of the characters of `body`.
#![tactic(auto)]

mod lists;
mod members;
mod printing;
mod values;

pub use crate::lists::{Told, list_of, named_list};
pub use crate::members::Members;
pub use crate::printing::print;
pub use crate::values::{id_json, number_json, or_null_id, or_null_text, text_json, texts_json};

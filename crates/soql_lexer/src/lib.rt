//! What the grammar of queries sees of the tokens of a text.
//!
//! It depends on `soql`, which has the grammar, on `soql`, `base_grammar` and `base_value`. Its contract: `signs`
//! returns of each token what the definition `sign_of` gives it, or is out of memory.
#![tactic(auto)]

mod words;

pub use crate::words::signs;

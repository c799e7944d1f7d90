//! The texts of queries.
//!
//! It depends on `base_value`, `base_grammar`, `soql` and `soql_parser`. Its contract: `print` returns the text that the definition
//! `printed` gives a query, or is out of memory. Where some text spells a query, what is printed of it spells it again.
#![tactic(auto)]

mod conditions;
mod laws;
mod printed;
mod queries;
mod values;
mod writer;

pub use crate::laws::printing_laws;
pub use crate::queries::print;

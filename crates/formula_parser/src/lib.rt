//! Formulas as texts: how a text spells a formula over some fields.
//!
//! It depends on `formula`, which has the formulas, and on `base_grammar`. Its contract: `parse` returns a formula exactly
//! where the text spells one, and then that one, and refuses all else at exactly the place that the grammar defines.
//! `formula` says that a text spells at most one formula and is refused at one place, and by what both are computed.
#![tactic(auto)]

mod parsing;
mod reader;
mod texts;
mod values;
mod words;

pub use crate::parsing::parse;
pub use crate::texts::spelled_rows;
pub use base_grammar::ParseFail;
pub use formula::{Fields, Formula, NamedField};

//! Formulas: what they are, which fields they name, what they mean on a record, and their grammar.
//!
//! It depends on `base_value`, and for the grammar on `base_grammar`. Its contract: `holds` and `names` are the definitions of these names, and `formula_laws` says what
//! they give of a formula within NOT, AND and OR. How a text spells a formula is in `formula_parser`.
#![tactic(auto)]

mod formula;
mod grammar;
mod judging;
mod laws;
mod naming;
mod worked;

pub use crate::formula::{Fields, Formula, NamedField, Record, Relation, Term};
pub use crate::grammar::{Kind, Sign, SignKind, Sort, sort_of, spelling_laws};
pub use crate::judging::holds;
pub use crate::laws::formula_laws;
pub use crate::naming::names;
pub use crate::worked::{comparison_rows, logic_rows, naming_rows, term_rows, test_rows};

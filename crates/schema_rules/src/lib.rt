//! An object's validation rules, by its layout.
//!
//! It depends on `store_abstraction`. Its contract: where an organisation's rows stand for a tenant it reads the rules that the object
//! has, and says which of them a record fails first; the text of a rule is read over the fields that the layout has, as the model
//! says.
#![tactic(auto)]

mod failing;
mod formulas;
mod rows;

pub use crate::failing::failed_rule;
pub use crate::formulas::{names_field, read_formula, read_text};
pub use crate::rows::rules_of;

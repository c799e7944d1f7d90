//! Which rows of an organisation differ where the change of a field's type begins, ends before its time, is switched, or is done.
//!
//! It depends on `store_abstraction` and `store_edit`. Its contract: the row of the change alone differs, and at the switch that of the field,
//! however many records there are; and these are the changes that such an edit makes (`Takes`).
#![tactic(auto)]

mod laws;

pub use crate::laws::switch_laws;

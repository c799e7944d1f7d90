//! An administrator's edits of metadata: new objects, another default access, new fields, new validation rules and their end.
//!
//! It depends on `model`, `store_abstraction` and `store_edit`. Its contract is that of `Edit`: each is judged by its verdict, and its
//! changes take the organisation's rows to those of what the verdict leaves.
#![tactic(auto)]

mod edits;
mod judging;
mod members;
mod references;
mod relations;
mod rules;
mod slots;

pub use crate::edits::{AddField, AddObject, AddValidationRule, RemoveValidationRule, SetObject};
pub use crate::slots::free_slot;

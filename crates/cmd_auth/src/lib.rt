//! What users ask of their organisations by the words of a command: who asks is found, a step of the change of a field's type is
//! made, if one is under way, and then it is done, all over one draft.
//!
//! It depends on `people_edit` for who asks, and on `retype_step` for the step. Its contract: over tables in which the rows of the
//! organisation that is named stand for a tenant, or for none, it comes to what the definition says there, whatever the rows of others
//! are, and of these none changes.
#![tactic(auto)]

mod asking;
mod laws;

pub use crate::asking::{Ask, answer_asked};
pub use crate::laws::asking_laws;

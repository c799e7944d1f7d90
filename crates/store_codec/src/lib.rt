//! The parts of keys and rows: how each is spelled in bytes, and how it is read back.
//!
//! A shape names the parts of a key or a row, and everything that is said of a shape is a recursion over it: its values,
//! their spelling, what fits, the reader and the order. This crate depends on `base_value`, and on `store_kv` for the order
//! of keys. Its contract: what a part's `take` reads is spelled so and fits, what is spelled so is read, whatever follows
//! it, and the spellings of keys are ordered as their parts in turn.
#![tactic(auto)]

mod choices;
mod fail;
mod laws;
mod lists;
mod named;
mod numbers;
mod pairs;
mod part;
mod texts;
mod types;

pub use crate::choices::{FieldFlags, ObjectAccess, UserStanding};
pub use crate::fail::CodecFail;
pub use crate::laws::shape_laws;
pub use crate::lists::Slots;
pub use crate::pairs::Mark;
pub use crate::part::{Part, both_of, spelling_of, whole_of};

//! The tables: what keeps them, how they are changed, and how they are walked.
//!
//! A keeper keeps all tables: a finite map from a table's number and a key to a row. It may fail, counts what it shows
//! and writes, and says what a crash may leave. This crate has the trait, a keeper in memory, drafts of changes, and the
//! words in which the layers above speak of a walk. It depends on `base_value`.
//!
//! Its contract: a draft reads as the keeper will once the draft's changes are made, and they are made all together or
//! not at all.
#![tactic(auto)]

mod changes;
mod draft;
mod keeper;
mod laws;
mod memory;
mod merge;
mod order;
mod paged;
mod place;
mod prefix;
mod rows;

pub use crate::draft::Draft;
pub use crate::keeper::{Batch, Change, KeepFail, Keeper, KeptRow};
pub use crate::laws::{draft_laws, draft_rows, key_laws, walk_laws};
pub use crate::memory::MemoryKeeper;
pub use crate::paged::{all_rows, next_key};
pub use crate::prefix::prefix_ends;

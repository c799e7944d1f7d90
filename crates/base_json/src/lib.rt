//! JSON read and written exactly: a decimal never passes through a float.
//!
//! It depends on `base_value` alone. Its contract: `read` returns a value exactly where `Spells` of `specs/Grammar.antt`
//! says that the bytes spell it, and that one, unless out of memory; and what a `Writer` writes for a value spells it.
#![tactic(auto)]

mod amount;
mod laws;
mod numeral;
mod printing;
mod quoted;
mod reader;
mod scan;
mod tree;
mod writer;

pub use crate::laws::{json_laws, law_rows};
pub use crate::reader::read;
pub use crate::tree::{Json, Member, Num};
pub use crate::writer::{Mark, Writer};

/// Why nothing was read.
#[derive(Clone, Copy, Debug, PartialEq, Eq)]
pub enum JsonFail {
    /// The bytes aren't a JSON text of at most 32 brackets open at once.
    NotJson,
    /// Out of memory.
    Memory,
}

impl From<std::alloc::AllocError> for JsonFail {
    ghost use Rattle.base_json.specs.declared.JsonFail.TheVariants.{Memory};
    ghost use Rattle.std.specs.Prelude.{◌≡◌};

    ghost from_gives = { λ _ e. e ≡ Memory };

    fn from(_: std::alloc::AllocError) -> JsonFail {
        JsonFail::Memory
    }
}

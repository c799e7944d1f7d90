ghost use Rattle.std.specs.Prelude.{◌≡◌};
ghost use Rattle.store_codec.specs.declared.fail.CodecFail.TheVariants.{Memory};

use std::alloc::{AllocError, AllocFailed};

/// Why a key and a row weren't read.
#[derive(Clone, Copy, Debug, PartialEq, Eq)]
pub enum CodecFail {
    /// The key or the row isn't in its table's grammar.
    Damaged,
    /// Out of memory.
    Memory,
}

impl From<AllocError> for CodecFail {
    ghost from_gives = { λ _ e. e ≡ Memory };

    fn from(_: AllocError) -> Self {
        CodecFail::Memory
    }
}

impl<T: Drop> From<AllocFailed<T>> for CodecFail {
    ghost from_gives = { λ _ e. e ≡ Memory };

    fn from(_: AllocFailed<T>) -> Self {
        CodecFail::Memory
    }
}

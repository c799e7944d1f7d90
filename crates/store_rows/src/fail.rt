ghost use Rattle.std.specs.Prelude.{◌≡◌};
ghost use Rattle.store_rows.specs.declared.fail.StoreFail.TheVariants.{Memory as NoMemory};
ghost use Rattle.store_rows.specs.Fails.{of_codec, of_keeper};

use std::alloc::AllocError;
use store_codec::CodecFail;
use store_kv::KeepFail;

/// Why work on the tables stopped.
#[derive(Clone, Copy, Debug, PartialEq, Eq)]
pub enum StoreFail {
    /// The keeper failed, and counted it.
    Keeper,
    /// Out of memory.
    Memory,
    /// A key or a row isn't in its table's grammar.
    Damaged,
}

impl From<AllocError> for StoreFail {
    ghost from_gives = { λ _ e. e ≡ NoMemory };

    fn from(_: AllocError) -> Self {
        StoreFail::Memory
    }
}

impl From<KeepFail> for StoreFail {
    ghost from_gives = { λ fail e. e ≡ of_keeper fail };

    fn from(fail: KeepFail) -> Self {
        match fail {
            KeepFail::Failed => StoreFail::Keeper,
            KeepFail::Memory => StoreFail::Memory,
        }
    }
}

impl From<CodecFail> for StoreFail {
    ghost from_gives = { λ fail e. e ≡ of_codec fail };

    fn from(fail: CodecFail) -> Self {
        match fail {
            CodecFail::Damaged => StoreFail::Damaged,
            CodecFail::Memory => StoreFail::Memory,
        }
    }
}

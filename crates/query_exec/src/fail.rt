ghost use Rattle.std.specs.Prelude.{◌≡◌};
ghost use Rattle.query_exec.specs.Fails.{of_codec, of_store};
ghost use Rattle.store_rows.specs.declared.fail.StoreFail.TheVariants.{Memory};

use std::alloc::AllocError;
use store_codec::CodecFail;
use store_rows::StoreFail;

/// Why rows weren't written.
#[derive(Clone, Copy, Debug, PartialEq, Eq)]
pub enum ExecFail {
    /// The work on the tables stopped.
    Store(StoreFail),
    /// The rows have more bytes than there is room for.
    TooLarge,
}

impl From<StoreFail> for ExecFail {
    ghost from_gives = { λ fail e. e ≡ of_store fail };

    fn from(fail: StoreFail) -> Self {
        ExecFail::Store(fail)
    }
}

impl From<CodecFail> for ExecFail {
    ghost from_gives = { λ fail e. e ≡ of_codec fail };

    fn from(fail: CodecFail) -> Self {
        ExecFail::Store(StoreFail::from(fail))
    }
}

impl From<AllocError> for ExecFail {
    ghost from_gives = { λ _ e. e ≡ of_store Memory };

    fn from(_: AllocError) -> Self {
        ExecFail::Store(StoreFail::Memory)
    }
}

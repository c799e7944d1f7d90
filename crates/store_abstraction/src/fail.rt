ghost use Rattle.std.specs.Prelude.{◌≡◌};
ghost use Rattle.store_rows.specs.declared.fail.StoreFail.TheVariants.{Memory};
ghost use Rattle.store_abstraction.specs.Fails.{of_keeper, of_store, of_store_opening};

use model::Refusal;
use std::alloc::AllocError;
use store_kv::KeepFail;
use store_rows::StoreFail;

/// Why an edit wasn't made.
#[derive(Drop)]
pub enum EditFail {
    /// It is refused, and has changed nothing.
    Refused(Refusal),
    /// The work on the tables stopped.
    Store(StoreFail),
}

impl From<StoreFail> for EditFail {
    ghost from_gives = { λ fail e. e ≡ of_store fail };

    fn from(fail: StoreFail) -> Self {
        EditFail::Store(fail)
    }
}

impl From<AllocError> for EditFail {
    ghost from_gives = { λ _ e. e ≡ of_store Memory };

    fn from(_: AllocError) -> Self {
        EditFail::Store(StoreFail::Memory)
    }
}

/// Why tables weren't opened.
#[derive(Clone, Copy, Debug, PartialEq, Eq)]
pub enum OpenFail {
    /// The work on the tables stopped.
    Store(StoreFail),
    /// The tables are of a version that isn't known here.
    UnknownVersion,
}

impl From<StoreFail> for OpenFail {
    ghost from_gives = { λ fail e. e ≡ of_store_opening fail };

    fn from(fail: StoreFail) -> Self {
        OpenFail::Store(fail)
    }
}

impl From<KeepFail> for OpenFail {
    ghost from_gives = { λ fail e. e ≡ of_store_opening (of_keeper fail) };

    fn from(fail: KeepFail) -> Self {
        OpenFail::Store(StoreFail::from(fail))
    }
}

//! Why a value wasn't read.

ghost use Rattle.std.specs.Prelude.{◌≡◌, IfOk};
ghost use Rattle.record_input.specs.inner.Read.{as_unread};

use model::Refusal;
use std::alloc::{AllocError, AllocFailed};

/// Why a value wasn't read.
#[derive(Drop)]
pub(crate) enum Unread {
    /// It is refused.
    Refused(Refusal),
    /// Out of memory.
    Memory,
}

impl From<AllocError> for Unread {
    ghost use Rattle.std.specs.Prelude.{◌≡◌};
    ghost use Rattle.record_input.specs.declared.unread.Unread.TheVariants.{Memory};

    ghost from_gives = { λ _ e. e ≡ Memory };

    fn from(_: AllocError) -> Unread {
        Unread::Memory
    }
}

impl<T: Drop> From<AllocFailed<T>> for Unread {
    ghost use Rattle.std.specs.Prelude.{◌≡◌};
    ghost use Rattle.record_input.specs.declared.unread.Unread.TheVariants.{Memory};

    ghost from_gives = { λ _ e. e ≡ Memory };

    fn from(_: AllocFailed<T>) -> Unread {
        Unread::Memory
    }
}

/// What was read, or its refusal, where there was memory.
pub(crate) fn ended<X: Drop>(read: Result<X, Unread>) -> Result<Result<X, Refusal>, AllocError>
    ensures { IfOk result (λ r. read ≡ as_unread r) }
{
    match read {
        Ok(value) => Ok(Ok(value)),
        Err(Unread::Refused(refusal)) => Ok(Err(refusal)),
        Err(Unread::Memory) => Err(AllocError),
    }
}

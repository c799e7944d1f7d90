//! Why a body says nothing.

ghost use Rattle.std.specs.Prelude.{◌≡◌};
ghost use Rattle.api_input.specs.inner.Outcomes.{outcome};

use std::alloc::AllocError;

/// Why a body, or a part of it, says nothing.
#[derive(Clone, Copy, Debug, PartialEq, Eq)]
pub(crate) enum BodyFail {
    /// It isn't of its form.
    Form,
    /// Out of memory.
    Memory,
}

impl From<AllocError> for BodyFail {
    ghost use Rattle.std.specs.Prelude.{◌≡◌};
    ghost use Rattle.api_input.specs.declared.fail.BodyFail.TheVariants.{Memory};

    ghost from_gives = { λ _ e. e ≡ Memory };

    fn from(_: AllocError) -> BodyFail {
        BodyFail::Memory
    }
}

/// What was read, where what isn't of its form is none.
pub(crate) fn or_none<T>(read: Result<T, BodyFail>) -> Result<Option<T>, AllocError>
    ensures { result ≡ outcome read }
{
    match read {
        Ok(value) => Ok(Some(value)),
        Err(BodyFail::Form) => Ok(None),
        Err(BodyFail::Memory) => Err(AllocError),
    }
}

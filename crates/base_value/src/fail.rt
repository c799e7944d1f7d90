ghost use Rattle.std.specs.Prelude.{◌≡◌};
ghost use Rattle.base_value.specs.declared.fail.ConvertFail.TheVariants as convert;
ghost use Rattle.base_value.specs.declared.fail.ValueFail.TheVariants as value;

use std::alloc::AllocError;
use thiserror::Error;

/// Why a text or a value isn't a value of a type.
#[derive(Clone, Copy, Debug, PartialEq, Eq, Error)]
pub enum ValueFail {
    /// It should be an id.
    #[error("not an id")]
    NotAnId,
    /// It is of another kind.
    #[error("of the wrong type")]
    WrongType,
    /// It has too many characters.
    #[error("too long")]
    TooLong,
    /// It is outside the range of its type.
    #[error("out of range")]
    OutOfRange,
    /// It isn't listed.
    #[error("not a listed value")]
    NotListed,
    /// Out of memory.
    #[error("out of memory")]
    Memory,
}

/// Why a value wasn't converted.
#[derive(Clone, Copy, Debug, PartialEq, Eq, Error)]
pub enum ConvertFail {
    /// The new type has no value for it.
    #[error("not convertible to the new type")]
    NotConvertible,
    /// Out of memory.
    #[error("out of memory")]
    Memory,
}

impl From<AllocError> for ValueFail {
    ghost from_gives = { λ _ e. e ≡ value.Memory };

    fn from(_error: AllocError) -> ValueFail {
        ValueFail::Memory
    }
}

impl From<AllocError> for ConvertFail {
    ghost from_gives = { λ _ e. e ≡ convert.Memory };

    fn from(_error: AllocError) -> ConvertFail {
        ConvertFail::Memory
    }
}

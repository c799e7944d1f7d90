//! Why nothing is read.

use std::alloc::AllocError;

/// Why a part of a grammar isn't read.
#[derive(Clone, Copy, Debug, PartialEq, Eq)]
pub enum Fail {
    /// With so many tokens left, none could follow.
    Stuck(usize),
    /// Out of memory.
    Memory,
}

impl From<AllocError> for Fail {
    ghost use Rattle.std.specs.Prelude.{◌≡◌};
    ghost use Rattle.base_grammar.specs.declared.fail.Fail.TheVariants.{Memory};

    ghost from_gives = { λ _ e. e ≡ Memory };

    fn from(_: AllocError) -> Fail {
        Fail::Memory
    }
}

/// Why a text isn't read.
#[derive(Clone, Copy, Debug, PartialEq, Eq)]
pub enum ParseFail {
    /// The byte at which the first token begins that can't follow, or the length of the text.
    Malformed(usize),
    /// Out of memory.
    Memory,
}

impl From<AllocError> for ParseFail {
    ghost use Rattle.std.specs.Prelude.{◌≡◌};
    ghost use Rattle.base_grammar.specs.declared.fail.ParseFail.TheVariants.{Memory};

    ghost from_gives = { λ _ e. e ≡ Memory };

    fn from(_: AllocError) -> ParseFail {
        ParseFail::Memory
    }
}

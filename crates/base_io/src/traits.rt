ghost use Rattle.std.specs.Prelude.{◌<◌, IfOk, IsErr, List, length, Option, ℕ};
ghost use Rattle.std.specs.Io.{ReadsAtMost, WritesAtMost};
ghost use Rattle.std.specs.Io.KnownBytes.{ReadConsumes, WriteAppends};
ghost use Rattle.base_value.specs.Causes.{Cause};

use thiserror::Error;

/// The outside failed.
#[derive(Clone, Copy, Debug, PartialEq, Eq, Error)]
#[error("input or output failed")]
pub struct IoFail;

/// A source of bytes.
pub trait Source {
    /// The bytes left, where the source tells them.
    ghost left: { Self → Option (List ℕ) };

    /// How many reads have failed.
    ghost faults: { Self → ℕ };

    /// What reads leave as it is: the object itself, and all that it holds but the bytes left.
    ghost stays: { Self → Self → Type 0 };

    /// Reads bytes into the start of a piece, and returns how many. None, for a piece that isn't empty, is the end.
    ///
    /// # Errors
    ///
    /// Where the source fails, which it counts; the bytes left are then as they were.
    fn read(&mut self, into: &mut [u8]) -> Result<usize, IoFail>
        ensures bound { ReadsAtMost result into.new }
        ensures bytes { ReadConsumes (left self.old) (left self.new) result into.new }
        ensures stays { stays self.old self.new }
        ensures cause { Cause (faults self.old) (faults self.new) (IsErr result) };

    ghost stays_refl: { (a : Self) → stays a a };

    ghost stays_trans: { (a b c : Self) → stays a b → stays b c → stays a c };
}

/// A sink of bytes.
pub trait Sink {
    /// The bytes written, where the sink tells them.
    ghost written: { Self → Option (List ℕ) };

    /// How many writes have failed.
    ghost faults: { Self → ℕ };

    /// What writes leave as it is: the object itself, and all that it holds but the bytes written.
    ghost stays: { Self → Self → Type 0 };

    /// Writes a prefix of a piece, which isn't empty where the piece isn't, and returns how many bytes it has.
    ///
    /// # Errors
    ///
    /// Where the sink fails or takes nothing of a piece that isn't empty, which it counts; nothing is written then.
    fn write(&mut self, piece: &[u8]) -> Result<usize, IoFail>
        ensures bound { WritesAtMost result piece.now }
        ensures progress { IfOk result (λ n. 0 < length piece.now → 0 < n) }
        ensures bytes { WriteAppends (written self.old) (written self.new) result piece.now }
        ensures stays { stays self.old self.new }
        ensures cause { Cause (faults self.old) (faults self.new) (IsErr result) };

    ghost stays_refl: { (a : Self) → stays a a };

    ghost stays_trans: { (a b c : Self) → stays a b → stays b c → stays a c };
}

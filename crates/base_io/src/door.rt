ghost use Rattle.std.specs.Prelude.{◌≡◌, ◌<◌, length, IfOk, IsErr, Ok, ℕ, List, Option};
ghost use Rattle.std.proofs.Common.{◌∙◌};
ghost use Rattle.std.specs.Io.{ReadsAtMost, WritesAtMost};
ghost use Rattle.std.specs.Io.KnownBytes.{ReadConsumes, WriteAppends};
ghost use Rattle.base_value.specs.Causes.{Cause};
ghost use Rattle.base_io.specs.Doors.{DoorState, IsUnconnected, KeepsDoor, Nexts, ReadKeeps, WriteKeeps, input_of, output_of};
ghost use Rattle.base_io.specs.inner.DoorLaws.{ReadKeeps-refl, ReadKeeps-trans, WriteKeeps-refl, WriteKeeps-trans};

use crate::traits::{IoFail, Sink, Source};

/// A door through which connections come, one after the other.
pub trait Door {
    /// The connections to come, the present one if there is one, and the outputs of those that ended, where the door
    /// tells them.
    ghost held: { Self → Option DoorState };

    /// How many calls of `open` and `next` have failed.
    ghost faults: { Self → ℕ };

    /// How many calls of `read` and `write` have failed.
    ghost line_faults: { Self → ℕ };

    /// Opens the door.
    ///
    /// # Errors
    ///
    /// Where it can't be opened, which counts as a fault of the door.
    fn open(&mut self) -> Result<(), IoFail>
        ensures keeps { KeepsDoor (held self.old) (held self.new) }
        ensures line_faults { line_faults self.new ≡ line_faults self.old }
        ensures cause { Cause (faults self.old) (faults self.new) (IsErr result) };

    /// Ends the present connection and brings the next one, or returns false where none is to come.
    ///
    /// # Errors
    ///
    /// Where the door fails, which it counts; the present connection stays.
    fn next(&mut self) -> Result<bool, IoFail>
        ensures next { Nexts (held self.old) (held self.new) result }
        ensures line_faults { line_faults self.new ≡ line_faults self.old }
        ensures cause { Cause (faults self.old) (faults self.new) (IsErr result) };

    /// Reads from the present connection as from a source. Without one it returns 0.
    ///
    /// # Errors
    ///
    /// Where the connection fails, which counts as a fault of lines; the door is then as it was.
    fn read(&mut self, into: &mut [u8]) -> Result<usize, IoFail>
        ensures bound { ReadsAtMost result into.new }
        ensures bytes { ReadConsumes (input_of (held self.old)) (input_of (held self.new))
            result into.new }
        ensures keeps { ReadKeeps (held self.old) (held self.new) }
        ensures unconnected { IsUnconnected (held self.old) → result ≡ Ok 0 }
        ensures failed { IsErr result → KeepsDoor (held self.old) (held self.new) }
        ensures faults { faults self.new ≡ faults self.old }
        ensures cause { Cause (line_faults self.old) (line_faults self.new) (IsErr result) };

    /// Writes to the present connection as to a sink.
    ///
    /// # Errors
    ///
    /// Where the connection fails, or takes nothing of a piece that isn't empty, as where there is none. This counts as a
    /// fault of lines; the door is then as it was.
    fn write(&mut self, piece: &[u8]) -> Result<usize, IoFail>
        ensures bound { WritesAtMost result piece.now }
        ensures progress { IfOk result (λ n. 0 < length piece.now → 0 < n) }
        ensures bytes { WriteAppends (output_of (held self.old)) (output_of (held self.new))
            result piece.now }
        ensures keeps { WriteKeeps (held self.old) (held self.new) }
        ensures unconnected { IsUnconnected (held self.old) → 0 < length piece.now → IsErr result }
        ensures failed { IsErr result → KeepsDoor (held self.old) (held self.new) }
        ensures faults { faults self.new ≡ faults self.old }
        ensures cause { Cause (line_faults self.old) (line_faults self.new) (IsErr result) };
}

/// The present connection of a door, as a source and a sink.
#[derive(Debug, Drop)]
pub struct Line<'a, D> {
    door: &'a mut D,
}

impl<'a, D: Door> Line<'a, D> {
    /// The present connection of this door.
    pub fn new(door: &'a mut D) -> Line<'a, D>
        ensures same { result.door.ghost_name ≡ door.entry.ghost_name }
        ensures held { result.door.now ≡ door.old }
    {
        Line { door }
    }
}

impl<'a, D: Door> Source for Line<'a, D> {
    ghost left = { λ l. input_of (D.held l.door.now) };

    ghost faults = { λ l. D.line_faults l.door.now };

    ghost stays = { λ a b. (b.door.ghost_name ≡ a.door.ghost_name)
        × ReadKeeps (D.held a.door.now) (D.held b.door.now) × (D.faults b.door.now ≡ D.faults a.door.now) };

    ghost stays_refl = { λ a.
        (λ i. a.door.ghost_name, ReadKeeps-refl (D.held a.door.now), λ i. D.faults a.door.now) };

    ghost stays_trans = { λ a b c h k.
        (k.0 ∙ h.0, ReadKeeps-trans (D.held a.door.now) (D.held b.door.now) (D.held c.door.now) h.1 k.1, k.2 ∙ h.2) };

    fn read(&mut self, into: &mut [u8]) -> Result<usize, IoFail> {
        self.door.read(into)
    }
}

impl<'a, D: Door> Sink for Line<'a, D> {
    ghost written = { λ l. output_of (D.held l.door.now) };

    ghost faults = { λ l. D.line_faults l.door.now };

    ghost stays = { λ a b. (b.door.ghost_name ≡ a.door.ghost_name)
        × WriteKeeps (D.held a.door.now) (D.held b.door.now) × (D.faults b.door.now ≡ D.faults a.door.now) };

    ghost stays_refl = { λ a.
        (λ i. a.door.ghost_name, WriteKeeps-refl (D.held a.door.now), λ i. D.faults a.door.now) };

    ghost stays_trans = { λ a b c h k.
        (k.0 ∙ h.0, WriteKeeps-trans (D.held a.door.now) (D.held b.door.now) (D.held c.door.now) h.1 k.1, k.2 ∙ h.2) };

    fn write(&mut self, piece: &[u8]) -> Result<usize, IoFail> {
        self.door.write(piece)
    }
}

ghost use Rattle.std.specs.Prelude.{refl, ◌≡◌, ◌<◌, [], length, IfOk, IsErr, Some};
ghost use Rattle.std.proofs.Common.{◌∙◌};
ghost use Rattle.std.specs.Io.{WritesAtMost};
ghost use Rattle.std.specs.Io.KnownBytes.{WriteAppends};
ghost use Rattle.base_value.specs.Causes.{Cause};
ghost use Rattle.base_io.specs.Memory.{after_write, write_answer};

use crate::schedule::{Schedule, one_more};
use crate::traits::{IoFail, Sink};
use std::alloc::{AllocError, Global};
use std::marker::Model;

/// A sink of bytes in memory with limited room, some of whose writes fail.
#[derive(Debug, Drop)]
pub struct MemorySink {
    bytes: Vec<u8>,
    room: usize,
    schedule: Schedule,
    faults: u64,
}

impl Model for MemorySink {
    ghost use Rattle.std.specs.Prelude.{vec_len, ◌≤◌};
    ghost use Rattle.std.specs.Vec.{vec_capacity};
    ghost use Rattle.base_io.specs.Memory.{Output};

    ghost Value = { Output };

    ghost view = { λ s. record {
      written = s.bytes.items;
      room = s.room;
      calls = s.schedule.made;
      failing = s.schedule.failing;
      faults = s.faults;
    } };

    ghost invariant = { λ s. (vec_len s.bytes ≤ s.room) × (s.room ≤ vec_capacity s.bytes) };
}

impl MemorySink {
    /// A sink with room for `room` bytes in all, which it takes now: no write asks for memory. The calls with the
    /// numbers in `failing`, from 1, fail.
    ///
    /// # Errors
    ///
    /// Where it is out of memory.
    pub fn new(alloc: Global, room: usize, failing: &[u64]) -> Result<MemorySink, AllocError>
        ensures { IfOk result (λ s. s
            ≡ record { written = []; room = room; calls = 0; failing = failing.now; faults = 0 }) }
    {
        Ok(MemorySink {
            bytes: Vec::with_capacity(alloc, room)?,
            room,
            schedule: Schedule::new(alloc, failing)?,
            faults: 0,
        })
    }

    /// The bytes written.
    pub fn written(&self) -> &[u8]
        ensures { result.now ≡ self.now.written }
    {
        self.bytes.as_slice()
    }

    /// How many writes have failed.
    pub fn faults(&self) -> u64
        ensures { result ≡ self.now.faults }
    {
        self.faults
    }
}

impl Sink for MemorySink {
    ghost written = { λ s. Some s.written };

    ghost faults = { λ s. s.faults };

    ghost stays = { λ a b. (b.failing ≡ a.failing) × (b.room ≡ a.room) };

    ghost stays_refl = { λ a. (refl, refl) };

    ghost stays_trans = { λ a b c h k. (k.0 ∙ h.0, k.1 ∙ h.1) };

    fn write(&mut self, piece: &[u8]) -> Result<usize, IoFail>
        ensures bound { WritesAtMost result piece.now }
        ensures progress { IfOk result (λ n. 0 < length piece.now → 0 < n) }
        ensures bytes { WriteAppends (Some self.old.written) (Some self.new.written) result piece.now }
        ensures stays { (self.new.failing ≡ self.old.failing) × (self.new.room ≡ self.old.room) }
        ensures cause { Cause self.old.faults self.new.faults (IsErr result) }
        ensures answer { result ≡ write_answer self.old piece.now }
        ensures after { self.new ≡ after_write self.old piece.now }
    {
        if self.schedule.next_fails() {
            self.faults = one_more(self.faults);
            return Err(IoFail);
        }
        let count = piece.len().min(self.room - self.bytes.len());
        if count == 0 && !piece.is_empty() {
            self.faults = one_more(self.faults);
            return Err(IoFail);
        }
        if self.bytes.extend_from_slice(&piece[..count]).is_err() {
            self.faults = one_more(self.faults);
            return Err(IoFail);
        }
        Ok(count)
    }
}

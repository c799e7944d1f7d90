ghost use Rattle.std.specs.Prelude.{refl, ◌≡◌, length, IfOk, IsErr, Some};
ghost use Rattle.std.proofs.Common.{◌∙◌};
ghost use Rattle.std.specs.Io.{ReadsAtMost};
ghost use Rattle.std.specs.Io.KnownBytes.{ReadConsumes};
ghost use Rattle.base_value.specs.Causes.{Cause};
ghost use Rattle.base_io.specs.Memory.{after_read, read_answer};

use crate::copied::copy_from;
use crate::schedule::{Schedule, one_more};
use crate::traits::{IoFail, Source};
use std::alloc::{AllocError, Global};
use std::marker::Model;

/// A source of bytes in memory, some of whose reads fail.
#[derive(Debug, Drop)]
pub struct MemorySource {
    bytes: Vec<u8>,
    at: usize,
    schedule: Schedule,
    faults: u64,
}

impl Model for MemorySource {
    ghost use Rattle.std.specs.Prelude.{drop, vec_len, ◌≤◌};
    ghost use Rattle.base_io.specs.Memory.{Input};

    ghost Value = { Input };

    ghost view = { λ s. record {
      left = drop s.at s.bytes.items;
      calls = s.schedule.made;
      failing = s.schedule.failing;
      faults = s.faults;
    } };

    ghost invariant = { λ s. s.at ≤ vec_len s.bytes };
}

impl MemorySource {
    /// A source of these bytes. The calls with the numbers in `failing`, from 1, fail.
    ///
    /// # Errors
    ///
    /// Where it is out of memory.
    pub fn new(alloc: Global, bytes: &[u8], failing: &[u64]) -> Result<MemorySource, AllocError>
        ensures { IfOk result (λ s. s
            ≡ record { left = bytes.now; calls = 0; failing = failing.now; faults = 0 }) }
    {
        Ok(MemorySource {
            bytes: Vec::from_slice(alloc, bytes)?,
            at: 0,
            schedule: Schedule::new(alloc, failing)?,
            faults: 0,
        })
    }

    /// The bytes left.
    pub fn left(&self) -> &[u8]
        ensures { result.now ≡ self.now.left }
    {
        &self.bytes[self.at..]
    }

    /// How many reads have failed.
    pub fn faults(&self) -> u64
        ensures { result ≡ self.now.faults }
    {
        self.faults
    }
}

impl Source for MemorySource {
    ghost left = { λ s. Some s.left };

    ghost faults = { λ s. s.faults };

    ghost stays = { λ a b. b.failing ≡ a.failing };

    ghost stays_refl = { λ a. refl };

    ghost stays_trans = { λ a b c h k. k ∙ h };

    fn read(&mut self, into: &mut [u8]) -> Result<usize, IoFail>
        ensures bound { ReadsAtMost result into.new }
        ensures bytes { ReadConsumes (Some self.old.left) (Some self.new.left) result into.new }
        ensures stays { self.new.failing ≡ self.old.failing }
        ensures cause { Cause self.old.faults self.new.faults (IsErr result) }
        ensures answer { result ≡ read_answer self.old (length into.old) }
        ensures after { self.new ≡ after_read self.old (length into.old) }
    {
        if self.schedule.next_fails() {
            self.faults = one_more(self.faults);
            return Err(IoFail);
        }
        let count = copy_from(self.bytes.as_slice(), self.at, into);
        self.at += count;
        Ok(count)
    }
}

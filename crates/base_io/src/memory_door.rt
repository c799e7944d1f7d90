ghost use Rattle.std.specs.Prelude.{◌≡◌, ◌<◌, ◌≤◌, [], length, map, take, IfOk, IsErr, None, Ok, Some};
ghost use Rattle.std.specs.Io.{ReadsAtMost, WritesAtMost};
ghost use Rattle.std.specs.Io.KnownBytes.{ReadConsumes, WriteAppends};
ghost use Rattle.std.specs.Vec.{vec_items};
ghost use Rattle.base_value.specs.Causes.{Cause};
ghost use Rattle.base_io.specs.Doors as doors;
ghost use Rattle.base_io.specs.Doors.{Nexts, ReadKeeps, WriteKeeps, after_next, has_next, input_left, output_so_far};
ghost use Rattle.base_io.specs.Memory.{after_line_read, after_line_write, after_next_call, after_open, line_read_answer, line_takes, line_write_answer, next_answer, open_answer, with_written};

use crate::copied::copy_from;
use crate::door::Door;
use crate::schedule::{Schedule, one_more};
use crate::traits::IoFail;
use base_value::Bytes;
use std::alloc::{AllocError, Global};
use std::marker::Model;

/// A door in memory: a list of connections, some of whose calls fail.
#[derive(Debug, Drop)]
pub struct MemoryDoor {
    // Of all connections in the order in which they come: the inputs, and the outputs, each with its room reserved.
    inputs: Vec<Bytes>,
    outputs: Vec<Vec<u8>>,
    // How many connections have ended, and how far the input of the next one is read, where this is present.
    ended: usize,
    at: Option<usize>,
    room: usize,
    schedule: Schedule,
    faults: u64,
    line_faults: u64,
}

impl Model for MemoryDoor {
    ghost use Rattle.std.specs.Prelude.{◌≡◌, ◌≤◌, ℕ, [], length, map, slice_index_or};
    ghost use Rattle.std.specs.List.{All};
    ghost use Rattle.std.specs.Vec.{vec_capacity, vec_items, vec_len};
    ghost use Rattle.base_io.specs.Memory.{Entrance};
    ghost use Rattle.base_io.specs.inner.Places.{IsReadTo, came, state_at};

    ghost Value = { Entrance };

    ghost view = { λ d. record {
      held = state_at d.inputs.items (map vec_items d.outputs.items) d.ended d.at;
      room = d.room;
      calls = d.schedule.made;
      failing = d.schedule.failing;
      faults = d.faults;
      line_faults = d.line_faults;
    } };

    ghost invariant = { λ d. record {
      within : came d.ended d.at ≤ vec_len d.inputs;
      outputs : vec_len d.outputs ≡ vec_len d.inputs;
      read : IsReadTo d.inputs.items d.ended d.at;
      room : All (λ v. (vec_len v ≤ d.room) × (d.room ≤ vec_capacity v)) d.outputs.items;
      unused : (k : ℕ) → came d.ended d.at ≤ k → slice_index_or (map vec_items d.outputs.items) k [] ≡ [];
    } };
}

impl MemoryDoor {
    /// A door through which these connections come, each with room for `room` bytes of output, which it takes now: no
    /// later call asks for memory. The calls with the numbers in `failing`, from 1 and over all methods, fail, but for
    /// reads without a connection.
    ///
    /// # Errors
    ///
    /// Where it is out of memory.
    pub fn new(
        alloc: Global,
        connections: &[Bytes],
        room: usize,
        failing: &[u64],
    ) -> Result<MemoryDoor, AllocError>
        ensures { IfOk result (λ d. d ≡ record {
          held = record { coming = connections.now; present = None; done = [] };
          room = room;
          calls = 0;
          failing = failing.now;
          faults = 0;
          line_faults = 0;
        }) }
    {
        let mut inputs = Vec::new(alloc);
        let mut outputs = Vec::new(alloc);
        for connection in connections {
            inputs.push(Bytes::from_slice(alloc, connection.as_slice())?)?;
            outputs.push(Vec::with_capacity(alloc, room)?)?;
        }
        Ok(MemoryDoor {
            inputs,
            outputs,
            ended: 0,
            at: None,
            room,
            schedule: Schedule::new(alloc, failing)?,
            faults: 0,
            line_faults: 0,
        })
    }

    /// The outputs of all connections so far, in the order in which they came: of those that ended, and then of the
    /// present one.
    pub fn outputs(&self) -> &[Vec<u8>]
        ensures { map vec_items result.now ≡ doors.outputs self.now.held }
    {
        &self.outputs[..self.came()]
    }

    /// How many calls of `open` and `next` have failed.
    pub fn faults(&self) -> u64
        ensures { result ≡ self.now.faults }
    {
        self.faults
    }

    /// How many calls of `read` and `write` have failed.
    pub fn line_faults(&self) -> u64
        ensures { result ≡ self.now.line_faults }
    {
        self.line_faults
    }

    // How many connections have come.
    fn came(&self) -> usize
        ensures { result ≡ length (doors.outputs self.now.held) }
    {
        if self.at.is_some() {
            self.ended + 1
        } else {
            self.ended
        }
    }

    // Ends the present connection, if there is one, and brings the next one, or returns false where none is to come.
    fn bring(&mut self) -> bool
        ensures found { result ≡ has_next self.old.held.coming }
        ensures after { self.new ≡ record self.old { held = after_next self.old.held } }
    {
        self.ended = self.came();
        let found = self.ended < self.inputs.len();
        self.at = if found { Some(0) } else { None };
        found
    }

    // Writes as many bytes of a piece as the present connection takes, none without one.
    fn put(&mut self, piece: &[u8]) -> usize
        ensures count { result ≡ line_takes self.old.held.present self.old.room piece.now }
        ensures after { self.new
            ≡ record self.old { held = with_written self.old.held (take result piece.now) } }
    {
        if self.at.is_none() {
            return 0;
        }
        let output = &mut self.outputs[self.ended];
        let count = piece.len().min(self.room - output.len());
        // It can't fail: the room is reserved.
        let _ = output.extend_from_slice(&piece[..count]);
        count
    }
}

impl Door for MemoryDoor {
    ghost held = { λ d. Some d.held };

    ghost faults = { λ d. d.faults };

    ghost line_faults = { λ d. d.line_faults };

    fn open(&mut self) -> Result<(), IoFail>
        ensures keeps { self.new.held ≡ self.old.held }
        ensures line_faults { self.new.line_faults ≡ self.old.line_faults }
        ensures cause { Cause self.old.faults self.new.faults (IsErr result) }
        ensures answer { result ≡ open_answer self.old }
        ensures after { self.new ≡ after_open self.old }
    {
        if self.schedule.next_fails() {
            self.faults = one_more(self.faults);
            return Err(IoFail);
        }
        Ok(())
    }

    fn next(&mut self) -> Result<bool, IoFail>
        ensures next { Nexts (Some self.old.held) (Some self.new.held) result }
        ensures line_faults { self.new.line_faults ≡ self.old.line_faults }
        ensures cause { Cause self.old.faults self.new.faults (IsErr result) }
        ensures answer { result ≡ next_answer self.old }
        ensures after { self.new ≡ after_next_call self.old }
    {
        if self.schedule.next_fails() {
            self.faults = one_more(self.faults);
            return Err(IoFail);
        }
        Ok(self.bring())
    }

    fn read(&mut self, into: &mut [u8]) -> Result<usize, IoFail>
        ensures bound { ReadsAtMost result into.new }
        ensures bytes { ReadConsumes (Some (input_left self.old.held.present))
            (Some (input_left self.new.held.present)) result into.new }
        ensures keeps { ReadKeeps (Some self.old.held) (Some self.new.held) }
        ensures unconnected { self.old.held.present ≡ None → result ≡ Ok 0 }
        ensures failed { IsErr result → self.new.held ≡ self.old.held }
        ensures faults { self.new.faults ≡ self.old.faults }
        ensures cause { Cause self.old.line_faults self.new.line_faults (IsErr result) }
        ensures answer { result ≡ line_read_answer self.old (length into.old) }
        ensures after { self.new ≡ after_line_read self.old (length into.old) }
    {
        let fails = self.schedule.next_fails();
        match self.at {
            None => Ok(0),
            Some(at) => {
                if fails {
                    self.line_faults = one_more(self.line_faults);
                    return Err(IoFail);
                }
                let count = copy_from(self.inputs[self.ended].as_slice(), at, into);
                self.at = Some(at + count);
                Ok(count)
            }
        }
    }

    fn write(&mut self, piece: &[u8]) -> Result<usize, IoFail>
        ensures bound { WritesAtMost result piece.now }
        ensures progress { IfOk result (λ n. 0 < length piece.now → 0 < n) }
        ensures bytes { WriteAppends (Some (output_so_far self.old.held.present))
            (Some (output_so_far self.new.held.present)) result piece.now }
        ensures keeps { WriteKeeps (Some self.old.held) (Some self.new.held) }
        ensures unconnected { self.old.held.present ≡ None → 0 < length piece.now → IsErr result }
        ensures failed { IsErr result → self.new.held ≡ self.old.held }
        ensures faults { self.new.faults ≡ self.old.faults }
        ensures cause { Cause self.old.line_faults self.new.line_faults (IsErr result) }
        ensures answer { result ≡ line_write_answer self.old piece.now }
        ensures after { self.new ≡ after_line_write self.old piece.now }
    {
        if self.schedule.next_fails() {
            self.line_faults = one_more(self.line_faults);
            return Err(IoFail);
        }
        let count = self.put(piece);
        if count == 0 && !piece.is_empty() {
            self.line_faults = one_more(self.line_faults);
            return Err(IoFail);
        }
        Ok(count)
    }
}

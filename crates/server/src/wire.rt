//! What a connection is served over.

ghost use Rattle.std.specs.Prelude.{◌≡◌, ◌≤◌, ◌<◌, ◌⊎◌, ℕ, List, Ok, Option, IsErr, IsErrOf, OnOk, OnErr, length};
ghost use Rattle.std.proofs.Common.{◌∙◌};
ghost use Rattle.std.specs.Io.KnownBytes.{Appends, Keeps, prepend_known};
ghost use Rattle.base_value.specs.Causes.{Cause};
ghost use Rattle.base_io.specs.Doors.{input_of, output_of};
ghost use Rattle.base_io.specs.Streams.{AppendsFront};
ghost use Rattle.server_http.specs.Answer.{Answered, Between};
ghost use Rattle.server_http.specs.Item.{IsItem, whole};
ghost use Rattle.server_http.specs.Reads.{read_limit};
ghost use Rattle.server_http.specs.declared.message.HttpMessage.{HttpMessage};
ghost use Rattle.server_http.specs.declared.message.Next.TheVariants.{Message};
ghost use Rattle.server_http.specs.declared.fail.HttpFail.TheVariants.{Failed};
ghost use Rattle.server.specs.Present.{PresentKeeps, PresentKeeps-refl, PresentKeeps-trans};

use base_io::{Door, IoFail, Line, Sink, Source, write_all};
use server_http::{Buffer, HttpFail, Next, next_message};
use std::alloc::Global;

/// What ended a connection before its end.
#[derive(Clone, Copy, Debug, PartialEq, Eq)]
pub enum LineFail {
    /// A read failed.
    Read,
    /// A write failed.
    Write,
}

/// What a connection is served over: messages come, and texts go.
pub trait Wire {
    /// The input left, if it is told.
    ghost input: { Self → Option (List ℕ) };

    /// The output so far, if it is told.
    ghost output: { Self → Option (List ℕ) };

    /// How many reads have failed.
    ghost read_faults: { Self → ℕ };

    /// How many writes have failed.
    ghost write_faults: { Self → ℕ };

    /// What calls leave as it is.
    ghost stays: { Self → Self → Type 0 };

    /// The next message.
    ///
    /// # Errors
    ///
    /// Those of `next_message`.
    fn next(&mut self, alloc: Global, buffer: &mut Buffer) -> Result<Next, HttpFail>
        ensures answer { Between (prepend_known buffer.old (input self.old)) (prepend_known buffer.new (input self.new))
            (λ i rest. Answered i result rest) }
        // A whole message at hand is the answer without a read; behind one for which it read, less stays than one read may give.
        ensures at_hand { (m : HttpMessage) (rest : List ℕ) → IsItem buffer.old (whole m) rest → input self.new ≡ input self.old }
        ensures read_ahead { (m : HttpMessage) → result ≡ Ok (Message m)
            → (input self.new ≡ input self.old) ⊎ (length buffer.new < read_limit) }
        ensures unwritten { Keeps (output self.old) (output self.new) }
        ensures stays { stays self.old self.new }
        ensures cause { Cause (read_faults self.old) (read_faults self.new) (IsErrOf result Failed) }
        ensures other { write_faults self.old ≤ write_faults self.new };

    /// Writes a whole text.
    ///
    /// # Errors
    ///
    /// If a write fails; a prefix of the text is written then.
    fn write(&mut self, text: &[u8]) -> Result<(), IoFail>
        ensures ok { OnOk result (Appends (output self.old) (output self.new) text.now) }
        ensures err { OnErr result (AppendsFront (output self.old) (output self.new) text.now) }
        ensures unread { Keeps (input self.old) (input self.new) }
        ensures stays { stays self.old self.new }
        ensures cause { Cause (write_faults self.old) (write_faults self.new) (IsErr result) }
        ensures other { read_faults self.old ≤ read_faults self.new };

    ghost stays_refl: { (a : Self) → stays a a };

    ghost stays_trans: { (a b c : Self) → stays a b → stays b c → stays a c };
}

/// A source and a sink: the input comes from the one, and the output goes to the other.
#[derive(Drop)]
pub struct Pair<'a, S, W> {
    source: &'a mut S,
    sink: &'a mut W,
}

impl<'a, S: Source, W: Sink> Pair<'a, S, W> {
    /// The wire of a source and a sink.
    pub fn new(source: &'a mut S, sink: &'a mut W) -> Pair<'a, S, W>
        ensures source_same { result.source.ghost_name ≡ source.entry.ghost_name }
        ensures sink_same { result.sink.ghost_name ≡ sink.entry.ghost_name }
        ensures source_held { result.source.now ≡ source.old }
        ensures sink_held { result.sink.now ≡ sink.old }
    {
        Pair { source, sink }
    }
}

impl<'a, S: Source, W: Sink> Wire for Pair<'a, S, W> {
    ghost input = { λ p. S.left p.source.now };

    ghost output = { λ p. W.written p.sink.now };

    ghost read_faults = { λ p. S.faults p.source.now };

    ghost write_faults = { λ p. W.faults p.sink.now };

    ghost stays = { λ a b. (b.source.ghost_name ≡ a.source.ghost_name) × (b.sink.ghost_name ≡ a.sink.ghost_name)
        × S.stays a.source.now b.source.now × W.stays a.sink.now b.sink.now };

    ghost stays_refl = { λ a. (
      λ i. a.source.ghost_name,
      λ i. a.sink.ghost_name,
      S.stays_refl a.source.now,
      W.stays_refl a.sink.now,
    ) };

    ghost stays_trans = { λ a b c h k. (
      k.0 ∙ h.0,
      k.1 ∙ h.1,
      S.stays_trans a.source.now b.source.now c.source.now h.2 k.2,
      W.stays_trans a.sink.now b.sink.now c.sink.now h.3 k.3,
    ) };

    fn next(&mut self, alloc: Global, buffer: &mut Buffer) -> Result<Next, HttpFail> {
        next_message(alloc, self.source, buffer)
    }

    fn write(&mut self, text: &[u8]) -> Result<(), IoFail> {
        write_all(self.sink, text)
    }
}

/// The present connection of a door.
#[derive(Drop)]
pub(crate) struct Present<'a, D> {
    door: &'a mut D,
}

impl<'a, D: Door> Present<'a, D> {
    /// The wire of a door's present connection.
    pub(crate) fn new(door: &'a mut D) -> Present<'a, D>
        ensures same { result.door.ghost_name ≡ door.entry.ghost_name }
        ensures held { result.door.now ≡ door.old }
    {
        Present { door }
    }
}

impl<'a, D: Door> Wire for Present<'a, D> {
    ghost input = { λ p. input_of (D.held p.door.now) };

    ghost output = { λ p. output_of (D.held p.door.now) };

    ghost read_faults = { λ p. D.line_faults p.door.now };

    ghost write_faults = { λ p. D.line_faults p.door.now };

    ghost stays = { λ a b. (b.door.ghost_name ≡ a.door.ghost_name)
        × PresentKeeps (D.held a.door.now) (D.held b.door.now) × (D.faults b.door.now ≡ D.faults a.door.now) };

    ghost stays_refl = { λ a. (
      λ i. a.door.ghost_name,
      PresentKeeps-refl (D.held a.door.now),
      λ i. D.faults a.door.now,
    ) };

    ghost stays_trans = { λ a b c h k. (
      k.0 ∙ h.0,
      PresentKeeps-trans (D.held a.door.now) (D.held b.door.now) (D.held c.door.now) h.1 k.1,
      k.2 ∙ h.2,
    ) };

    fn next(&mut self, alloc: Global, buffer: &mut Buffer) -> Result<Next, HttpFail> {
        let mut line = Line::new(self.door);
        next_message(alloc, &mut line, buffer)
    }

    fn write(&mut self, text: &[u8]) -> Result<(), IoFail> {
        let mut line = Line::new(self.door);
        write_all(&mut line, text)
    }
}

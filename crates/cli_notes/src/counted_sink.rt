ghost use Rattle.std.specs.Prelude.{◌≡◌, ◌+◌, ◌-◌, ◌++◌, [], take};
ghost use Rattle.base_value.specs.Causes.{up_to_last};
ghost use Rattle.cli_notes.specs.Counts.{CountGoesOn, first_bytes, counted_lines, inner_sink};
ghost use Rattle.cli_notes.specs.Written.{first_room, line_feeds};
ghost use Rattle.cli_notes.specs.inner.CountLaws.{CountGoesOn-refl, CountGoesOn-trans};

use crate::front::Front;
use base_io::{IoFail, Sink};

// After how many rows a line says so.
const STEP: u64 = 1_000;

/// A sink that hands each write on to another one, and counts the line feeds of the bytes that this one took.
///
/// The first line is a heading, and each one behind it is of a row. If it says how far it has come, a line on standard error
/// says so after every 1,000 rows, as `carmuguur: 2000 rows`. Whether standard error fails doesn't matter.
#[derive(Debug, Drop)]
pub struct CountedSink<R, W> {
    rt: R,
    sink: W,
    says: bool,
    lines: u64,
    front: Front,
}

// How many line feeds there are.
fn line_feeds(bytes: &[u8]) -> usize
    ensures { result ≡ line_feeds bytes.now }
{
    bytes.iter().filter(|byte| **byte == b'\n').count()
}

impl<R, W> CountedSink<R, W> {
    /// The sink that hands its writes on to this one, and says how far it has come if `says`.
    pub fn new(rt: R, sink: W, says: bool) -> CountedSink<R, W>
        ensures sink { inner_sink result ≡ sink }
        ensures lines { counted_lines result ≡ 0 }
        ensures front { first_bytes result ≡ [] }
    {
        CountedSink {
            rt,
            sink,
            says,
            lines: 0,
            front: Front::new(),
        }
    }

    /// The first bytes that were written, at most 32.
    pub fn front(&self) -> &[u8]
        ensures { result.now ≡ first_bytes self.now }
    {
        self.front.bytes()
    }

    /// How many lines behind the first one were ended.
    pub fn rows(&self) -> u64
        ensures { result ≡ counted_lines self.now - 1 }
    {
        self.lines.saturating_sub(1)
    }

    // Counts bytes that were taken.
    fn count(&mut self, bytes: &[u8])
        ensures lines { counted_lines self.new ≡ up_to_last (counted_lines self.old + line_feeds bytes.now) }
        ensures front { first_bytes self.new ≡ take first_room (first_bytes self.old ++ bytes.now) }
        ensures sink { inner_sink self.new ≡ inner_sink self.old }
    {
        self.lines = self.lines.saturating_add(line_feeds(bytes) as u64);
        self.front.push(bytes);
    }
}

impl<R: Eprint, W> CountedSink<R, W> {
    // Says how far it has come, if a step was passed since there were so many rows.
    fn say_step(&self, before: u64) {
        let steps = self.rows() / STEP;
        if self.says && steps > before / STEP {
            let _ = eprintln!(self.rt; "carmuguur: {} rows", steps * STEP);
        }
    }

    /// Says how many rows there are in all, if it says how far it has come.
    pub fn say_total(&self) {
        if self.says {
            let rows = self.rows();
            let word = if rows == 1 { "row" } else { "rows" };
            let _ = eprintln!(self.rt; "carmuguur: {rows} {word} in all");
        }
    }
}

impl<R: Eprint, W: Sink> Sink for CountedSink<R, W> {
    ghost written = { λ s. W.written (inner_sink s) };

    ghost faults = { λ s. W.faults (inner_sink s) };

    ghost stays = { λ a b. W.stays (inner_sink a) (inner_sink b)
        × CountGoesOn (W.written (inner_sink a)) (W.written (inner_sink b))
        (counted_lines a) (counted_lines b) (first_bytes a) (first_bytes b) };

    ghost stays_refl = { λ a. (
      W.stays_refl (inner_sink a),
      CountGoesOn-refl (W.written (inner_sink a)) (counted_lines a) (first_bytes a),
    ) };

    ghost stays_trans = { λ a b c h k. (
      W.stays_trans (inner_sink a) (inner_sink b) (inner_sink c) h.0 k.0,
      CountGoesOn-trans (W.written (inner_sink a)) (W.written (inner_sink b)) (W.written (inner_sink c))
          (counted_lines a) (counted_lines b) (counted_lines c) (first_bytes a) (first_bytes b) (first_bytes c) h.1 k.1,
    ) };

    fn write(&mut self, piece: &[u8]) -> Result<usize, IoFail> {
        let count = self.sink.write(piece)?;
        let before = self.rows();
        self.count(&piece[..count]);
        self.say_step(before);
        Ok(count)
    }
}

ghost use Rattle.std.specs.Prelude.{IfOk, [], ◌∷◌, map, string_bytes, ℕ};
ghost use Rattle.commands.specs.Commands.{command_of};
ghost use Rattle.platform_history.specs.Histories.{Histories};
ghost use Rattle.platform_history.specs.Runs.{Around};

use crate::laws::history_laws;
use base_io::{Clock, Door, Sink, Source};
use platform::run;
use std::alloc::{AllocError, Global};
use store_kv::MemoryKeeper;

/// Runs two commands, one after the other, over a store in memory that begins empty, and returns their statuses.
///
/// # Errors
///
/// Where it is out of memory before the first.
pub fn run_twice<D: Door, S: Source, W: Sink, C: Clock>(
    alloc: Global,
    first: &[String],
    second: &[String],
    door: &mut D,
    source: &mut S,
    sink: &mut W,
    clock: &mut C,
) -> Result<(u8, u8), AllocError>
    // What is seen of door, source, sink and clock between the runs is that of some d, s, w and c.
    ensures { let around : ℕ → D → S → W → C → Around = λ faults d s w c. record {
      keeper_faults = faults;
      door = D.held d;
      door_faults = D.faults d;
      line_faults = D.line_faults d;
      left = S.left s;
      read_faults = S.faults s;
      written = W.written w;
      write_faults = W.faults w;
      coming = C.coming c;
    } in IfOk result (λ statuses. (d : D) × (s : S) × (w : W) × (c : C) × (faults more : ℕ) × Histories []
        (record { command = command_of (map string_bytes first.now); before = around 0 door.old source.old sink.old clock.old; after = around faults d s w c; status = statuses.0 }
        ∷ record { command = command_of (map string_bytes second.now); before = around faults d s w c; after = around more door.new source.new sink.new clock.new; status = statuses.1 }
        ∷ [])) }
{
    // For the proof alone.
    history_laws::<MemoryKeeper>();
    let mut keeper = MemoryKeeper::new(alloc, &[])?;
    let one = run(alloc, first, &mut keeper, door, source, sink, clock);
    let two = run(alloc, second, &mut keeper, door, source, sink, clock);
    Ok((one, two))
}

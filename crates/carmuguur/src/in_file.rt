//! A run over the tables in a file.

ghost use Rattle.std.specs.Prelude.{◌≡◌, ◌⊎◌, ℕ, IfSome, map, string_bytes, true};
ghost use Rattle.carmuguur.specs.InFile.{IsUntouched, RunsIn};
ghost use Rattle.commands.specs.Commands.{command_of, opens_in, used_by};
ghost use Rattle.platform.specs.Promise.{IsStatus, IsUnused};
ghost use Rattle.platform.specs.Seen.{Seen};
ghost use Rattle.sqlite_wal.specs.Files.{image_at};
ghost use Rattle.store_file.specs.Files.{LeavesIn};
ghost use Rattle.store_kv.specs.State.{KeeperState};

use base_io::{Clock, Door, Sink, Source};
use platform::run;
use sqlite::{FileFrom, FileStore};
use sqlite_disk::Disk;
use store_file::{Start, Unopened, close_file, open_file};
use store_kv::Keeper;
use store_sqlite::{DatabaseFault, Ready, SqlKeeper};

/// How a run over a file ended.
#[derive(Clone, Copy, Debug)]
pub struct Ended {
    /// The process's status.
    pub status: u8,
    /// Why the file couldn't be opened, if it couldn't. Later faults are said as they come.
    pub fault: Option<DatabaseFault>,
    /// The log was copied into the file, and both were closed.
    pub is_closed: bool,
}

// How a run ended whose file couldn't be opened.
fn ended_unopened(unopened: Unopened) -> Ended
    ensures status { (result.status ≡ 71) ⊎ (result.status ≡ 72) }
{
    match unopened {
        Unopened::Memory => Ended {
            status: 71,
            fault: None,
            is_closed: false,
        },
        Unopened::Fault(fault) => Ended {
            status: 72,
            fault: Some(fault),
            is_closed: false,
        },
    }
}

/// Opens the file at the path, whatever it holds, does what the words say over its tables, and closes it.
///
/// If it can't be opened, the status is 72, or 71 if out of memory, and nothing else is done.
pub fn run_in_file<B: Start, D: Door, S: Source, W: Sink, C: Clock>(
    rt: HostRuntime,
    path: &str,
    start: B,
    words: &[String],
    door: &mut D,
    source: &mut S,
    sink: &mut W,
    clock: &mut C,
) -> Ended
    requires { opens_in (command_of (map string_bytes words.now)) ≡ true }
    ensures status { IsStatus (command_of (map string_bytes words.now)) result.status }
    ensures promise { let seen : D → S → W → C → KeeperState → Seen = λ d s w c k. record {
      keeper = k;
      door = D.held d;
      door_faults = D.faults d;
      line_faults = D.line_faults d;
      left = S.left s;
      read_faults = S.faults s;
      written = W.written w;
      write_faults = W.faults w;
      coming = C.coming c;
    } in IfSome (command_of (map string_bytes words.now)) (λ command.
        IsUntouched door.old door.new source.old source.new sink.old sink.new clock.old clock.new result.status
        ⊎ RunsIn ⟦<SqlKeeper<Ready<FileStore<FileFrom<B>>>> as Keeper>⟧.state (LeavesIn ⟦<FileFrom<B> as Disk>⟧) (image_at B.Start)
        command (seen door.old source.old sink.old clock.old) (seen door.new source.new sink.new clock.new) result.status result.is_closed) }
    ensures unused { IsUnused {K = ℕ} (used_by (command_of (map string_bytes words.now)) result.status)
        0 0 door.old door.new source.old source.new sink.old sink.new clock.old clock.new }
    ensures stays { S.stays source.old source.new × W.stays sink.old sink.new }
{
    match open_file(rt, path, start) {
        Ok(mut keeper) => {
            let status = run(rt.alloc(), words, &mut keeper, door, source, sink, clock);
            Ended {
                status,
                fault: None,
                is_closed: close_file(keeper),
            }
        }
        Err(unopened) => ended_unopened(unopened),
    }
}

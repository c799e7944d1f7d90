//! The commands that print: each makes its printout first, and writes it then.

ghost use Rattle.std.specs.Prelude.{◌≡◌, ◌⊎◌, List, ℕ, IsErr, IsTrue, IfOk, IsErrOf, false, is_ok, pos, true};
ghost use Rattle.std.specs.Io.KnownBytes.{IsAtEnd};
ghost use Rattle.base_value.specs.Causes.{Cause};
ghost use Rattle.base_value.specs.Dates.{is_moment};
ghost use Rattle.store_kv.specs.State.{KeeperCause, Shows, TrustedAfter, Steps, Tells};
ghost use Rattle.store_kv.specs.Tables.{Tables};
ghost use Rattle.model.specs.World.{World};
ghost use Rattle.store_abstraction.specs.Stands.{Stands};
ghost use Rattle.commands.specs.Commands.{csvq, printed};
ghost use Rattle.commands.specs.Csvq.{reads_input};
ghost use Rattle.cmd_load.specs.Batches.{first_moment};
ghost use Rattle.commands.specs.Deeds.{Prints, one_deed};
ghost use Rattle.commands.specs.Statuses.{KeepsWorld, MayBe, status_in};
ghost use Rattle.commands.specs.Stops.{IsKnownStatus, VersionStops, behind, csvq_end, csvq_stop_of, is_done, printout_end, stop_of_csvq, stop_of_store, store_end, store_stop_of};
ghost use Rattle.commands.specs.declared.printing.CsvqStop.TheVariants as csvq_stop;
ghost use Rattle.commands.specs.declared.printing.StoreStop.TheVariants as store_stop;

use crate::csvq::{InputFail, printout_of};
use crate::printout::Printout;
use crate::stop::Stop;
use crate::tables::{TableWork, printout_of_tables};
use base_io::{IoFail, Sink, Source, write_all};
use std::alloc::Global;
use store_abstraction::OpenFail;
use store_kv::Keeper;
use store_rows::StoreFail;

/// What cuts `csvq` short.
#[derive(Clone, Copy, Debug, PartialEq, Eq)]
pub enum CsvqStop {
    /// Out of memory.
    NoMemory,
    /// The source failed.
    SourceFailed,
    /// The sink failed.
    SinkFailed,
}

impl From<InputFail> for CsvqStop {
    ghost from_gives = { λ fail e. e ≡ csvq_stop_of fail };

    fn from(fail: InputFail) -> CsvqStop {
        match fail {
            InputFail::Failed => CsvqStop::SourceFailed,
            InputFail::Memory => CsvqStop::NoMemory,
        }
    }
}

impl From<IoFail> for CsvqStop {
    ghost from_gives = { λ _ e. e ≡ csvq_stop.SinkFailed };

    fn from(_: IoFail) -> CsvqStop {
        CsvqStop::SinkFailed
    }
}

impl From<CsvqStop> for Stop {
    ghost from_gives = { λ stop e. e ≡ stop_of_csvq stop };

    fn from(stop: CsvqStop) -> Stop {
        match stop {
            CsvqStop::NoMemory => Stop::NoMemory,
            CsvqStop::SourceFailed => Stop::SourceFailed,
            CsvqStop::SinkFailed => Stop::SinkFailed,
        }
    }
}

/// What cuts a command short that prints of the tables.
#[derive(Clone, Copy, Debug, PartialEq, Eq)]
pub enum StoreStop {
    /// Out of memory.
    NoMemory,
    /// The keeper failed.
    KeeperFailed,
    /// The sink failed.
    SinkFailed,
    /// The tables are damaged.
    Damaged,
    /// The tables are of a version that isn't known here.
    UnknownVersion,
}

impl From<OpenFail> for StoreStop {
    ghost from_gives = { λ fail e. e ≡ store_stop_of fail };

    fn from(fail: OpenFail) -> StoreStop {
        match fail {
            OpenFail::Store(StoreFail::Keeper) => StoreStop::KeeperFailed,
            OpenFail::Store(StoreFail::Memory) => StoreStop::NoMemory,
            OpenFail::Store(StoreFail::Damaged) => StoreStop::Damaged,
            OpenFail::UnknownVersion => StoreStop::UnknownVersion,
        }
    }
}

impl From<IoFail> for StoreStop {
    ghost from_gives = { λ _ e. e ≡ store_stop.SinkFailed };

    fn from(_: IoFail) -> StoreStop {
        StoreStop::SinkFailed
    }
}

impl From<StoreStop> for Stop {
    ghost from_gives = { λ stop e. e ≡ stop_of_store stop };

    fn from(stop: StoreStop) -> Stop {
        match stop {
            StoreStop::NoMemory => Stop::NoMemory,
            StoreStop::KeeperFailed => Stop::KeeperFailed,
            StoreStop::SinkFailed => Stop::SinkFailed,
            StoreStop::Damaged => Stop::Damaged,
            StoreStop::UnknownVersion => Stop::UnknownVersion,
        }
    }
}

/// The status of a process that ran `csvq`.
pub fn csvq_status(ended: Result<u8, CsvqStop>) -> u8
    ensures { result ≡ status_in (csvq_end ended) }
{
    match ended {
        Ok(status) => status,
        Err(stop) => Stop::from(stop).status(),
    }
}

/// The status of a process that ran a command that prints of the tables.
pub fn store_status(ended: Result<u8, StoreStop>) -> u8
    ensures { result ≡ status_in (store_end ended) }
{
    match ended {
        Ok(status) => status,
        Err(stop) => Stop::from(stop).status(),
    }
}

// Writes a printout, and returns its status.
pub(crate) fn write_printout<W: Sink>(sink: &mut W, printout: &Printout) -> Result<u8, IoFail>
    ensures prints { (w next : World)
        → Prints w (one_deed printout.now next) (W.written sink.old) (W.written sink.new) (printout_end result) next }
    ensures status { IsKnownStatus result }
    ensures same { IfOk result (λ status. status ≡ printout.now.status) }
    ensures cause { Cause (W.faults sink.old) (W.faults sink.new) (IsErr result) }
    ensures stays { W.stays sink.old sink.new }
{
    match write_all(sink, printout.text()) {
        Ok(()) => Ok(printout.status()),
        Err(fail) => Err(fail),
    }
}

/// Answers a query over the CSV text of the source, asked at this moment.
pub fn print_csvq<S: Source, W: Sink>(
    alloc: Global,
    query: &str,
    now: u64,
    source: &mut S,
    sink: &mut W,
) -> Result<u8, CsvqStop>
    requires { IsTrue (is_moment (pos now)) }
    ensures prints { (w : World) (moments : List ℕ) → now ≡ first_moment moments
        → (bytes : List ℕ) × MayBe (reads_input query.now) (S.left source.old) bytes
        × Prints w (printed (csvq query.now) w bytes moments) (W.written sink.old) (W.written sink.new) (csvq_end result) w }
    ensures unread { reads_input query.now ≡ false → source.new ≡ source.old }
    ensures unwritten { is_done (csvq_end result) ≡ false → sink.new ≡ sink.old }
    ensures whole { IfOk result (λ status. status ≡ 0 → IsAtEnd (S.left source.new)) }
    ensures status { IsKnownStatus result }
    ensures source_cause { Cause (S.faults source.old) (S.faults source.new) (IsErrOf result csvq_stop.SourceFailed) }
    ensures sink_cause { Cause (W.faults sink.old) (W.faults sink.new) (IsErrOf result csvq_stop.SinkFailed) }
    ensures source_stays { S.stays source.old source.new }
    ensures sink_stays { W.stays sink.old sink.new }
{
    let printout = printout_of(alloc, query, now, source)?;
    Ok(write_printout(sink, &printout)?)
}

/// Makes the printout of a command of the tables of the keeper, with what the command changes, and writes it.
pub fn print_tables<K: Keeper, W: Sink, P: TableWork>(
    alloc: Global,
    work: &P,
    keeper: &mut K,
    sink: &mut W,
) -> Result<u8, StoreStop>
    ensures prints { Tells (K.state keeper.old) (K.state keeper.new) → (w : World) → Stands (K.state keeper.old).tables w
        → Prints w (one_deed (P.does work.now w).0 (P.does work.now w).1) (W.written sink.old) (W.written sink.new) (store_end result)
        (behind w (P.does work.now w).1 (store_end result)) }
    ensures keeps { Tells (K.state keeper.old) (K.state keeper.new) → (w : World) → Stands (K.state keeper.old).tables w
        → KeepsWorld (behind w (P.does work.now w).1 (store_end result)) (K.state keeper.new) }
    ensures version { Tells (K.state keeper.old) (K.state keeper.new)
        → VersionStops (K.state keeper.old).tables (store_end result) }
    ensures kept { Tells (K.state keeper.old) (K.state keeper.new) → is_done (store_end result) ≡ false
        → Shows (K.state keeper.new) (K.state keeper.old).tables }
    ensures refused { P.keeps ≡ true → Tells (K.state keeper.old) (K.state keeper.new)
        → IfOk result (λ status. status ≡ 65 → Shows (K.state keeper.new) (K.state keeper.old).tables) }
    ensures crash { (K.state keeper.old).tells → IsTrue (K.state keeper.old).trusted → IsTrue (K.state keeper.new).is_clean
        → (w : World) → Stands (K.state keeper.old).tables w → (m : Tables) → (K.state keeper.new).may_leave m
        → (K.state keeper.old).may_leave m ⊎ Stands m (P.does work.now w).1 }
    ensures acknowledged { TrustedAfter (is_done (store_end result)) (K.state keeper.new) }
    ensures unwritten { is_done (store_end result) ≡ false → sink.new ≡ sink.old }
    ensures status { IsKnownStatus result }
    ensures steps { Steps (K.state keeper.old) (K.state keeper.new) }
    ensures keeper_cause { KeeperCause (K.state keeper.old) (K.state keeper.new) (IsErrOf result store_stop.KeeperFailed) }
    ensures sink_cause { Cause (W.faults sink.old) (W.faults sink.new) (IsErrOf result store_stop.SinkFailed) }
    ensures sink_stays { W.stays sink.old sink.new }
{
    let printout = printout_of_tables(alloc, keeper, work)?;
    Ok(write_printout(sink, &printout)?)
}

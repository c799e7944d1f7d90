//! The command `load`.

ghost use Rattle.std.specs.Prelude.{◌≡◌, ◌*◌, ◌≤◌, ◌∷◌, IfErr, IfOk, IsErrOf, List, OnOk, false, is_ok, length, true, ℕ};
ghost use Rattle.std.specs.Io.KnownBytes.{IsAtEnd};
ghost use Rattle.commands.specs.Commands.{has_status, is_one_of, may_change, may_write};
ghost use Rattle.commands.specs.Deeds.{Prints, one_deed};
ghost use Rattle.commands.specs.Load.{batch_does, behind_heading, load_printed, planned_printed, rows_printed};
ghost use Rattle.commands.specs.Loading.{FallsBy, FindsObject, IsFull, IsInput, IsInputOf, LoadEnds, PrintsBy};
ghost use Rattle.commands.specs.Loading.{asker_in, asker_of, command_in, later_stop};
ghost use Rattle.commands.specs.Loading.{printout_judged, read_printed, refusal_statuses, rows_statuses};
ghost use Rattle.commands.specs.Printed.{refused};
ghost use Rattle.commands.specs.Statuses.{Fell, status_in};
ghost use Rattle.commands.specs.Stops.{IsKnownStatus, VersionAs, VersionStops, of_input};
ghost use Rattle.commands.specs.declared.csvq.InputFail.TheVariants as input;
ghost use Rattle.commands.specs.declared.stop.Stop.TheVariants as stop;
ghost use Rattle.cmd_load.specs.Batches.{MayTell, changes_of_row, shown_of_row};
ghost use Rattle.cmd_load.specs.Inputs.{AreRows, Cells, input_plan};
ghost use Rattle.cmd_load.specs.Targets.{FindsTarget, IsTarget, LoadObject, named_object};
ghost use Rattle.store_kv.specs.State.{KeeperCause, LeavesNoMore, Shows, StaysAfter, Steps, Tells, TrustedAfter};
ghost use Rattle.store_rows.specs.declared.fail.StoreFail.TheVariants.{Keeper};
ghost use Rattle.model.specs.Limits.{input_limit};
ghost use Rattle.model.specs.World.{World};
ghost use Rattle.store_abstraction.specs.Fails.{KeeperFailsOpening};
ghost use Rattle.store_abstraction.specs.Stands.{HasKnownVersion, Stands};
ghost use Rattle.base_value.specs.Causes.{Cause};

use crate::csvq::InputFail;
use crate::input::Input;
use crate::printing::{StoreStop, print_tables, write_printout};
use crate::printout::{Printout, printout_of_refusal};
use crate::stop::Stop;
use crate::tables::TableWork;
use base_io::{Clock, ReadFail, Sink, Source, read_all, write_all};
use base_value::Bytes;
use cmd_csvq::INPUT_LIMIT;
use cmd_load::{Loading, Row, Rows, Target, batch_laws, find_target, load_batch, plan_input};
use cmd_load_plan::heading_line;
use model::Refusal;
use std::alloc::Global;
use store_abstraction::{Judged, OpenFail, open_tables, stands_laws};
use store_kv::{Draft, Keeper, draft_laws};
use store_rows::StoreFail;

/// Into which object a text is loaded, and by whom.
#[derive(Drop)]
pub struct Load<'a> {
    /// The organisation's id.
    pub org: &'a str,
    /// The user's id.
    pub user: &'a str,
    /// The user's secret.
    pub secret: &'a str,
    /// The object's name.
    pub object: &'a str,
}

// ---- into which object

// The object, over opened tables.
fn read_object<K: Keeper>(
    alloc: Global,
    keeper: &mut K,
    words: &Load<'_>,
) -> Result<Result<Target, Refusal>, StoreFail>
    ensures finds { Tells (K.state keeper.old) (K.state keeper.new) → (w : World) → Stands (K.state keeper.old).tables w
        → FindsTarget (named_object (asker_in words.now) words.now.object.now w) result }
    ensures same { Tells (K.state keeper.old) (K.state keeper.new) → Shows (K.state keeper.new) (K.state keeper.old).tables }
    ensures crash { LeavesNoMore (K.state keeper.old) (K.state keeper.new) }
    ensures steps { Steps (K.state keeper.old) (K.state keeper.new) }
    ensures stays { StaysAfter (is_ok result) (K.state keeper.old) (K.state keeper.new) }
    ensures cause { KeeperCause (K.state keeper.old) (K.state keeper.new) (IsErrOf result Keeper) }
{
    batch_laws();
    let mut draft = Draft::new(alloc, keeper);
    find_target(
        alloc,
        &mut draft,
        words.org,
        words.user,
        words.secret,
        words.object,
    )
}

// Opens the tables and finds the object.
fn find_object<K: Keeper>(
    alloc: Global,
    keeper: &mut K,
    words: &Load<'_>,
) -> Result<Result<Target, Refusal>, OpenFail>
    ensures finds { Tells (K.state keeper.old) (K.state keeper.new) → (w : World) → Stands (K.state keeper.old).tables w
        → FindsObject (named_object (asker_in words.now) words.now.object.now w) result }
    ensures version { Tells (K.state keeper.old) (K.state keeper.new) → VersionAs (K.state keeper.old).tables result }
    ensures same { Tells (K.state keeper.old) (K.state keeper.new) → Shows (K.state keeper.new) (K.state keeper.old).tables }
    ensures crash { (K.state keeper.old).tells → LeavesNoMore (K.state keeper.old) (K.state keeper.new) }
    ensures steps { Steps (K.state keeper.old) (K.state keeper.new) }
    ensures trusted { TrustedAfter (is_ok result) (K.state keeper.new) }
    ensures cause { KeeperCause (K.state keeper.old) (K.state keeper.new) (KeeperFailsOpening result) }
{
    stands_laws();
    match open_tables(alloc, keeper) {
        Ok(_organisations) => match read_object(alloc, keeper, words) {
            Ok(found) => Ok(found),
            Err(fail) => Err(OpenFail::Store(fail)),
        },
        Err(fail) => Err(fail),
    }
}

// ---- the text

impl From<InputFail> for Stop {
    ghost from_gives = { λ fail e. e ≡ of_input fail };

    fn from(fail: InputFail) -> Stop {
        match fail {
            InputFail::Failed => Stop::SourceFailed,
            InputFail::Memory => Stop::NoMemory,
        }
    }
}

// The text with its plan, or why it isn't loaded.
fn planned_input(
    alloc: Global,
    target: &Target,
    text: Bytes,
) -> Result<Result<Input, Refusal>, InputFail>
    requires { length text ≤ input_limit }
    ensures plan { IfOk result (λ planned. (x : LoadObject) → IsTarget x target.now → IsInput (input_plan x text) planned) }
    ensures err { IfErr result (λ fail. fail ≡ input.Memory) }
{
    match plan_input(alloc, target, text.as_slice()) {
        Ok(Ok(plan)) => Ok(Ok(Input { plan, text })),
        Ok(Err(refusal)) => Ok(Err(refusal)),
        Err(_) => Err(InputFail::Memory),
    }
}

// The text of the source.
fn read_input<S: Source>(
    alloc: Global,
    target: &Target,
    source: &mut S,
) -> Result<Result<Input, Refusal>, InputFail>
    ensures input { IfOk result (λ planned. IsInputOf target.now (S.left source.old) planned) }
    ensures whole { IfOk result (λ planned. OnOk planned (IsAtEnd (S.left source.new))) }
    ensures stays { S.stays source.old source.new }
    ensures cause { Cause (S.faults source.old) (S.faults source.new) (IsErrOf result input.Failed) }
{
    match read_all(alloc, source, INPUT_LIMIT) {
        Ok(text) => planned_input(alloc, target, text),
        Err(ReadFail::TooLong) => Ok(Err(Refusal::InputTooLarge)),
        Err(ReadFail::Failed) => Err(InputFail::Failed),
        Err(ReadFail::Memory) => Err(InputFail::Memory),
    }
}

// ---- rows

/// A batch of rows.
#[derive(Drop)]
struct Batch<'a> {
    loading: &'a Loading<'a>,
    rows: &'a [Row],
}

// Its printout: the lines of the rows.
fn lines_judged(judged: Result<Judged<Bytes>, StoreFail>) -> Result<Judged<Printout>, StoreFail>
    ensures { result ≡ printout_judged judged }
{
    match judged {
        Ok(Judged::Same(lines)) => Ok(Judged::Same(Printout::done(lines.into_vec()))),
        Ok(Judged::Changed(lines)) => Ok(Judged::Changed(Printout::done(lines.into_vec()))),
        Err(fail) => Err(fail),
    }
}

impl TableWork for Batch<'_> {
    ghost does = { λ b w. batch_does (asker_of b.loading.now) b.loading.now.plan.now b.rows.now w };

    ghost keeps = { false };

    ghost most = { λ b. length b.rows.now * changes_of_row };

    ghost shown = { λ b removed. length b.rows.now * shown_of_row removed };

    fn judge<K: Keeper>(
        &self,
        alloc: Global,
        draft: &mut Draft<'_, K>,
        _organisations: u32,
    ) -> Result<Judged<Printout>, StoreFail> {
        batch_laws();
        let judged = load_batch(alloc, draft, self.loading, self.rows);
        lines_judged(judged)
    }
}

// What cuts the load short behind its opening. If the version of the tables is known no more, they are damaged.
fn later_stop(stop: StoreStop) -> Stop
    ensures { result ≡ later_stop stop }
{
    match stop {
        StoreStop::UnknownVersion => Stop::Damaged,
        stop => Stop::from(stop),
    }
}

// Loads rows that were read, and then those that weren't, batch by batch: each is made before its lines are written. The next batch is
// read before, so nothing but a batch can stop the load.
fn print_batches<K: Keeper, W: Sink, C: Clock>(
    alloc: Global,
    loading: &Loading<'_>,
    first: Vec<Row>,
    rows: &mut Rows<'_>,
    keeper: &mut K,
    sink: &mut W,
    clock: &mut C,
) -> Result<u8, Stop>
    requires { IsFull first.items rows.old.left }
    ensures prints { Tells (K.state keeper.old) (K.state keeper.new) → (w : World) → Stands (K.state keeper.old).tables w
        → PrintsBy (λ moments. read_printed (asker_of loading.now) loading.now.plan.now first.items rows.old moments w)
        w (C.coming clock.old) (W.written sink.old) (W.written sink.new) result (K.state keeper.new) }
    ensures falls { Fell (K.state keeper.old) (K.state keeper.new) → (w : World) → Stands (K.state keeper.old).tables w
        → FallsBy (λ moments. read_printed (asker_of loading.now) loading.now.plan.now first.items rows.old moments w)
        w (C.coming clock.old) (W.written sink.old) (W.written sink.new) (K.state keeper.new) }
    ensures ends { LoadEnds (K.state keeper.old) (K.state keeper.new) result }
    ensures stops { is_one_of (status_in result) rows_statuses ≡ true }
    ensures status { IfOk result (λ status. status ≡ 0) }
    ensures sink_cause { Cause (W.faults sink.old) (W.faults sink.new) (IsErrOf result stop.SinkFailed) }
    ensures sink_stays { W.stays sink.old sink.new }
{
    let mut batch = first;
    'batches: while !batch.is_empty() {
        let next = rows.next_batch(alloc, clock)?;
        let work = Batch {
            loading: &*loading,
            rows: batch.as_slice(),
        };
        match print_tables(alloc, &work, keeper, sink) {
            Ok(_status) => batch = next,
            Err(stop) => return Err(later_stop(stop)),
        }
    }
    Ok(0)
}

// The heading's line, and then the rows.
fn print_rows<K: Keeper, W: Sink, C: Clock>(
    alloc: Global,
    words: &Load<'_>,
    input: &Input,
    keeper: &mut K,
    sink: &mut W,
    clock: &mut C,
) -> Result<u8, Stop>
    ensures prints { Tells (K.state keeper.old) (K.state keeper.new) → (w : World) → Stands (K.state keeper.old).tables w
        → (rows : List Cells) → AreRows rows input.now.text
        → PrintsBy (λ moments. behind_heading w (rows_printed (asker_in words.now) input.now.plan 1 rows moments w))
        w (C.coming clock.old) (W.written sink.old) (W.written sink.new) result (K.state keeper.new) }
    ensures falls { Fell (K.state keeper.old) (K.state keeper.new) → (w : World) → Stands (K.state keeper.old).tables w
        → (rows : List Cells) → AreRows rows input.now.text
        → FallsBy (λ moments. behind_heading w (rows_printed (asker_in words.now) input.now.plan 1 rows moments w))
        w (C.coming clock.old) (W.written sink.old) (W.written sink.new) (K.state keeper.new) }
    ensures ends { LoadEnds (K.state keeper.old) (K.state keeper.new) result }
    ensures stops { is_one_of (status_in result) rows_statuses ≡ true }
    ensures status { IfOk result (λ status. status ≡ 0) }
    ensures sink_cause { Cause (W.faults sink.old) (W.faults sink.new) (IsErrOf result stop.SinkFailed) }
    ensures sink_stays { W.stays sink.old sink.new }
{
    let mut rows = Rows::behind_heading(alloc, input.text.as_slice())?;
    let first = rows.next_batch(alloc, clock)?;
    let heading = heading_line(alloc)?;
    write_all(sink, heading.as_slice())?;
    let loading = Loading {
        org: words.org,
        user: words.user,
        secret: words.secret,
        plan: &input.plan,
    };
    print_batches(alloc, &loading, first, &mut rows, keeper, sink, clock)
}

// ---- all of it

// Writes why nothing is loaded.
fn print_refusal<W: Sink>(alloc: Global, refusal: &Refusal, sink: &mut W) -> Result<u8, Stop>
    ensures prints { (w : World) → Prints w (one_deed (refused refusal.now) w) (W.written sink.old) (W.written sink.new) result w }
    ensures stops { is_one_of (status_in result) refusal_statuses ≡ true }
    ensures status { IfOk result (λ status. status ≡ 65) }
    ensures sink_cause { Cause (W.faults sink.old) (W.faults sink.new) (IsErrOf result stop.SinkFailed) }
    ensures sink_stays { W.stays sink.old sink.new }
{
    let printout = printout_of_refusal(alloc, refusal)?;
    Ok(write_printout(sink, &printout)?)
}

// Loads the text of the source into an object that was found.
fn print_into<K: Keeper, S: Source, W: Sink, C: Clock>(
    alloc: Global,
    words: &Load<'_>,
    target: &Target,
    keeper: &mut K,
    source: &mut S,
    sink: &mut W,
    clock: &mut C,
) -> Result<u8, Stop>
    ensures prints { Tells (K.state keeper.old) (K.state keeper.new) → (w : World) → Stands (K.state keeper.old).tables w
        → (x : LoadObject) → IsTarget x target.now
        → (bytes : List ℕ) × MayTell (S.left source.old) bytes
        × PrintsBy (λ moments. planned_printed (asker_in words.now) moments w (input_plan x bytes)) w
        (C.coming clock.old) (W.written sink.old) (W.written sink.new) result (K.state keeper.new) }
    ensures falls { Fell (K.state keeper.old) (K.state keeper.new) → (w : World) → Stands (K.state keeper.old).tables w
        → (x : LoadObject) → IsTarget x target.now
        → (bytes : List ℕ) × MayTell (S.left source.old) bytes
        × FallsBy (λ moments. planned_printed (asker_in words.now) moments w (input_plan x bytes)) w
        (C.coming clock.old) (W.written sink.old) (W.written sink.new) (K.state keeper.new) }
    ensures ends { LoadEnds (K.state keeper.old) (K.state keeper.new) result }
    ensures stops { is_one_of (status_in result) (65 ∷ 74 ∷ rows_statuses) ≡ true }
    ensures kept { Tells (K.state keeper.old) (K.state keeper.new) → may_change (command_in words.now) (status_in result) ≡ false
        → Shows (K.state keeper.new) (K.state keeper.old).tables }
    ensures unwritten { may_write (command_in words.now) (status_in result) ≡ false → sink.new ≡ sink.old }
    ensures whole { status_in result ≡ 0 → IsAtEnd (S.left source.new) }
    ensures source_cause { Cause (S.faults source.old) (S.faults source.new) (IsErrOf result stop.SourceFailed) }
    ensures source_stays { S.stays source.old source.new }
    ensures known { IsKnownStatus result }
    ensures sink_cause { Cause (W.faults sink.old) (W.faults sink.new) (IsErrOf result stop.SinkFailed) }
    ensures sink_stays { W.stays sink.old sink.new }
{
    match read_input(alloc, target, source)? {
        Ok(input) => print_rows(alloc, words, &input, keeper, sink, clock),
        Err(refusal) => print_refusal(alloc, &refusal, sink),
    }
}

/// Loads the CSV text of the source into an object, and writes what became of each row.
///
/// # Errors
///
/// `NoMemory` if out of memory, `KeeperFailed`, `SourceFailed` and `SinkFailed` if one of these failed, `UnknownVersion` of tables of
/// another version, `Damaged` never if the tables stand for a world. The batches whose lines were written are then done.
pub fn print_load<K: Keeper, S: Source, W: Sink, C: Clock>(
    alloc: Global,
    words: &Load<'_>,
    keeper: &mut K,
    source: &mut S,
    sink: &mut W,
    clock: &mut C,
) -> Result<u8, Stop>
    ensures prints { Tells (K.state keeper.old) (K.state keeper.new) → (w : World) → Stands (K.state keeper.old).tables w
        → (bytes : List ℕ) × MayTell (S.left source.old) bytes
        × PrintsBy (λ moments. load_printed (asker_in words.now) words.now.object.now bytes moments w) w
        (C.coming clock.old) (W.written sink.old) (W.written sink.new) result (K.state keeper.new) }
    ensures falls { Fell (K.state keeper.old) (K.state keeper.new) → (w : World) → Stands (K.state keeper.old).tables w
        → (bytes : List ℕ) × MayTell (S.left source.old) bytes
        × FallsBy (λ moments. load_printed (asker_in words.now) words.now.object.now bytes moments w) w
        (C.coming clock.old) (W.written sink.old) (W.written sink.new) (K.state keeper.new) }
    ensures ends { LoadEnds (K.state keeper.old) (K.state keeper.new) result }
    ensures acknowledged { TrustedAfter (is_ok result) (K.state keeper.new) }
    ensures version { Tells (K.state keeper.old) (K.state keeper.new) → VersionStops (K.state keeper.old).tables result }
    ensures status { has_status (command_in words.now) (status_in result) ≡ true }
    ensures kept { Tells (K.state keeper.old) (K.state keeper.new) → may_change (command_in words.now) (status_in result) ≡ false
        → Shows (K.state keeper.new) (K.state keeper.old).tables }
    ensures unwritten { may_write (command_in words.now) (status_in result) ≡ false → sink.new ≡ sink.old }
    ensures unopened { status_in result ≡ 77 → (source.new ≡ source.old) × (clock.new ≡ clock.old) }
    ensures whole { status_in result ≡ 0 → IsAtEnd (S.left source.new) }
    ensures source_cause { Cause (S.faults source.old) (S.faults source.new) (IsErrOf result stop.SourceFailed) }
    ensures source_stays { S.stays source.old source.new }
    ensures known { IsKnownStatus result }
    ensures sink_cause { Cause (W.faults sink.old) (W.faults sink.new) (IsErrOf result stop.SinkFailed) }
    ensures sink_stays { W.stays sink.old sink.new }
{
    stands_laws();
    match find_object(alloc, keeper, words)? {
        Ok(target) => print_into(alloc, words, &target, keeper, source, sink, clock),
        Err(refusal) => print_refusal(alloc, &refusal, sink),
    }
}

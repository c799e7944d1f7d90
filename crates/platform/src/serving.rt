ghost use Rattle.std.specs.Prelude.{◌≡◌, ◌⊎◌, ◌<◌, ◌≤◌, List, ℕ, IfOk, IsErrOf, Option, Some, false, true};
ghost use Rattle.base_io.specs.Doors.{DoorState};
ghost use Rattle.store_kv.specs.State.{KeeperCause, Shows, Steps, Tells};
ghost use Rattle.model.specs.World.{World};
ghost use Rattle.server.specs.Falls.{Falls, FallsBringing, Fell};
ghost use Rattle.server.specs.Leads.{LeadsFrom};
ghost use Rattle.server.specs.Senses.{Sense, StandsAs};
ghost use Rattle.store_abstraction.specs.Stands.{HasKnownVersion, Stands};
ghost use Rattle.base_value.specs.Causes.{Cause};
ghost use Rattle.commands.specs.Commands.{answers, has_status, is_opening, may_change, serves};
ghost use Rattle.platform.specs.Falling.{FallsOpening};
ghost use Rattle.platform.specs.Run.{status_in};
ghost use Rattle.platform.specs.Serving.{RunsAnswer, RunsServe, answer_end, serve_end};
ghost use Rattle.commands.specs.Stops.{VersionStops};
ghost use Rattle.commands.specs.declared.stop.Stop.TheVariants.{DoorFailed, KeeperFailed, SinkFailed, SourceFailed};

use base_io::{Clock, Door, IoFail, Sink, Source};
use commands::Stop;
use server::{LineFail, Pair, connection, isolation_laws, open_and_serve, serving_laws};
use std::alloc::Global;
use store_abstraction::{open_tables, stands_laws};
use store_kv::Keeper;

// How a run ends by the end of its one connection.
fn answer_end(ended: Result<(), LineFail>) -> Result<u8, Stop>
    ensures { result ≡ answer_end ended }
{
    match ended {
        Ok(()) => Ok(0),
        Err(LineFail::Read) => Err(Stop::SourceFailed),
        Err(LineFail::Write) => Err(Stop::SinkFailed),
    }
}

/// Answers the messages of one connection, which come from the source, to the sink.
pub(crate) fn serve_answer<K: Keeper, S: Source, W: Sink, C: Clock>(
    alloc: Global,
    keeper: &mut K,
    source: &mut S,
    sink: &mut W,
    clock: &mut C,
) -> Result<u8, Stop>
    ensures runs { Tells (K.state keeper.old) (K.state keeper.new) → HasKnownVersion (K.state keeper.old).tables
        → (sense : Sense) (w : World) → StandsAs sense (K.state keeper.old).tables w
        → (door : Option DoorState) (faults lines : ℕ) → RunsAnswer sense w
        (record { keeper = K.state keeper.old; door = door; door_faults = faults; line_faults = lines; left = S.left source.old; read_faults = S.faults source.old; written = W.written sink.old; write_faults = W.faults sink.old; coming = C.coming clock.old })
        (record { keeper = K.state keeper.new; door = door; door_faults = faults; line_faults = lines; left = S.left source.new; read_faults = S.faults source.new; written = W.written sink.new; write_faults = W.faults sink.new; coming = C.coming clock.new })
        result }
    ensures leads { LeadsFrom (K.state keeper.old) (K.state keeper.new) }
    ensures falls { Fell (K.state keeper.old) (K.state keeper.new) → (w : World) → Stands (K.state keeper.old).tables w
        → (input moments : List ℕ) → S.left source.old ≡ Some input → C.coming clock.old ≡ Some moments
        → FallsOpening w (K.state keeper.new) (status_in result)
        ⊎ Falls w moments input (W.written sink.old) (W.written sink.new) (K.state keeper.new) }
    ensures kept { Tells (K.state keeper.old) (K.state keeper.new) → may_change answers (status_in result) ≡ false
        → Shows (K.state keeper.new) (K.state keeper.old).tables }
    ensures version { Tells (K.state keeper.old) (K.state keeper.new) → VersionStops (K.state keeper.old).tables result }
    ensures statuses { has_status answers (status_in result) ≡ true }
    ensures status { IfOk result (λ s. s ≡ 0) }
    ensures unserved { is_opening (status_in result) ≡ true
        → (source.new ≡ source.old) × (sink.new ≡ sink.old) × (clock.new ≡ clock.old) }
    ensures steps { Steps (K.state keeper.old) (K.state keeper.new) }
    ensures keeper_cause { KeeperCause (K.state keeper.old) (K.state keeper.new) (IsErrOf result KeeperFailed) }
    ensures source_cause { Cause (S.faults source.old) (S.faults source.new) (IsErrOf result SourceFailed) }
    ensures sink_cause { Cause (W.faults sink.old) (W.faults sink.new) (IsErrOf result SinkFailed) }
    ensures source_stays { S.stays source.old source.new }
    ensures sink_stays { W.stays sink.old sink.new }
{
    stands_laws();
    serving_laws::<K>();
    isolation_laws();
    match open_tables(alloc, keeper) {
        Ok(_) => {
            let mut wire = Pair::new(source, sink);
            answer_end(connection(alloc, keeper, &mut wire, clock))
        }
        Err(fail) => Err(Stop::from(fail)),
    }
}

// How a run ends by the end of its connections.
fn serve_end(ended: Result<(), IoFail>) -> Result<u8, Stop>
    ensures { result ≡ serve_end ended }
{
    match ended {
        Ok(()) => Ok(0),
        Err(_) => Err(Stop::DoorFailed),
    }
}

/// Answers the messages of the first connections of the door, `count` of them or all that come.
pub(crate) fn serve_door<K: Keeper, D: Door, C: Clock>(
    alloc: Global,
    keeper: &mut K,
    door: &mut D,
    clock: &mut C,
    count: u64,
) -> Result<u8, Stop>
    requires { 0 < count }
    ensures runs { Tells (K.state keeper.old) (K.state keeper.new) → HasKnownVersion (K.state keeper.old).tables
        → (sense : Sense) (w : World) → StandsAs sense (K.state keeper.old).tables w
        → (left written : Option (List ℕ)) (reads writes : ℕ) → RunsServe sense count w
        (record { keeper = K.state keeper.old; door = D.held door.old; door_faults = D.faults door.old; line_faults = D.line_faults door.old; left = left; read_faults = reads; written = written; write_faults = writes; coming = C.coming clock.old })
        (record { keeper = K.state keeper.new; door = D.held door.new; door_faults = D.faults door.new; line_faults = D.line_faults door.new; left = left; read_faults = reads; written = written; write_faults = writes; coming = C.coming clock.new })
        result }
    ensures leads { LeadsFrom (K.state keeper.old) (K.state keeper.new) }
    ensures falls { Fell (K.state keeper.old) (K.state keeper.new) → (w : World) → Stands (K.state keeper.old).tables w
        → (d : DoorState) (moments : List ℕ) → D.held door.old ≡ Some d → C.coming clock.old ≡ Some moments
        → FallsOpening w (K.state keeper.new) (status_in result)
        ⊎ FallsBringing w moments d (D.held door.new) (K.state keeper.new) }
    ensures kept { Tells (K.state keeper.old) (K.state keeper.new) → may_change (serves count) (status_in result) ≡ false
        → Shows (K.state keeper.new) (K.state keeper.old).tables }
    ensures version { Tells (K.state keeper.old) (K.state keeper.new) → VersionStops (K.state keeper.old).tables result }
    ensures statuses { has_status (serves count) (status_in result) ≡ true }
    ensures status { IfOk result (λ s. s ≡ 0) }
    ensures unserved { is_opening (status_in result) ≡ true → (door.new ≡ door.old) × (clock.new ≡ clock.old) }
    ensures steps { Steps (K.state keeper.old) (K.state keeper.new) }
    ensures keeper_cause { KeeperCause (K.state keeper.old) (K.state keeper.new) (IsErrOf result KeeperFailed) }
    ensures door_cause { Cause (D.faults door.old) (D.faults door.new) (IsErrOf result DoorFailed) }
    ensures line_faults { D.line_faults door.old ≤ D.line_faults door.new }
{
    stands_laws();
    serving_laws::<K>();
    isolation_laws();
    match open_tables(alloc, keeper) {
        Ok(_) => serve_end(open_and_serve(alloc, keeper, door, clock, count)),
        Err(fail) => Err(Stop::from(fail)),
    }
}

//! The connections of a door, served one after the other.

ghost use Rattle.std.specs.Prelude.{◌≡◌, ◌<◌, ◌≤◌, false, IsErr, IsTrue, ℕ, List, Some};
ghost use Rattle.base_io.specs.Doors.{DoorState};
ghost use Rattle.base_value.specs.Causes.{Cause};
ghost use Rattle.store_kv.specs.State.{Steps, Tells};
ghost use Rattle.model.specs.World.{World};
ghost use Rattle.store_abstraction.specs.Stands.{Stands};
ghost use Rattle.server.specs.Doors.{BringsTo, ManyEnds, NextEnds};
ghost use Rattle.server.specs.Falls.{FallsBringing, Fell, OutputsUndone};
ghost use Rattle.server.specs.Leads.{LeadsFrom};
ghost use Rattle.server.specs.Senses.{Sense, StandsAs};

use crate::lines::connection;
use crate::wire::Present;
use base_io::{Clock, Door, IoFail};
use std::alloc::Global;
use store_kv::Keeper;

// Serves the next connection of a door to its end, and returns whether there was one. A read or a write that fails ends
// this connection alone, and the door counts it.
fn serve_next<K: Keeper, D: Door, C: Clock>(
    alloc: Global,
    keeper: &mut K,
    door: &mut D,
    clock: &mut C,
) -> Result<bool, IoFail>
    ensures serves { Tells (K.state keeper.old) (K.state keeper.new)
        → (sense : Sense) (w : World) (d : DoorState) (moments : List ℕ) → StandsAs sense (K.state keeper.old).tables w
        → D.held door.old ≡ Some d → C.coming clock.old ≡ Some moments
        → BringsTo sense w moments d (NextEnds result) (C.coming clock.new) (D.held door.new)
        (D.line_faults door.old) (D.line_faults door.new) (K.state keeper.old) (K.state keeper.new) }
    ensures falls { Fell (K.state keeper.old) (K.state keeper.new)
        → (w : World) (d : DoorState) (moments : List ℕ) → Stands (K.state keeper.old).tables w
        → D.held door.old ≡ Some d → C.coming clock.old ≡ Some moments
        → FallsBringing w moments d (D.held door.new) (K.state keeper.new) }
    // Of a keeper that fell before.
    ensures undone { (K.state keeper.old).trusted ≡ false → IsTrue (K.state keeper.new).is_clean
        → OutputsUndone (D.held door.old) (D.held door.new) }
    ensures leads { LeadsFrom (K.state keeper.old) (K.state keeper.new) }
    ensures steps { Steps (K.state keeper.old) (K.state keeper.new) }
    ensures cause { Cause (D.faults door.old) (D.faults door.new) (IsErr result) }
    ensures lines { D.line_faults door.old ≤ D.line_faults door.new }
{
    if !door.next()? {
        return Ok(false);
    }
    let mut wire = Present::new(door);
    let _ended = connection(alloc, keeper, &mut wire, clock);
    Ok(true)
}

// Serves the first `count` connections of an open door, or all if there are fewer.
fn serve<K: Keeper, D: Door, C: Clock>(
    alloc: Global,
    keeper: &mut K,
    door: &mut D,
    clock: &mut C,
    count: u64,
) -> Result<(), IoFail>
    ensures serves { Tells (K.state keeper.old) (K.state keeper.new)
        → (sense : Sense) (w : World) (d : DoorState) (moments : List ℕ) → StandsAs sense (K.state keeper.old).tables w
        → D.held door.old ≡ Some d → C.coming clock.old ≡ Some moments
        → BringsTo sense w moments d (ManyEnds count result) (C.coming clock.new) (D.held door.new)
        (D.line_faults door.old) (D.line_faults door.new) (K.state keeper.old) (K.state keeper.new) }
    ensures falls { Fell (K.state keeper.old) (K.state keeper.new)
        → (w : World) (d : DoorState) (moments : List ℕ) → Stands (K.state keeper.old).tables w
        → D.held door.old ≡ Some d → C.coming clock.old ≡ Some moments
        → FallsBringing w moments d (D.held door.new) (K.state keeper.new) }
    ensures leads { LeadsFrom (K.state keeper.old) (K.state keeper.new) }
    ensures steps { Steps (K.state keeper.old) (K.state keeper.new) }
    ensures cause { Cause (D.faults door.old) (D.faults door.new) (IsErr result) }
    ensures lines { D.line_faults door.old ≤ D.line_faults door.new }
{
    for _served in 0..count {
        if !serve_next(alloc, keeper, door, clock)? {
            return Ok(());
        }
    }
    Ok(())
}

/// Opens a door, and serves its first `count` connections, each to its end, or all if there are fewer. If a read or a write of
/// one fails, the door counts it, and the next connection is served.
///
/// # Errors
///
/// If the door can't be opened, or fails to bring a connection before the `count`th was served: what was served before stays
/// done.
pub fn open_and_serve<K: Keeper, D: Door, C: Clock>(
    alloc: Global,
    keeper: &mut K,
    door: &mut D,
    clock: &mut C,
    count: u64,
) -> Result<(), IoFail>
    requires { 0 < count }
    ensures serves { Tells (K.state keeper.old) (K.state keeper.new)
        → (sense : Sense) (w : World) (d : DoorState) (moments : List ℕ) → StandsAs sense (K.state keeper.old).tables w
        → D.held door.old ≡ Some d → C.coming clock.old ≡ Some moments
        → BringsTo sense w moments d (ManyEnds count result) (C.coming clock.new) (D.held door.new)
        (D.line_faults door.old) (D.line_faults door.new) (K.state keeper.old) (K.state keeper.new) }
    ensures falls { Fell (K.state keeper.old) (K.state keeper.new)
        → (w : World) (d : DoorState) (moments : List ℕ) → Stands (K.state keeper.old).tables w
        → D.held door.old ≡ Some d → C.coming clock.old ≡ Some moments
        → FallsBringing w moments d (D.held door.new) (K.state keeper.new) }
    ensures leads { LeadsFrom (K.state keeper.old) (K.state keeper.new) }
    ensures steps { Steps (K.state keeper.old) (K.state keeper.new) }
    ensures cause { Cause (D.faults door.old) (D.faults door.new) (IsErr result) }
    ensures lines { D.line_faults door.old ≤ D.line_faults door.new }
{
    match door.open() {
        Ok(()) => serve(alloc, keeper, door, clock, count),
        Err(fail) => Err(fail),
    }
}

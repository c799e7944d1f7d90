//! Laws for the layers above.

ghost use Rattle.std.specs.Prelude.{◌≡◌, ◌<◌, ◌^◌, Bool, IsTrue, ℕ, List, [], true};
ghost use Rattle.std.specs.List.{AllByRecursion};
ghost use Rattle.store_kv.specs.State.{LeavesNoMore, Shows, Steps};
ghost use Rattle.store_kv.specs.Tables.{Tables};
ghost use Rattle.model.specs.World.{World, tenant_at};
ghost use Rattle.store_abstraction.specs.Local.{KeepsOthers};
ghost use Rattle.store_abstraction.specs.Stands.{Stands};
ghost use Rattle.server.specs.Connections.{AreServed, Connection, exchanges_of, faulted};
ghost use Rattle.server.specs.Doors.{IsUnfaulted};
ghost use Rattle.server.specs.Exchanges.{Exchange, LeavesBehind};
ghost use Rattle.server.specs.Isolation.{asked_of, replies_of, replies_to};
ghost use Rattle.server.specs.Leads.{Leads, LeadsFrom};
ghost use Rattle.server.specs.Senses.{Sense, StandsAs, StandsBut};
ghost use Rattle.base_value.specs.Causes.{RoseBy, last_count};

use model_requests::step_laws;
use store_abstraction::local_laws;
use store_kv::{Keeper, key_laws};

/// Isolation. The call does nothing.
pub fn isolation_laws()
    // The replies to one organisation's requests are those to these requests alone, from any world that has the same
    // organisation.
    ensures { (sense : Sense) (org : ℕ) (cs : List Connection) (w v end : World) (moments later : List ℕ)
        → AreServed sense cs w moments end later → tenant_at w org ≡ tenant_at v org
        → replies_of org (exchanges_of cs) ≡ replies_to v (asked_of org (exchanges_of cs)) }
{
    // For the proof alone.
    step_laws();
}

/// Tables in which the rows of some organisations are damaged. The call does nothing.
pub fn damage_laws()
    // Tables that stand for a world stand for all of it but any organisations that are apart.
    ensures whole { (m : Tables) (w : World) (apart : ℕ → Bool) → Stands m w → StandsBut apart m w }
    // They still do, whatever becomes of the rows of one that is apart.
    ensures damaged { (m after : Tables) (w : World) (apart : ℕ → Bool) (n : ℕ) → n < 2 ^ 32 → apart n ≡ true
        → StandsBut apart m w → KeepsOthers n m after → StandsBut apart after w }
{
    // For the proof alone.
    local_laws();
    key_laws();
}

/// Connections of a door whose count of faults stayed below its last value. The call does nothing.
pub fn connection_laws()
    // If no fault of lines was counted, no read and no write ended a connection.
    ensures { (cs : List Connection) (count : ℕ) → RoseBy (faulted cs) count count → count < last_count
        → AllByRecursion IsUnfaulted cs }
{}

/// The laws by which what is done before the first request, as opening the tables, joins what is served. The call does
/// nothing.
pub fn serving_laws<K: Keeper>()
    // Tables that stand for a world were only read.
    ensures left_by_reading { (sense : Sense) (w : World) (a b : K) → Steps (K.state a) (K.state b)
        → (IsTrue (K.state b).trusted → Shows (K.state b) (K.state a).tables) → StandsAs sense (K.state a).tables w
        → LeavesBehind sense w [] (K.state a) (K.state b) }
    ensures led_by_reading { (w : World) (a b : K)
        → (IsTrue (K.state b).trusted → Shows (K.state b) (K.state a).tables)
        → LeavesNoMore (K.state a) (K.state b) → Stands (K.state a).tables w
        → Leads w (K.state a) (K.state b) }

    // Requests after it.
    ensures left_from_open { (sense : Sense) (w end : World) (xs : List Exchange) (a b c : K)
        → LeavesBehind sense w [] (K.state a) (K.state b)
        → LeavesBehind sense end xs (K.state b) (K.state c) → LeavesBehind sense end xs (K.state a) (K.state c) }
    ensures led_from_open { (w : World) (a b c : K)
        → Leads w (K.state a) (K.state b) → Steps (K.state b) (K.state c)
        → LeadsFrom (K.state b) (K.state c) → Leads w (K.state a) (K.state c) }
{}

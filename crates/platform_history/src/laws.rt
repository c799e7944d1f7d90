ghost use Rattle.std.specs.Prelude.{◌≡◌, IsTrue, List, [], ◌∷◌, Some, ℕ};
ghost use Rattle.std.specs.Io.KnownBytes.{Appends};
ghost use Rattle.store_kv.specs.Tables.{Tables, no_rows};
ghost use Rattle.model.specs.World.{World};
ghost use Rattle.store_abstraction.specs.Stands.{Stands};
ghost use Rattle.commands.specs.Commands.{org_add, printed, prints};
ghost use Rattle.commands.specs.Deeds.{text_of};
ghost use Rattle.platform_history.specs.Calls.{AreCalls, AreInTurn, Call, IsMade, runs_of};
ghost use Rattle.platform_history.specs.Histories.{Goes, Histories};
ghost use Rattle.platform_history.specs.Runs.{Around};

use store_abstraction::stands_laws;
use store_kv::Keeper;

/// The history law. The call does nothing.
pub fn history_laws<K: Keeper>()
    // Calls of `run` one after the other, the first over empty tables, each of the others over tables that a crash after the
    // one before may leave, do what the definitions say, from the world without organisations on.
    ensures crashes { (calls : List (Call K)) → AreCalls K.state (λ m. m ≡ no_rows) calls → Histories [] (runs_of calls) }
    // The same of calls over one keeper.
    ensures in_turn { (k : K) (calls : List (Call K)) → (K.state k).tells → IsTrue (K.state k).trusted → (K.state k).tables ≡ no_rows
        → AreInTurn K.state k calls → Histories [] (runs_of calls) }
{
    stands_laws();
}

/// The same of one call, from any world. The call does nothing.
pub fn call_laws<K: Keeper>()
    // One call of `run`, from tables that stand for any world to any tables that a crash after it may leave.
    ensures { (w : World) (c : Call K) → Stands (K.state c.keeper).tables w
        → (K.state c.keeper).tells → IsTrue (K.state c.keeper).trusted → IsTrue (K.state c.next).is_clean → IsMade K.state c
        → (m : Tables) → (K.state c.next).may_leave m
        → (end : World) × Goes w end c.run.command c.run.before c.run.after c.run.status × Stands m end }
{}

/// A history says what was written: of a first organisation that was made, its line and no other byte. The call does nothing.
pub fn history_rows()
    ensures { (a b : Around) (name secret : List ℕ)
        → Histories [] (record { command = Some (prints (org_add name secret)); before = a; after = b; status = 0 } ∷ [])
        → Appends a.written b.written (text_of (printed (org_add name secret) [] [] []).deeds) }
{}

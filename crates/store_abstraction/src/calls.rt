ghost use Rattle.std.specs.Prelude.{◌≡◌, ◌≤◌, ◌+◌, ℕ, IsErrOf, Result, is_ok};
ghost use Rattle.store_kv.specs.Draft.{DraftTells, Held, tables_of};
ghost use Rattle.store_kv.specs.State.{KeeperCause, Quiet, StaysAfter};
ghost use Rattle.store_rows.specs.declared.fail.StoreFail.{StoreFail};
ghost use Rattle.store_rows.specs.declared.fail.StoreFail.TheVariants.{Keeper};
ghost use Rattle.store_abstraction.specs.Calls.{Calls, Ending, HasFallen, Makes, done, ended, fell, is_done};

use store_kv::{Keeper, draft_laws};

/// The laws of calls over one draft. The call does nothing.
pub fn call_laws<K: Keeper>()
    // One call after another that was done.
    ensures then { (shown later : ℕ) (e : Ending) (a b c : Held K) → Calls K.state shown done a b → Calls K.state later e b c
        → Calls K.state (shown + later) e a c }

    // What isn't a keeper's failure may come of itself after calls that were done.
    ensures weaker { (shown : ℕ) (e : Ending) (a b : Held K) → (e ≡ fell → ⊥) → Calls K.state shown done a b → Calls K.state shown e a b }

    // No call at all.
    ensures none { (e : Ending) (a : Held K) → e ≡ done → Calls K.state 0 e a a }

    // A call that reads leaves what the draft shows, and what it tells over two it tells over each.
    ensures tables { (shown : ℕ) (e : Ending) (a b : Held K) → Calls K.state shown e a b → DraftTells K.state a b
        → tables_of K.state b ≡ tables_of K.state a }
    ensures told_first { (shown : ℕ) (e : Ending) (a b c : Held K) → Calls K.state shown e b c
        → DraftTells K.state a c → DraftTells K.state a b }
    ensures told_then { (shown : ℕ) (e : Ending) (a b c : Held K) → Calls K.state shown e a b
        → DraftTells K.state a b → DraftTells K.state a c → DraftTells K.state b c }

    // A call that reads changes nothing, and a bound may be wider.
    ensures makes { (shown : ℕ) (e : Ending) (a b : Held K) → Calls K.state shown e a b → Makes K.state 0 0 shown e a b }
    ensures most { (most gone shown more taken larger : ℕ) (e : Ending) (a b : Held K)
        → most ≤ more → gone ≤ taken → (DraftTells K.state a b → shown ≤ larger)
        → Makes K.state most gone shown e a b → Makes K.state more taken larger e a b }

    // Changes after a call that reads and was done.
    ensures reads_then { (shown most gone later : ℕ) (e : Ending) (a b c : Held K)
        → Calls K.state shown done a b → Makes K.state most gone later e b c → Makes K.state most gone (shown + later) e a c }
{
    draft_laws::<K>();
}

/// What a call keeps, in the words of its result. The call does nothing.
pub fn ended_laws<X, K: Keeper>()
    ensures stays { (old new : K) (result : Result X StoreFail) → StaysAfter (is_done (ended result)) (K.state old) (K.state new)
        → StaysAfter (is_ok result) (K.state old) (K.state new) }
    ensures cause { (old new : K) (result : Result X StoreFail) → KeeperCause (K.state old) (K.state new) (HasFallen (ended result))
        → KeeperCause (K.state old) (K.state new) (IsErrOf result Keeper) }
    ensures quiet { (old new : K) (result : Result X StoreFail) → Quiet (K.state old) (K.state new) (HasFallen (ended result))
        → Quiet (K.state old) (K.state new) (IsErrOf result Keeper) }
{}

ghost use Rattle.std.specs.Prelude.{◌≡◌, ◌<◌, ◌≤◌, ◌+◌, ◌-◌, ◌↔◌, ℕ, List, [], ◌∷◌, ◌++◌, Some, None, IsTrue, length, take, slice_get};
ghost use Rattle.std.specs.Cmp.{IsTotalOrder};
ghost use Rattle.std.specs.FinMap.{IsAntisymmetric};
ghost use Rattle.std.specs.Ordering.{is_ge, is_le, is_lt};
ghost use Rattle.store_kv.specs.declared.keeper.KeptRow.{KeptRow};
ghost use Rattle.store_kv.specs.Tables.{Tables, place_cmp, bytes_cmp, is_between, rows_between, IsListing};
ghost use Rattle.store_kv.specs.Walks.{next_above};
ghost use Rattle.store_kv.specs.Prefixes.{StartsWith, AreBytes, raised};
ghost use Rattle.store_kv.specs.Memory.{InMemory, memory_state};
ghost use Rattle.store_kv.specs.Draft.{Held, count_of, tables_of, removals_of, DraftTells, DraftReads, DraftWorks, rise};

use crate::keeper::Keeper;

/// The laws by which the layers above walk a table. The call does nothing.
pub fn walk_laws()
    // A scan's rows are those of the interval, each once, in order, and no other, and only one list is this.
    ensures is_listing { (m : Tables) (table : ℕ) (from below : List ℕ)
        → IsListing m table from below (rows_between m table from below) }
    ensures listed { (m : Tables) (table : ℕ) (from below : List ℕ) (rows : List KeptRow)
        → IsListing m table from below rows → rows ≡ rows_between m table from below }

    // The next page begins above the last key of this one, and an empty page is the end.
    ensures after_zero { (key other : List ℕ)
        → is_ge (bytes_cmp other (next_above key)) ≡ is_lt (bytes_cmp key other) }
    ensures page_rest { (m : Tables) (table : ℕ) (from below : List ℕ)
        (front : List KeptRow) (row : KeptRow) (back : List KeptRow)
        → rows_between m table from below ≡ front ++ row ∷ back
        → rows_between m table (next_above row.key) below ≡ back }
    ensures page_step { (m : Tables) (table : ℕ) (next below : List ℕ) (page : ℕ)
        (rows : List KeptRow) (last : KeptRow)
        → rows ≡ take page (rows_between m table next below) → slice_get rows (length rows - 1) ≡ Some last
        → rows ++ rows_between m table (next_above last.key) below ≡ rows_between m table next below }
    ensures page_end { (m : Tables) (table : ℕ) (next below : List ℕ) (page : ℕ) (rows : List KeptRow)
        → 0 < page
        → rows ≡ take page (rows_between m table next below) → slice_get rows (length rows - 1) ≡ None
        → rows_between m table next below ≡ [] }

    // A walk may begin at a key that has no row.
    ensures split { (m : Tables) (table : ℕ) (from mid below : List ℕ)
        → IsTrue (is_le (bytes_cmp from mid)) → IsTrue (is_le (bytes_cmp mid below))
        → rows_between m table from below ≡ rows_between m table from mid ++ rows_between m table mid below }
{}

/// The laws of places and of keys. The call does nothing.
pub fn key_laws()
    // Places and keys are in a total order, in which only equals tie.
    ensures total { IsTotalOrder place_cmp }
    ensures exact { IsAntisymmetric place_cmp }
    ensures bytes_exact { IsAntisymmetric bytes_cmp }

    // The keys with one prefix are one interval, which has no end where the prefix can't be raised.
    ensures interval { (prefix above key : List ℕ) → raised prefix ≡ Some above → AreBytes key
        → (IsTrue (is_between prefix above key) ↔ StartsWith prefix key) }
    ensures unbounded { (prefix key : List ℕ) → raised prefix ≡ None → AreBytes key
        → (IsTrue (is_ge (bytes_cmp key prefix)) ↔ StartsWith prefix key) }
{}

/// A draft over a keeper in memory, of which nothing is read: the premises of `draft_laws` can be met.
pub fn draft_rows()
    ensures told { (d : Held InMemory) → DraftTells memory_state d d }
    ensures reads { (d : Held InMemory) → DraftReads memory_state 0 d d }
{}

/// The laws by which the bounds of calls over one draft add up. The call does nothing.
pub fn draft_laws<K: Keeper>()
    // A call that reads leaves what the draft shows.
    ensures tables { (shown : ℕ) (a b : Held K) → DraftReads K.state shown a b → DraftTells K.state a b
        → tables_of K.state b ≡ tables_of K.state a }

    // A keeper that told its tables over two calls told them over each.
    ensures told_first { (most gone shown : ℕ) (a b c : Held K) → DraftWorks K.state most gone shown b c
        → DraftTells K.state a c → DraftTells K.state a b }
    ensures told_then { (most gone shown : ℕ) (a b c : Held K) → DraftWorks K.state most gone shown a b
        → DraftTells K.state a b → DraftTells K.state a c → DraftTells K.state b c }

    // The same of two calls that read, the second of which reads what the first did.
    ensures both { (shown later : ℕ) (a b c : Held K) → DraftReads K.state shown a b → DraftReads K.state later b c
        → DraftTells K.state a c
        → DraftTells K.state a b × DraftTells K.state b c × (tables_of K.state b ≡ tables_of K.state a) }

    // A draft removes at most as many rows as it changes places.
    ensures removals { (table : ℕ) (a : Held K) → removals_of K.state table a ≤ count_of a }

    // One call after another.
    ensures same { (a : Held K) → DraftReads K.state 0 a a }
    ensures reads { (shown later : ℕ) (a b c : Held K) → DraftReads K.state shown a b
        → DraftReads K.state later b c → DraftReads K.state (shown + later) a c }
    ensures works { (most gone shown more taken later : ℕ) (a b c : Held K)
        → DraftWorks K.state most gone shown a b
        → DraftWorks K.state more taken later b c
        → DraftWorks K.state (most + more) (gone + taken) (shown + later) a c }

    // A call that reads is one that works; its bound may be larger, or be known only if the keeper tells, or be what
    // the count rose by.
    ensures reads_work { (shown : ℕ) (a b : Held K)
        → DraftReads K.state shown a b → DraftWorks K.state 0 0 shown a b }
    ensures reads_most { (shown most : ℕ) (a b : Held K) → (DraftTells K.state a b → shown ≤ most)
        → DraftReads K.state shown a b → DraftReads K.state most a b }
    ensures rise { (shown : ℕ) (a b : Held K)
        → DraftReads K.state shown a b → DraftReads K.state (rise K.state a b) a b }
    ensures works_most { (most gone shown more taken larger : ℕ) (a b : Held K)
        → most ≤ more → gone ≤ taken → (DraftTells K.state a b → shown ≤ larger)
        → DraftWorks K.state most gone shown a b → DraftWorks K.state more taken larger a b }
{}

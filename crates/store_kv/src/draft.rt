ghost use Rattle.std.specs.Prelude.{◌≡◌, ◌⊎◌, ◌<◌, ◌≤◌, ◌+◌, length, take, map, IfOk, OnOk, OnErr, IsTrue, IsErrOf, is_ok, if◌then◌else◌};
ghost use Rattle.store_kv.specs.declared.keeper.KeepFail.TheVariants.{Failed};
ghost use Rattle.store_kv.specs.declared.keeper.Change.TheVariants.{Put, Remove};
ghost use Rattle.store_kv.specs.Tables.{Tables, row_at, rows_between, after, after_change};
ghost use Rattle.store_kv.specs.State.{Steps, Tells, Shows, TrustedAfter, StaysAfter, IsSettled, KeeperCause, Quiet, ShownMost, data_rows, seen, more_written};
ghost use Rattle.store_kv.specs.Laid.{laid};
ghost use Rattle.store_kv.specs.inner.Changes.{change_of};

use crate::keeper::{Batch, KeepFail, Keeper, KeptRow};
use crate::merge::{count_gaps, lay_over};
use crate::place::Place;
use crate::rows::{Rows, held_in};
use base_value::Bytes;
use std::alloc::{AllocError, Global};
use std::collections::BTreeMap;

/// Changes that are not made yet, over a keeper that is read as it will be once they are.
///
/// A later change of a place replaces an earlier one. A draft that is dropped changes nothing. A look-up takes time by
/// the logarithm of the number of changes, besides the keeper's.
#[derive(Debug)]
pub struct Draft<'a, K, C = Rows> {
    keeper: &'a mut K,
    changes: C,
}

impl<K, C: Drop> Drop for Draft<'_, K, C> {
    // Written by hand, since the derived one has no contract about the keeper.
    fn drop(self)
        ensures { self.exit.0.now ≡ self.entry.keeper.now }
    {
        let Draft { keeper: _, changes } = self;
        let _ = changes;
    }
}

ghost use Rattle.store_kv.specs.Draft.{keeper_of, count_of, ChangesNothing, state_of, tables_of, removals_of, DraftTells, DraftReads, DraftWorks};

// The changes, each place's once.
fn batch_of(alloc: Global, entries: Rows) -> Result<Batch, AllocError>
    ensures each { IfOk result (λ batch. batch.changes.items ≡ map change_of entries.entries) }
    ensures same { IfOk result (λ batch. (m : Tables) → after batch.changes.items m ≡ laid entries.entries m) }
{
    let mut changes = Vec::with_capacity(alloc, entries.len())?;
    for (place, row) in entries {
        changes.push(place.change_to(row))?;
    }
    Ok(Batch { changes })
}

impl<'a, K: Keeper> Draft<'a, K> {
    /// A draft without changes. It takes no memory.
    pub fn new(alloc: Global, keeper: &'a mut K) -> Draft<'a, K>
        ensures same_reference { result.keeper.ghost_name ≡ keeper.entry.ghost_name }
        ensures same { keeper_of result ≡ keeper.old }
        ensures empty { ChangesNothing result }
    {
        Draft {
            keeper,
            changes: BTreeMap::new(alloc),
        }
    }

    /// How many places the draft changes.
    pub fn len(&self) -> usize
        ensures { result ≡ count_of self.now }
    {
        self.changes.len()
    }

    /// The row of a key as it will be, or `None` where there will be none. At most one row is shown for it.
    ///
    /// # Errors
    ///
    /// `Failed` if the keeper failed, `Memory` if out of memory.
    pub fn get(&mut self, alloc: Global, table: u8, key: &[u8]) -> Result<Option<Bytes>, KeepFail>
        ensures row { DraftTells K.state self.old self.new
            → IfOk result (λ row. row ≡ row_at (tables_of K.state self.old) table key.now) }
        ensures shown { ShownMost table 1 (state_of K.state self.old) (state_of K.state self.new) }
        ensures reads { DraftReads K.state (data_rows table 1) self.old self.new }
        ensures stays { StaysAfter (is_ok result) (state_of K.state self.old) (state_of K.state self.new) }
        ensures cause { KeeperCause (state_of K.state self.old) (state_of K.state self.new) (IsErrOf result Failed) }
        ensures quiet { Quiet (state_of K.state self.old) (state_of K.state self.new) (IsErrOf result Failed) }
    {
        let place = Place::copied(alloc, table, key)?;
        match self.changes.get(&place) {
            Some(Some(row)) => match Bytes::from_slice(alloc, row.as_slice()) {
                Ok(row) => Ok(Some(row)),
                Err(_) => Err(KeepFail::Memory),
            },
            Some(None) => Ok(None),
            None => self.keeper.get(alloc, table, key),
        }
    }

    /// The first `limit` rows with `from <= key < below` as they will be, in the order of their keys.
    ///
    /// At most the rows returned, or `limit` if it failed, and the draft's removals in the table are shown for it.
    ///
    /// # Errors
    ///
    /// `Failed` if the keeper failed, `Memory` if out of memory.
    pub fn scan(
        &mut self,
        alloc: Global,
        table: u8,
        from: &[u8],
        below: &[u8],
        limit: usize,
    ) -> Result<Vec<KeptRow>, KeepFail>
        ensures rows { DraftTells K.state self.old self.new
            → IfOk result (λ rows.
            rows.items ≡ take limit (rows_between (tables_of K.state self.old) table from.now below.now)) }
        ensures short { IfOk result (λ rows. length rows.items ≤ limit) }
        ensures shown { ShownMost table (seen limit result + removals_of K.state table self.old)
            (state_of K.state self.old) (state_of K.state self.new) }
        ensures reads { DraftReads K.state (data_rows table (seen limit result + removals_of K.state table self.old))
            self.old self.new }
        ensures trusted { TrustedAfter (is_ok result) (state_of K.state self.new) }
        ensures cause { KeeperCause (state_of K.state self.old) (state_of K.state self.new) (IsErrOf result Failed) }
        ensures quiet { Quiet (state_of K.state self.old) (state_of K.state self.new) (IsErrOf result Failed) }
    {
        let held = held_in(alloc, &self.changes, table, from, below, limit)?;
        // A row that the draft takes away may use up the limit.
        let most = limit.saturating_add(count_gaps(held.as_slice()));
        let rows = self.keeper.scan(alloc, table, from, below, most)?;
        match lay_over(alloc, rows, held.as_slice(), limit) {
            Ok(rows) => Ok(rows),
            Err(_) => Err(KeepFail::Memory),
        }
    }

    /// Sets the row of the key.
    ///
    /// # Errors
    ///
    /// If out of memory. The draft is then as it was.
    pub fn put(
        &mut self,
        _alloc: Global,
        table: u8,
        key: Bytes,
        row: Bytes,
    ) -> Result<(), AllocError>
        ensures keeper { keeper_of self.new ≡ keeper_of self.old }
        ensures works { DraftWorks K.state 1 0 0 self.old self.new }
        ensures ok { OnOk result (tables_of K.state self.new
            ≡ after_change (Put table key row) (tables_of K.state self.old)) }
        ensures some { OnOk result (0 < count_of self.new) }
        ensures err { OnErr result (DraftReads K.state 0 self.old self.new) }
    {
        self.changes.insert(Place::new(table, key), Some(row))?;
        Ok(())
    }

    /// Removes the row of the key, if there is one.
    ///
    /// # Errors
    ///
    /// If out of memory. The draft is then as it was.
    pub fn remove(&mut self, _alloc: Global, table: u8, key: Bytes) -> Result<(), AllocError>
        ensures keeper { keeper_of self.new ≡ keeper_of self.old }
        ensures works { DraftWorks K.state 1 (data_rows table 1) 0 self.old self.new }
        ensures ok { OnOk result (tables_of K.state self.new
            ≡ after_change (Remove table key) (tables_of K.state self.old)) }
        ensures some { OnOk result (0 < count_of self.new) }
        ensures err { OnErr result (DraftReads K.state 0 self.old self.new) }
    {
        self.changes.insert(Place::new(table, key), None)?;
        Ok(())
    }

    /// Makes the changes, in one batch. If there are none the keeper isn't called.
    ///
    /// # Errors
    ///
    /// `Failed` if the keeper failed, `Memory` if out of memory. No change is then made; if the keeper isn't trusted
    /// after this call, a crash may still leave all of them made.
    pub fn commit(self, alloc: Global) -> Result<(), KeepFail>
        ensures applied { Tells (state_of K.state self.entry) (K.state self.exit.0.now)
            → OnOk result (Shows (K.state self.exit.0.now) (tables_of K.state self.entry)) }
        ensures refused { Tells (state_of K.state self.entry) (K.state self.exit.0.now)
            → OnErr result (Shows (K.state self.exit.0.now) (state_of K.state self.entry).tables) }
        ensures unasked { ChangesNothing self.entry → IsTrue (is_ok result) × (self.exit.0.now ≡ keeper_of self.entry) }

        // A crash may leave the changes made, or what it might have left before.
        ensures crash { (state_of K.state self.entry).tells → IsTrue (K.state self.exit.0.now).is_clean
            → (m : Tables) → (K.state self.exit.0.now).may_leave m
            → (state_of K.state self.entry).may_leave m ⊎ (m ≡ tables_of K.state self.entry) }

        ensures steps { Steps (state_of K.state self.entry) (K.state self.exit.0.now) }
        ensures shown { (K.state self.exit.0.now).shown ≡ (state_of K.state self.entry).shown }
        ensures written { (K.state self.exit.0.now).written
            ≡ (if is_ok result then more_written (count_of self.entry) (state_of K.state self.entry).written
            else (state_of K.state self.entry).written) }
        ensures stays { StaysAfter (is_ok result) (state_of K.state self.entry) (K.state self.exit.0.now) }
        ensures trusted { 0 < count_of self.entry → TrustedAfter (is_ok result) (K.state self.exit.0.now) }
        ensures settled { Tells (state_of K.state self.entry) (K.state self.exit.0.now)
            → IsSettled (K.state self.exit.0.now) }
        ensures cause { KeeperCause (state_of K.state self.entry) (K.state self.exit.0.now) (IsErrOf result Failed) }
        ensures quiet { Quiet (state_of K.state self.entry) (K.state self.exit.0.now) (IsErrOf result Failed) }
    {
        let Draft { keeper, changes } = self;
        if changes.is_empty() {
            return Ok(());
        }
        let batch = batch_of(alloc, changes)?;
        keeper.apply(alloc, &batch)
    }
}

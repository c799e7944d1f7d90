ghost use Rattle.std.specs.Prelude.{◌≡◌, ◌⊎◌, ◌≤◌, ◌+◌, ℕ, if◌then◌else◌, IfOk, OnOk, OnErr, IsTrue, IsErrOf, is_ok, length, take, slice_index, refl};
ghost use Rattle.base_value.specs.Causes.{up_to_last};
ghost use Rattle.store_kv.specs.declared.keeper.KeepFail.TheVariants.{Failed};
ghost use Rattle.store_kv.specs.Tables.{Tables, no_rows, row_at, rows_between, after};
ghost use Rattle.store_kv.specs.State.{Steps, LeavesNoMore, Tells, Shows, Reads, TrustedAfter, KeeperCause, Quiet, more_shown, shown_by_get, shown_by_scan};
ghost use Rattle.store_kv.specs.Memory.{memory_state, is_listed, FailsByNumber};

use crate::changes::change_all;
use crate::keeper::{Batch, KeepFail, Keeper, KeptRow};
use crate::merge::merge;
use crate::place::Place;
use crate::rows::{Rows, held_in, row_of};
use base_value::Bytes;
use std::alloc::{AllocError, Global};
use std::collections::{BTreeMap, VecDeque};
use std::marker::Model;

/// The tables in memory, with a list of the calls that fail.
///
/// It always tells its tables, and a crash leaves just these: over memory a crash is none of the process, whose end loses
/// all tables. `get` takes time by the logarithm of the number of rows, `scan` also by the rows that it returns.
#[derive(Debug, Drop)]
pub struct MemoryKeeper {
    rows: Rows,
    calls: u64,
    failing: Vec<u64>,
    faults: u64,
    shown: [u64; 256],
    written: u64,
}

impl Model for MemoryKeeper {
    ghost use Rattle.store_kv.specs.Memory.{InMemory, memory_code, tables_in};

    ghost Value = { InMemory };

    ghost coded = { memory_code };

    ghost view = { λ k. record {
      tables = tables_in k.rows.entries;
      calls = k.calls;
      failing = k.failing.items;
      faults = k.faults;
      shown = k.shown;
      written = k.written;
    } };
}

impl MemoryKeeper {
    /// Tables without a row. The calls whose numbers are in `failing` fail, counted from 1 over all methods.
    ///
    /// # Errors
    ///
    /// If out of memory.
    pub fn new(alloc: Global, failing: &[u64]) -> Result<MemoryKeeper, AllocError>
        ensures no_rows { IfOk result (λ k. k.tables ≡ no_rows) }
        ensures failing { IfOk result (λ k. k.failing ≡ failing.now) }
        ensures counts { IfOk result (λ k. (k.calls ≡ 0) × (k.faults ≡ 0) × (k.written ≡ 0)) }
        ensures none_shown { IfOk result (λ k. (table : ℕ) → slice_index k.shown table ≡ 0) }
    {
        Ok(MemoryKeeper {
            rows: BTreeMap::new(alloc),
            calls: 0,
            failing: Vec::from_slice(alloc, failing)?,
            faults: 0,
            shown: [0; 256],
            written: 0,
        })
    }

    /// How many rows of a table it showed. The count saturates.
    pub fn shown(&self, table: u8) -> u64
        ensures { result ≡ slice_index self.now.shown table }
    {
        self.shown[table as usize]
    }

    /// How many changes it made. The count saturates.
    pub fn written(&self) -> u64
        ensures { result ≡ self.now.written }
    {
        self.written
    }

    /// How many calls failed, as listed. The count saturates.
    pub fn faults(&self) -> u64
        ensures { result ≡ self.now.faults }
    {
        self.faults
    }

    // Counts the call, and returns whether it fails.
    fn fails(&mut self) -> bool
        ensures tables { self.new.tables ≡ self.old.tables }
        ensures failing { self.new.failing ≡ self.old.failing }
        ensures calls { self.new.calls ≡ up_to_last (self.old.calls + 1) }
        ensures faults { self.new.faults ≡ (if result then up_to_last (self.old.faults + 1) else self.old.faults) }
        ensures counted { self.old.faults ≤ self.new.faults }
        ensures shown { self.new.shown ≡ self.old.shown }
        ensures written { self.new.written ≡ self.old.written }
        ensures listed { result ≡ is_listed self.new.calls self.old.failing }
    {
        self.calls = self.calls.saturating_add(1);
        let listed = self.failing.contains(&self.calls);
        if listed {
            self.faults = self.faults.saturating_add(1);
        }
        listed
    }
}

impl Keeper for MemoryKeeper {
    ghost state = { memory_state };

    fn open(&mut self, _alloc: Global) -> Result<(), KeepFail>
        ensures same { Tells (memory_state self.old) (memory_state self.new)
            → Shows (memory_state self.new) self.old.tables }
        ensures crash { (memory_state self.old).tells
            → LeavesNoMore (memory_state self.old) (memory_state self.new) }
        ensures steps { Steps (memory_state self.old) (memory_state self.new) }
        ensures shown { (memory_state self.new).shown ≡ (memory_state self.old).shown }
        ensures written { (memory_state self.new).written ≡ (memory_state self.old).written }
        ensures trusted { TrustedAfter (is_ok result) (memory_state self.new) }
        ensures cause { KeeperCause (memory_state self.old) (memory_state self.new) (IsErrOf result Failed) }
        ensures quiet { Quiet (memory_state self.old) (memory_state self.new) (IsErrOf result Failed) }
        ensures numbered { FailsByNumber self.old self.new (IsErrOf result Failed) }
    {
        if self.fails() {
            return Err(KeepFail::Failed);
        }
        Ok(())
    }

    fn get(&mut self, alloc: Global, table: u8, key: &[u8]) -> Result<Option<Bytes>, KeepFail>
        ensures row { Tells (memory_state self.old) (memory_state self.new)
            → IfOk result (λ row. row ≡ row_at self.old.tables table key.now) }
        ensures reads { Reads (memory_state self.old) (memory_state self.new) }
        ensures shown { (memory_state self.new).shown
            ≡ more_shown table (shown_by_get result) (memory_state self.old).shown }
        ensures trusted { TrustedAfter (is_ok result) (memory_state self.new) }
        ensures cause { KeeperCause (memory_state self.old) (memory_state self.new) (IsErrOf result Failed) }
        ensures quiet { Quiet (memory_state self.old) (memory_state self.new) (IsErrOf result Failed) }
        ensures numbered { FailsByNumber self.old self.new (IsErrOf result Failed) }
    {
        if self.fails() {
            return Err(KeepFail::Failed);
        }
        let place = Place::copied(alloc, table, key)?;
        let Some(held) = row_of(&self.rows, &place) else {
            return Ok(None);
        };
        let row = Bytes::from_slice(alloc, held.as_slice())?;
        let at = table as usize;
        self.shown[at] = self.shown[at].saturating_add(1);
        Ok(Some(row))
    }

    fn scan(
        &mut self,
        alloc: Global,
        table: u8,
        from: &[u8],
        below: &[u8],
        limit: usize,
    ) -> Result<Vec<KeptRow>, KeepFail>
        ensures rows { Tells (memory_state self.old) (memory_state self.new)
            → IfOk result (λ rows. rows.items ≡ take limit (rows_between self.old.tables table from.now below.now)) }
        ensures short { IfOk result (λ rows. length rows.items ≤ limit) }
        ensures reads { Reads (memory_state self.old) (memory_state self.new) }
        ensures shown { (memory_state self.new).shown
            ≡ more_shown table (shown_by_scan result) (memory_state self.old).shown }
        ensures trusted { TrustedAfter (is_ok result) (memory_state self.new) }
        ensures cause { KeeperCause (memory_state self.old) (memory_state self.new) (IsErrOf result Failed) }
        ensures quiet { Quiet (memory_state self.old) (memory_state self.new) (IsErrOf result Failed) }
        ensures numbered { FailsByNumber self.old self.new (IsErrOf result Failed) }
    {
        if self.fails() {
            return Err(KeepFail::Failed);
        }
        let held = held_in(alloc, &self.rows, table, from, below, limit)?;
        let rows = merge(alloc, VecDeque::new(alloc), held.as_slice(), limit)?;
        let at = table as usize;
        self.shown[at] = self.shown[at].saturating_add(rows.len() as u64);
        Ok(rows)
    }

    fn apply(&mut self, alloc: Global, batch: &Batch) -> Result<(), KeepFail>
        ensures applied { Tells (memory_state self.old) (memory_state self.new)
            → OnOk result (Shows (memory_state self.new) (after batch.now.changes.items self.old.tables)) }
        ensures refused { Tells (memory_state self.old) (memory_state self.new)
            → OnErr result (Shows (memory_state self.new) self.old.tables) }
        ensures crash { (memory_state self.old).tells → IsTrue (memory_state self.new).is_clean
            → (m : Tables) → (memory_state self.new).may_leave m
            → (memory_state self.old).may_leave m ⊎ (m ≡ after batch.now.changes.items self.old.tables) }
        ensures steps { Steps (memory_state self.old) (memory_state self.new) }
        ensures shown { (memory_state self.new).shown ≡ (memory_state self.old).shown }
        ensures written { (memory_state self.new).written
            ≡ (if is_ok result then up_to_last ((memory_state self.old).written + length batch.now.changes.items)
            else (memory_state self.old).written) }
        ensures trusted { TrustedAfter (is_ok result) (memory_state self.new) }
        ensures cause { KeeperCause (memory_state self.old) (memory_state self.new) (IsErrOf result Failed) }
        ensures quiet { Quiet (memory_state self.old) (memory_state self.new) (IsErrOf result Failed) }
        ensures numbered { FailsByNumber self.old self.new (IsErrOf result Failed) }
    {
        if self.fails() {
            return Err(KeepFail::Failed);
        }
        change_all(alloc, &mut self.rows, batch.changes.as_slice())?;
        self.written = self.written.saturating_add(batch.changes.len() as u64);
        Ok(())
    }

    ghost settled = { λ k _ _. record { leaves = refl; only = λ m same. same } };
}

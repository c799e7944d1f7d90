ghost use Rattle.std.specs.Prelude.{◌≡◌, ◌⊎◌, ◌+◌, ◌≤◌, length, take, IfOk, OnOk, OnErr, IsTrue, IsErrOf, is_ok, if◌then◌else◌};
ghost use Rattle.store_kv.specs.declared.keeper.KeepFail.TheVariants.{Failed, Memory};
ghost use Rattle.base_value.specs.Causes.{up_to_last};
ghost use Rattle.store_kv.specs.Tables.{Tables, row_at, rows_between, after};
ghost use Rattle.store_kv.specs.State.{KeeperState, Steps, LeavesNoMore, Tells, Shows, Reads, TrustedAfter, IsSettled, KeeperCause, Quiet, more_shown, shown_by_get, shown_by_scan};

use base_value::Bytes;
use std::alloc::{AllocError, Global};
use std::error::Error;
use std::fmt;

/// Why a keeper refused a call.
#[derive(Clone, Copy, Debug, PartialEq, Eq)]
pub enum KeepFail {
    /// The keeper failed, and counted it.
    Failed,
    /// Out of memory.
    Memory,
}

impl fmt::Display for KeepFail {
    fn fmt<W: fmt::Write>(&self, f: &mut fmt::Formatter<W>) -> fmt::Result {
        match self {
            KeepFail::Failed => f.write_str("the keeper failed"),
            KeepFail::Memory => f.write_str("out of memory"),
        }
    }
}

impl Error for KeepFail {}

impl From<AllocError> for KeepFail {
    ghost from_gives = { λ _ e. e ≡ Memory };

    fn from(_: AllocError) -> Self {
        KeepFail::Memory
    }
}

/// A row of a table, with its key.
#[derive(Debug, Drop)]
pub struct KeptRow {
    /// The key, unique in its table.
    pub key: Bytes,
    /// The row.
    pub row: Bytes,
}

/// A change of one place, which is a table's number and a key.
#[derive(Debug, Drop)]
pub enum Change {
    /// Sets the row of the place, replacing one that is there.
    Put {
        /// The table's number.
        table: u8,
        /// The key.
        key: Bytes,
        /// The row.
        row: Bytes,
    },
    /// Removes the row of the place, if there is one.
    Remove {
        /// The table's number.
        table: u8,
        /// The key.
        key: Bytes,
    },
}

/// Changes that are made in their order, all or none.
#[derive(Debug, Drop)]
pub struct Batch {
    /// The first change first.
    pub changes: Vec<Change>,
}

/// What keeps the tables: a finite map from a table's number and a key to a row.
///
/// Keys are ordered as bytes. A keeper says whether it tells its tables; if it doesn't, what it returns promises nothing
/// of them. After an error the tables are what they were, so the call may be made again. The count of faults rises
/// exactly in the calls that return `Failed`. Each count is a `u64` and saturates.
///
/// `trusted` says that the keeper is still trusted. It only falls: once a keeper is trusted no more it tells nothing
/// more, and its calls return errors, as long as it is clean.
pub trait Keeper {
    ghost state: { Self → KeeperState };

    /// Makes the keeper ready for the other calls. A second call changes nothing.
    ///
    /// # Errors
    ///
    /// `Failed` if the keeper failed, `Memory` if out of memory.
    fn open(&mut self, alloc: Global) -> Result<(), KeepFail>
        ensures same { Tells (state self.old) (state self.new) → Shows (state self.new) (state self.old).tables }
        ensures crash { (state self.old).tells → LeavesNoMore (state self.old) (state self.new) }
        ensures steps { Steps (state self.old) (state self.new) }
        ensures shown { (state self.new).shown ≡ (state self.old).shown }
        ensures written { (state self.new).written ≡ (state self.old).written }
        ensures trusted { TrustedAfter (is_ok result) (state self.new) }
        ensures cause { KeeperCause (state self.old) (state self.new) (IsErrOf result Failed) }
        ensures quiet { Quiet (state self.old) (state self.new) (IsErrOf result Failed) };

    /// The row of a key, or `None` where there is none.
    ///
    /// # Errors
    ///
    /// `Failed` if the keeper failed, `Memory` if out of memory.
    fn get(&mut self, alloc: Global, table: u8, key: &[u8]) -> Result<Option<Bytes>, KeepFail>
        ensures row { Tells (state self.old) (state self.new)
            → IfOk result (λ row. row ≡ row_at (state self.old).tables table key.now) }
        ensures reads { Reads (state self.old) (state self.new) }
        ensures shown { (state self.new).shown ≡ more_shown table (shown_by_get result) (state self.old).shown }
        ensures trusted { TrustedAfter (is_ok result) (state self.new) }
        ensures cause { KeeperCause (state self.old) (state self.new) (IsErrOf result Failed) }
        ensures quiet { Quiet (state self.old) (state self.new) (IsErrOf result Failed) };

    /// The first `limit` rows with `from <= key < below`, in the order of their keys.
    ///
    /// # Errors
    ///
    /// `Failed` if the keeper failed, `Memory` if out of memory.
    fn scan(
        &mut self,
        alloc: Global,
        table: u8,
        from: &[u8],
        below: &[u8],
        limit: usize,
    ) -> Result<Vec<KeptRow>, KeepFail>
        ensures rows { Tells (state self.old) (state self.new)
            → IfOk result (λ rows.
            rows.items ≡ take limit (rows_between (state self.old).tables table from.now below.now)) }
        ensures short { IfOk result (λ rows. length rows.items ≤ limit) }
        ensures reads { Reads (state self.old) (state self.new) }
        ensures shown { (state self.new).shown ≡ more_shown table (shown_by_scan result) (state self.old).shown }
        ensures trusted { TrustedAfter (is_ok result) (state self.new) }
        ensures cause { KeeperCause (state self.old) (state self.new) (IsErrOf result Failed) }
        ensures quiet { Quiet (state self.old) (state self.new) (IsErrOf result Failed) };

    /// Makes all changes in their order, or none.
    ///
    /// # Errors
    ///
    /// `Failed` if the keeper failed, `Memory` if out of memory. If the keeper lost its trust in this call, a crash
    /// may still leave the tables as they would be after the whole batch.
    fn apply(&mut self, alloc: Global, batch: &Batch) -> Result<(), KeepFail>
        ensures applied { Tells (state self.old) (state self.new)
            → OnOk result (Shows (state self.new) (after batch.now.changes.items (state self.old).tables)) }
        ensures refused { Tells (state self.old) (state self.new)
            → OnErr result (Shows (state self.new) (state self.old).tables) }

        // A crash may leave the whole batch made, or what it might have left before.
        ensures crash { (state self.old).tells → IsTrue (state self.new).is_clean
            → (m : Tables) → (state self.new).may_leave m
            → (state self.old).may_leave m ⊎ (m ≡ after batch.now.changes.items (state self.old).tables) }

        ensures steps { Steps (state self.old) (state self.new) }
        ensures shown { (state self.new).shown ≡ (state self.old).shown }
        ensures written { (state self.new).written
            ≡ (if is_ok result then up_to_last ((state self.old).written + length batch.now.changes.items)
            else (state self.old).written) }
        ensures trusted { TrustedAfter (is_ok result) (state self.new) }
        ensures cause { KeeperCause (state self.old) (state self.new) (IsErrOf result Failed) }
        ensures quiet { Quiet (state self.old) (state self.new) (IsErrOf result Failed) };

    // While a keeper tells and is trusted, a crash leaves its tables and nothing else.
    ghost settled: { (k : Self) → (state k).tells → IsTrue (state k).trusted → IsSettled (state k) };
}

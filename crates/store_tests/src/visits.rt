use crate::batches::rows_of;
use std::alloc::{AllocError, Global};
use store_kv::{Batch, Keeper};
use store_sqlite::{DatabaseFault, Opener, SqlKeeper};

/// What a keeper found in a database.
#[derive(Drop)]
pub struct Visit {
    /// Its rows in table 7, or `failed`.
    pub rows: Vec<u8>,
    /// Why the keeper failed.
    pub fault: Option<DatabaseFault>,
    /// Why a second keeper of the same database wasn't opened meanwhile.
    pub second: Option<DatabaseFault>,
}

// Opens a keeper, and tells why that fails.
fn fault_of<O: Opener + Drop>(alloc: Global, opener: O) -> Option<DatabaseFault> {
    let mut keeper = SqlKeeper::new(opener);
    let _ = keeper.open(alloc);
    keeper.last_fault()
}

// Opens the keeper and makes the batch, if it can.
fn fill<K: Keeper>(alloc: Global, keeper: &mut K, batch: &Batch) {
    if keeper.open(alloc).is_ok() {
        let _ = keeper.apply(alloc, batch);
    }
}

/// Makes a batch in a database, reads its rows, and tries to open a second keeper meanwhile.
pub fn look_in<O: Opener + Drop>(
    alloc: Global,
    opener: O,
    second: O,
    batch: &Batch,
) -> Result<Visit, AllocError> {
    let mut keeper = SqlKeeper::new(opener);
    fill(alloc, &mut keeper, batch);
    let fault = keeper.last_fault();
    let second = fault_of(alloc, second);
    let rows = rows_of(alloc, &mut keeper, 7, (b"", b"z"), 9)?;
    Ok(Visit {
        rows,
        fault,
        second,
    })
}

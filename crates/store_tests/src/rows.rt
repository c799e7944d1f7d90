use crate::batches::{makes, put, rows_of, swap};
use std::alloc::{AllocError, Global};
use std::test::Fail;
use store_kv::{Batch, KeepFail, Keeper};
use store_sqlite::{DatabaseFault, InMemory, Opener, SqlKeeper};

// Rows 3, 1 and 2 at c, a and b of table 7, and a row at b of table 8; then the row at a is set again.
fn fill<K: Keeper>(alloc: Global, keeper: &mut K) -> Result<(), KeepFail> {
    keeper.open(alloc)?;
    for (table, key, row) in [
        (7, b'c', b"3".as_slice()),
        (7, b'a', b"1".as_slice()),
        (8, b'b', b"8".as_slice()),
        (7, b'b', b"2".as_slice()),
        (7, b'a', b"one".as_slice()),
    ] {
        keeper.apply(alloc, &put(alloc, table, key, row)?)?;
    }
    Ok(())
}

// The key to begin at, the key to end before, how many rows at most, and the rows of table 7 that are found.
const SCANS: [(&[u8], &[u8], usize, &[u8]); 7] = [
    (b"", b"z", 9, b"a=one b=2 c=3 "),
    (b"", b"z", usize::MAX, b"a=one b=2 c=3 "),
    (b"", b"z", 2, b"a=one b=2 "),
    (b"", b"z", 0, b""),
    (b"a", b"c", 9, b"a=one b=2 "),
    (b"aa", b"c\0", 9, b"b=2 c=3 "),
    (b"c", b"a", 9, b""),
];

// Whether the rows of table 7 between two keys are these.
fn scans_so<K: Keeper>(
    alloc: Global,
    keeper: &mut K,
    (from, below, limit, want): (&[u8], &[u8], usize, &[u8]),
) -> Result<bool, AllocError> {
    let rows = rows_of(alloc, keeper, 7, (from, below), limit)?;
    Ok(rows.as_slice() == want)
}

fn scans<K: Keeper>(alloc: Global, keeper: &mut K) -> Result<bool, AllocError> {
    let mut all = true;
    for scan in SCANS {
        all = scans_so(alloc, keeper, scan)? && all;
    }
    Ok(all)
}

// Whether the row of a key of one byte is this.
fn has<K: Keeper>(
    alloc: Global,
    keeper: &mut K,
    table: u8,
    key: &[u8],
    want: &[u8],
) -> Result<bool, KeepFail> {
    match keeper.get(alloc, table, key)? {
        Some(row) => Ok(row.as_slice() == want),
        None => Ok(false),
    }
}

// Whether rows are read and removed, and a second `open` and an empty batch change nothing.
fn changes<K: Keeper>(alloc: Global, keeper: &mut K) -> Result<bool, KeepFail> {
    let nothing = Batch {
        changes: Vec::new(alloc),
    };
    let swapped = swap(alloc, 7, b'b', b'd', b"4")?;
    let made = keeper.open(alloc).is_ok()
        && makes(alloc, keeper, &swapped)
        && makes(alloc, keeper, &nothing);
    let gone = keeper.get(alloc, 7, b"b")?.is_none();
    let kept = has(alloc, keeper, 8, b"b", b"8")?;
    let rows = scans_so(alloc, keeper, (b"b", b"z", 9, b"c=3 d=4 "))?;
    Ok(made && gone && kept && rows)
}

// Whether each call fails.
fn refuses<K: Keeper>(alloc: Global, keeper: &mut K) -> Result<bool, AllocError> {
    let batch = put(alloc, 7, b'a', b"1")?;
    let refused = keeper.get(alloc, 7, b"a").is_err() && !makes(alloc, keeper, &batch);
    Ok(scans_so(alloc, keeper, (b"", b"z", 9, b"failed"))? && refused)
}

// Whether it fails until it's opened, and then keeps rows.
fn keeps<K: Keeper>(alloc: Global, keeper: &mut K) -> Result<bool, KeepFail> {
    let refused = refuses(alloc, keeper)?;
    fill(alloc, keeper)?;
    let read = scans(alloc, keeper)?;
    Ok(changes(alloc, keeper)? && refused && read)
}

// What the keeper says of its faults at first and at the end, and whether it keeps rows meanwhile.
fn faults<O: Opener + Drop>(
    alloc: Global,
    opener: O,
) -> (
    Option<DatabaseFault>,
    Result<bool, KeepFail>,
    Option<DatabaseFault>,
) {
    let mut keeper = SqlKeeper::new(opener);
    let first = keeper.last_fault();
    let kept = keeps(alloc, &mut keeper);
    (first, kept, keeper.last_fault())
}

#[test]
fn rows_are_kept_in_memory(rt: HostRuntime) -> Result<(), Fail> {
    let (first, kept, last) = faults(rt.alloc(), InMemory {});
    assert!(rt; kept?);
    assert_eq!(rt; first, None);
    assert_eq!(rt; last, Some(DatabaseFault::NotOpened));
    Ok(())
}

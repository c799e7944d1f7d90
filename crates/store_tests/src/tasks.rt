//! What is done over a keeper, whatever its store.

use crate::batches::{makes, put, rows_of};
use crate::runs::{add_two, count_organisations, ends_so};
use std::alloc::{AllocError, Global};
use store_kv::Keeper;

/// What is done over a keeper.
#[derive(Clone, Copy, Debug)]
pub(crate) enum Task {
    /// The keeper is opened, and three batches of a row each are applied.
    Fill,
    /// The keeper is opened, and those rows are counted.
    CountRows,
    /// Two organisations are added.
    AddTwo,
    /// Organisations are counted, by what the next one gives.
    CountOrganisations,
    /// The command of this number is run.
    Command(usize),
}

/// What came of it.
#[derive(Clone, Copy, Debug)]
pub(crate) struct Outcome {
    /// So many changes were acknowledged.
    pub(crate) made: usize,
    /// So many were tried and not acknowledged.
    pub(crate) refused: usize,
    /// So many were found, or `None` if something else was.
    pub(crate) found: Option<usize>,
}

// Changes, of which so many were acknowledged, and so many not.
fn changed(made: usize, refused: usize) -> Outcome {
    Outcome {
        made,
        refused,
        found: None,
    }
}

// What was found.
fn seen(found: Option<usize>) -> Outcome {
    Outcome {
        made: 0,
        refused: 0,
        found,
    }
}

/// Of a store that isn't opened nothing is made or found.
pub(crate) fn unopened() -> Outcome {
    changed(0, 0)
}

// Opens the keeper and applies three batches of a row each: how many were made, and how many refused.
fn apply_each<K: Keeper>(alloc: Global, keeper: &mut K) -> Result<Outcome, AllocError> {
    let mut made = 0usize;
    let mut refused = 0usize;
    if keeper.open(alloc).is_ok() {
        for key in [b'a', b'b', b'c'] {
            let batch = put(alloc, 7, key, b"row")?;
            if makes(alloc, keeper, &batch) {
                made = made.saturating_add(1);
            } else {
                refused = refused.saturating_add(1);
            }
        }
    }
    Ok(changed(made, refused))
}

// How many of the rows a, b and c these are, from the first on. Each row takes six bytes.
fn counted(rows: &[u8]) -> Option<usize> {
    let are_first = b"a=row b=row c=row ".as_slice().starts_with(rows);
    if are_first && rows.len() % 6 == 0 {
        Some(rows.len() / 6)
    } else {
        None
    }
}

// How many of the rows a, b and c the keeper has, or `None` if it has others or isn't opened.
fn count_rows<K: Keeper>(alloc: Global, keeper: &mut K) -> Result<Outcome, AllocError> {
    if keeper.open(alloc).is_err() {
        return Ok(unopened());
    }
    let rows = rows_of(alloc, keeper, 7, (b"", b"z"), 9)?;
    Ok(seen(counted(rows.as_slice())))
}

/// Does it over a keeper.
pub(crate) fn done<K: Keeper>(
    alloc: Global,
    keeper: &mut K,
    task: Task,
) -> Result<Outcome, AllocError> {
    match task {
        Task::Fill => apply_each(alloc, keeper),
        Task::CountRows => count_rows(alloc, keeper),
        Task::AddTwo => {
            let made = add_two(alloc, keeper)?;
            Ok(changed(made, 2usize.saturating_sub(made)))
        }
        Task::CountOrganisations => Ok(seen(count_organisations(alloc, keeper)?)),
        Task::Command(number) => {
            let ends = ends_so(alloc, keeper, number)?;
            Ok(seen(ends.then_some(number)))
        }
    }
}

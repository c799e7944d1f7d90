ghost use Rattle.std.specs.Prelude.{◌≡◌, ◌-◌, ◌<◌, ◌++◌, IfOk, OnOk, IsErrOf, is_ok};
ghost use Rattle.store_kv.specs.declared.keeper.KeepFail.TheVariants.{Failed};
ghost use Rattle.store_kv.specs.Tables.{rows_between};
ghost use Rattle.store_kv.specs.State.{KeeperCause, Quiet, ShownMost, StaysAfter, data_rows};
ghost use Rattle.store_kv.specs.Walks.{next_above};
ghost use Rattle.store_kv.specs.Draft.{state_of, tables_of, DraftTells, DraftReads, rise};

use crate::draft::Draft;
use crate::keeper::{KeepFail, Keeper, KeptRow};
use base_value::Bytes;
use std::alloc::{AllocError, Global};

/// The least key above a key, from which a walk goes on.
///
/// # Errors
///
/// If out of memory.
pub fn next_key(alloc: Global, key: &[u8]) -> Result<Bytes, AllocError>
    ensures { IfOk result (λ next. next ≡ next_above key.now) }
{
    let mut next = Vec::from_slice(alloc, key)?;
    next.push(0)?;
    Ok(Bytes::from_vec(next))
}

fn add_all(all: &mut Vec<KeptRow>, rows: Vec<KeptRow>) -> Result<(), AllocError>
    ensures { OnOk result (all.new.items ≡ all.old.items ++ rows.items) }
{
    let mut rows = rows;
    all.append(&mut rows)
}

/// All rows with `from <= key < below` as they will be, in the order of their keys, read `page` rows at a time. No row of
/// another table is shown for it.
///
/// # Errors
///
/// `Failed` if the keeper failed, `Memory` if out of memory.
pub fn all_rows<K: Keeper>(
    alloc: Global,
    draft: &mut Draft<'_, K>,
    table: u8,
    from: &[u8],
    below: &[u8],
    page: usize,
) -> Result<Vec<KeptRow>, KeepFail>
    requires { 0 < page }
    ensures rows { DraftTells K.state draft.old draft.new
        → IfOk result (λ rows. rows.items ≡ rows_between (tables_of K.state draft.old) table from.now below.now) }
    ensures shown { ShownMost table
        ((state_of K.state draft.new).shown table - (state_of K.state draft.old).shown table)
        (state_of K.state draft.old) (state_of K.state draft.new) }
    ensures reads { DraftReads K.state (data_rows table (rise K.state draft.old draft.new)) draft.old draft.new }
    ensures stays { StaysAfter (is_ok result) (state_of K.state draft.old) (state_of K.state draft.new) }
    ensures cause { KeeperCause (state_of K.state draft.old) (state_of K.state draft.new) (IsErrOf result Failed) }
    ensures quiet { Quiet (state_of K.state draft.old) (state_of K.state draft.new) (IsErrOf result Failed) }
{
    let mut all = Vec::new(alloc);
    let mut next = Bytes::from_slice(alloc, from)?;
    'pages: for _ in 0..u64::MAX {
        let rows = draft.scan(alloc, table, next.as_slice(), below, page)?;
        let Some(last) = rows.last() else {
            return Ok(all);
        };
        next = next_key(alloc, last.key.as_slice())?;
        add_all(&mut all, rows)?;
    }
    // Not reached before memory is full, but a keeper that tells nothing may return rows for ever.
    Err(KeepFail::Memory)
}

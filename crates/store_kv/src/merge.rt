ghost use Rattle.std.specs.Prelude.{◌≡◌, ◌≤◌, ◌+◌, ◌++◌, List, take, length, IfOk, OnOk, Some, None, slice_get, option_copied, if◌then◌else◌};
ghost use Rattle.store_kv.specs.inner.Merging.{merged, gaps, shown_at};
ghost use Rattle.store_kv.specs.inner.Turns.{next_turn};
ghost use Rattle.store_kv.specs.declared.keeper.KeptRow.{KeptRow as Seen};

use crate::keeper::KeptRow;
use crate::rows::{Found, gap};
use base_value::Bytes;
use std::alloc::{AllocError, Global};
use std::cmp::Ordering;
use std::collections::VecDeque;

/// How many entries have no row.
pub(crate) fn count_gaps(held: &[Found<'_>]) -> usize
    ensures { result ≡ gaps held.now }
{
    let mut count = 0;
    for entry in held {
        count += gap(entry.row);
    }
    count
}

// Which of the two lists has the next key.
#[derive(Clone, Copy, Drop)]
enum Turn {
    Over,
    Row,
    Both,
    Entry,
}

fn next_turn(row: Option<&KeptRow>, entry: Option<&Found<'_>>) -> Turn
    ensures { result ≡ next_turn (option_copied row.entry) (option_copied entry.entry) }
{
    match (row, entry) {
        (None, None) => Turn::Over,
        (Some(_), None) => Turn::Row,
        (None, Some(_)) => Turn::Entry,
        (Some(row), Some(entry)) => match row.key.as_slice().cmp(entry.place.key()) {
            Ordering::Less => Turn::Row,
            Ordering::Equal => Turn::Both,
            Ordering::Greater => Turn::Entry,
        },
    }
}

// Adds the entry's row, if it has one.
fn show(alloc: Global, out: &mut Vec<KeptRow>, entry: &Found<'_>) -> Result<(), AllocError>
    ensures len { OnOk result (length out.new.items ≤ length out.old.items + 1) }
    ensures items { OnOk result ((rest : List Seen)
        → out.new.items ++ rest ≡ out.old.items ++ shown_at entry.now.0.1 entry.now.1 rest) }
{
    if let Some(row) = entry.row {
        let key = Bytes::from_slice(alloc, entry.place.key())?;
        let row = Bytes::from_slice(alloc, row.as_slice())?;
        out.push(KeptRow { key, row })?;
    }
    Ok(())
}

/// The first `limit` rows, once the entries are laid over them.
pub(crate) fn merge(
    alloc: Global,
    rows: VecDeque<KeptRow>,
    held: &[Found<'_>],
    limit: usize,
) -> Result<Vec<KeptRow>, AllocError>
    ensures { IfOk result (λ out. out.items ≡ take limit (merged rows.items held.now)) }
{
    let mut rows = rows;
    let mut out = Vec::new(alloc);
    let mut at = 0;
    'turns: while out.len() < limit {
        match next_turn(rows.front(), held.get(at)) {
            Turn::Over => return Ok(out),
            Turn::Row => {
                if let Some(row) = rows.pop_front() {
                    out.push(row)?;
                }
            }
            Turn::Both => {
                rows.pop_front();
                show(alloc, &mut out, &held[at])?;
                at += 1;
            }
            Turn::Entry => {
                show(alloc, &mut out, &held[at])?;
                at += 1;
            }
        }
    }
    Ok(out)
}

/// The same of rows in a vector, which without entries are moved as they are.
pub(crate) fn lay_over(
    alloc: Global,
    rows: Vec<KeptRow>,
    held: &[Found<'_>],
    limit: usize,
) -> Result<Vec<KeptRow>, AllocError>
    ensures { IfOk result (λ out. out.items ≡ take limit (merged rows.items held.now)) }
{
    if held.is_empty() {
        let mut rows = rows;
        rows.truncate(limit);
        return Ok(rows);
    }
    merge(alloc, VecDeque::from(rows), held, limit)
}

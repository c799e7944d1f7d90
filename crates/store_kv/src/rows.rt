ghost use Rattle.std.specs.Prelude.{◌≡◌, IfOk, option_copied};
ghost use Rattle.std.specs.Ordering.{is_lt};
ghost use Rattle.std.specs.BTreeMap.{IsOrdered};
ghost use Rattle.store_kv.specs.Tables.{place_cmp, bytes_cmp, row_at};
ghost use Rattle.store_kv.specs.inner.Merging.{front, within};
ghost use Rattle.store_kv.specs.Laid.{gap};
ghost use Rattle.store_kv.specs.Memory.{tables_in};

use crate::place::Place;
use base_value::Bytes;
use std::alloc::{AllocError, Global};
use std::collections::BTreeMap;
use std::marker::Model;

/// Places and their rows. A place without a row is a gap, which shows nothing.
pub type Rows = BTreeMap<Place, Option<Bytes>>;

/// A place and what a map holds there.
#[derive(Drop)]
pub(crate) struct Found<'m> {
    pub(crate) place: &'m Place,
    pub(crate) row: &'m Option<Bytes>,
}

impl<'m> Model for Found<'m> {
    ghost use Rattle.store_kv.specs.Laid.{Entry};

    ghost Value = { Entry };

    ghost view = { λ h. (h.place.now, h.row.now) };
}

/// The row of a place.
pub(crate) fn row_of<'m>(rows: &'m Rows, place: &Place) -> Option<&'m Bytes>
    ensures { option_copied result ≡ row_at (tables_in rows.now.entries) place.now.0 place.now.1 }
{
    match rows.get(place) {
        Some(held) => held.as_ref(),
        None => None,
    }
}

/// 1 where there is no row.
pub(crate) fn gap(row: &Option<Bytes>) -> usize
    ensures { result ≡ gap row.now }
{
    match row {
        Some(_) => 0,
        None => 1,
    }
}

fn rises(from: &[u8], below: &[u8]) -> bool
    ensures { result ≡ is_lt (bytes_cmp from.now below.now) }
{
    from.cmp(below).is_lt()
}

/// The entries of an interval, up to the `most`-th that has a row.
pub(crate) fn held_in<'m>(
    alloc: Global,
    rows: &'m Rows,
    table: u8,
    from: &[u8],
    below: &[u8],
    most: usize,
) -> Result<Vec<Found<'m>>, AllocError>
    ensures held { IfOk result (λ held. held.items ≡ front most (within table from.now below.now rows.now.entries)) }
    ensures ordered { IsOrdered place_cmp rows.now }
{
    let mut held = Vec::new(alloc);
    if rows.len() == 0 {
        return Ok(held);
    }
    if !rises(from, below) {
        return Ok(held);
    }
    let first = Place::copied(alloc, table, from)?;
    let end = Place::copied(alloc, table, below)?;
    let mut shown = 0;
    for (place, row) in rows.range(&first..&end) {
        if shown >= most {
            return Ok(held);
        }
        shown += 1 - gap(row);
        held.push(Found { place, row })?;
    }
    Ok(held)
}

//! What rows are ordered by.

ghost use Rattle.std.specs.Cmp.{eq_by_cmp_equiv, partial_equiv_from_equiv, partial_order_from_agreeing_total};
ghost use Rattle.std.specs.Ordering.{eq_by_cmp};
ghost use Rattle.std.specs.Prelude.{◌≡◌, Some, map, refl};
ghost use Rattle.query_plan.specs.Given.{GivesBy, GivesJust};
ghost use Rattle.model.specs.declared.record.Record.{Record};
ghost use Rattle.query_plan.specs.order.Ranks.{part_cmp, part_in, part_of, parts_total, rank_by, rank_cmp, rank_total, side_of};

use crate::plan::SortKey;
use crate::values::{HasValues, spot_value};
use base_value::{Items, Value, order};
use model::Record;
use std::alloc::Global;
use std::cmp::Ordering;
use store_codec::CodecFail;

/// What is compared of a row by one key: the nulls that come first, values that rise or fall, the nulls that come last.
#[derive(Drop)]
pub(crate) enum Part {
    First,
    Up(Value),
    Down(Value),
    Last,
}

/// What is compared of a row by all keys.
#[derive(Drop)]
pub struct Rank {
    parts: Items<Part>,
}

impl Part {
    fn side(&self) -> u8
        ensures { result ≡ side_of self.now }
    {
        match self {
            Part::First => 0,
            Part::Up(_) => 1,
            Part::Down(_) => 2,
            Part::Last => 3,
        }
    }
}

impl PartialEq for Part {
    ghost eq = { eq_by_cmp part_cmp };

    ghost laws = { partial_equiv_from_equiv (eq_by_cmp_equiv parts_total) };

    fn eq(&self, other: &Part) -> bool {
        self.cmp(other).is_eq()
    }
}

impl Eq for Part {
    ghost laws = { eq_by_cmp_equiv parts_total };
}

impl PartialOrd for Part {
    ghost partial_cmp = { λ x y. Some (part_cmp x y) };

    ghost laws = { partial_order_from_agreeing_total part_cmp parts_total (λ x y. refl) (λ x y. refl) };

    fn partial_cmp(&self, other: &Part) -> Option<Ordering> {
        Some(self.cmp(other))
    }
}

impl Ord for Part {
    ghost cmp = { part_cmp };

    ghost total = { parts_total };

    ghost matches_partial_cmp = { λ x y. refl };

    ghost matches_eq = { λ x y. refl };

    fn cmp(&self, other: &Part) -> Ordering {
        match (self, other) {
            (Part::Up(own), Part::Up(others)) => order(own, others),
            (Part::Down(own), Part::Down(others)) => order(others, own),
            _ => self.side().cmp(&other.side()),
        }
    }
}

impl PartialEq for Rank {
    ghost eq = { eq_by_cmp rank_cmp };

    ghost laws = { partial_equiv_from_equiv (eq_by_cmp_equiv rank_total) };

    fn eq(&self, other: &Rank) -> bool {
        self.cmp(other).is_eq()
    }
}

impl Eq for Rank {
    ghost laws = { eq_by_cmp_equiv rank_total };
}

impl PartialOrd for Rank {
    ghost partial_cmp = { λ x y. Some (rank_cmp x y) };

    ghost laws = { partial_order_from_agreeing_total rank_cmp rank_total (λ x y. refl) (λ x y. refl) };

    fn partial_cmp(&self, other: &Rank) -> Option<Ordering> {
        Some(self.cmp(other))
    }
}

impl Ord for Rank {
    ghost cmp = { rank_cmp };

    ghost total = { rank_total };

    ghost matches_partial_cmp = { λ x y. refl };

    ghost matches_eq = { λ x y. refl };

    fn cmp(&self, other: &Rank) -> Ordering {
        self.parts.as_slice().cmp(other.parts.as_slice())
    }
}

// What a key compares of a value.
fn part_of(key: &SortKey, value: Value) -> Part
    ensures { result ≡ part_of key.now value }
{
    match value {
        Value::Null => {
            if key.nulls_last {
                Part::Last
            } else {
                Part::First
            }
        }
        value => {
            if key.descending {
                Part::Down(value)
            } else {
                Part::Up(value)
            }
        }
    }
}

// What the keys compare of a row, one after the other.
fn parts_of<V: HasValues>(
    alloc: Global,
    keys: &[SortKey],
    item: &V,
    parents: &[Option<Record>],
) -> Result<Vec<Part>, CodecFail>
    ensures { (r : Record) → V.its_record item.now ≡ Some r → GivesBy (λ parts. parts.items) (map (part_in parents.now r) keys.now) result }
{
    let mut parts = Vec::new(alloc);
    for key in keys {
        let value = spot_value(alloc, item, parents, key.spot)?;
        parts.push(part_of(key, value))?;
    }
    Ok(parts)
}

/// What is compared of a row, by its record and those of the branches.
///
/// # Errors
///
/// `Memory` if out of memory, `Damaged` never if the row has a record.
pub fn rank_of<V: HasValues>(
    alloc: Global,
    keys: &[SortKey],
    item: &V,
    parents: &[Option<Record>],
) -> Result<Rank, CodecFail>
    ensures { (r : Record) → V.its_record item.now ≡ Some r → GivesJust (rank_by keys.now parents.now r) result }
{
    let parts = parts_of(alloc, keys, item, parents)?;
    Ok(Rank {
        parts: Items::from_vec(parts),
    })
}

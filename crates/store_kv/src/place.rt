ghost use Rattle.std.specs.Prelude.{◌≡◌, Some, IfOk, refl};
ghost use Rattle.std.specs.Cmp.{equiv, partial_equiv_from_equiv, eq_by_cmp_equiv, partial_order_from_agreeing_total};
ghost use Rattle.std.specs.Ordering.{eq_by_cmp};
ghost use Rattle.store_kv.specs.Order.{places_total};
ghost use Rattle.store_kv.specs.Tables.{place_cmp};
ghost use Rattle.store_kv.specs.inner.Changes.{change_at};

use crate::keeper::Change;
use crate::order::compare_keys;
use base_value::Bytes;
use std::alloc::{AllocError, Global};
use std::cmp::Ordering;
use std::marker::Model;

/// A table and a key in it.
#[derive(Debug, Drop)]
pub struct Place {
    table: u8,
    key: Bytes,
}

impl Model for Place {
    ghost use Rattle.store_kv.specs.Tables.{Place as Seen};

    ghost Value = { Seen };

    ghost view = { λ p. (p.table, p.key) };
}

impl PartialEq for Place {
    ghost eq = { eq_by_cmp place_cmp };

    ghost laws = { partial_equiv_from_equiv (eq_by_cmp_equiv places_total) };

    fn eq(&self, other: &Place) -> bool {
        self.cmp(other).is_eq()
    }
}

impl Eq for Place {
    ghost laws = { eq_by_cmp_equiv places_total };
}

impl PartialOrd for Place {
    ghost partial_cmp = { λ x y. Some (place_cmp x y) };

    ghost laws = { partial_order_from_agreeing_total place_cmp places_total (λ x y. refl) (λ x y. refl) };

    fn partial_cmp(&self, other: &Place) -> Option<Ordering> {
        Some(self.cmp(other))
    }
}

impl Ord for Place {
    ghost cmp = { place_cmp };

    ghost total = { places_total };

    ghost matches_partial_cmp = { λ x y. refl };

    ghost matches_eq = { λ x y. refl };

    fn cmp(&self, other: &Place) -> Ordering {
        if self.table != other.table {
            return self.table.cmp(&other.table);
        }
        compare_keys(self.key(), other.key())
    }
}

impl Place {
    pub(crate) fn new(table: u8, key: Bytes) -> Place
        ensures { result ≡ (table, key) }
    {
        Place { table, key }
    }

    pub(crate) fn change_to(self, row: Option<Bytes>) -> Change
        ensures { result ≡ change_at self row }
    {
        let Place { table, key } = self;
        match row {
            Some(row) => Change::Put { table, key, row },
            None => Change::Remove { table, key },
        }
    }

    pub(crate) fn key(&self) -> &[u8]
        ensures { result.now ≡ self.now.1 }
    {
        self.key.as_slice()
    }

    pub(crate) fn copied(alloc: Global, table: u8, key: &[u8]) -> Result<Place, AllocError>
        ensures { IfOk result (λ p. p ≡ (table, key.now)) }
    {
        Ok(Place {
            table,
            key: Bytes::from_slice(alloc, key)?,
        })
    }
}

ghost use Rattle.std.specs.Prelude.{refl};
ghost use Rattle.store_rows.specs.Rows.{index_form};

use crate::form::RowForm;
use base_value::{Bytes, Id};
use std::alloc::{AllocError, Global};
use store_codec::{CodecFail, Part, both_of};

/// A row of table 8: a record by the value in one of its slots.
#[derive(Debug, Drop)]
pub struct IndexRow {
    /// The organisation's number.
    pub org: u32,
    /// The object's number.
    pub object: u16,
    /// The slot's number.
    pub slot: u8,
    /// The value's order key.
    pub value: Bytes,
    /// The record's id.
    pub id: Id,
}

impl RowForm for IndexRow {
    type Key = (u32, (u16, (u8, (Bytes, Id))));

    ghost form = { index_form };

    ghost parts = { λ k. k };

    fn table() -> u8 {
        8
    }

    fn put_key(&self, out: &mut Vec<u8>) -> Result<(), AllocError> {
        self.org.put(out)?;
        self.object.put(out)?;
        self.slot.put(out)?;
        self.value.put(out)?;
        self.id.put(out)
    }

    fn put_rest(&self, _: &mut Vec<u8>) -> Result<(), AllocError> {
        Ok(())
    }

    fn of_parts(alloc: Global, key: &[u8], row: &[u8]) -> Result<IndexRow, CodecFail> {
        let (key, ()) = both_of::<Self::Key, ()>(alloc, key, row)?;
        let (org, (object, (slot, (value, id)))) = key;
        Ok(IndexRow {
            org,
            object,
            slot,
            value,
            id,
        })
    }

    ghost key_spelled = { λ k. refl };

    ghost key_fits = { λ k f. f };
}

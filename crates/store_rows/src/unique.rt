ghost use Rattle.std.specs.Prelude.{refl};
ghost use Rattle.store_rows.specs.Rows.{unique_form};

use crate::form::RowForm;
use base_value::{Bytes, Id};
use std::alloc::{AllocError, Global};
use store_codec::{CodecFail, Part, both_of};

/// A row of table 9: the record that has a value in a slot whose values are unique.
#[derive(Debug, Drop)]
pub struct UniqueRow {
    /// The organisation's number.
    pub org: u32,
    /// The object's number.
    pub object: u16,
    /// The slot's number.
    pub slot: u8,
    /// The value's order key.
    pub value: Bytes,
    /// The id of the one record that has it.
    pub id: Id,
}

impl RowForm for UniqueRow {
    type Key = (u32, (u16, (u8, Bytes)));

    ghost form = { unique_form };

    ghost parts = { λ k. k };

    fn table() -> u8 {
        9
    }

    fn put_key(&self, out: &mut Vec<u8>) -> Result<(), AllocError> {
        self.org.put(out)?;
        self.object.put(out)?;
        self.slot.put(out)?;
        self.value.put(out)
    }

    fn put_rest(&self, out: &mut Vec<u8>) -> Result<(), AllocError> {
        self.id.put(out)
    }

    fn of_parts(alloc: Global, key: &[u8], row: &[u8]) -> Result<UniqueRow, CodecFail> {
        let (key, id) = both_of::<Self::Key, Id>(alloc, key, row)?;
        let (org, (object, (slot, value))) = key;
        Ok(UniqueRow {
            org,
            object,
            slot,
            value,
            id,
        })
    }

    ghost key_spelled = { λ k. refl };

    ghost key_fits = { λ k f. f };
}

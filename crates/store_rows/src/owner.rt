ghost use Rattle.std.specs.Prelude.{refl};
ghost use Rattle.store_rows.specs.Rows.{owner_form};

use crate::form::RowForm;
use base_value::Id;
use std::alloc::{AllocError, Global};
use store_codec::{CodecFail, Part, both_of};

/// A row of table 11: a record by its owner.
#[derive(Clone, Copy, Debug, PartialEq, Eq)]
pub struct OwnerRow {
    /// The organisation's number.
    pub org: u32,
    /// The object's number.
    pub object: u16,
    /// The owner's id.
    pub owner: Id,
    /// The record's id.
    pub id: Id,
}

impl RowForm for OwnerRow {
    type Key = (u32, (u16, (Id, Id)));

    ghost form = { owner_form };

    ghost parts = { λ k. k };

    fn table() -> u8 {
        11
    }

    fn put_key(&self, out: &mut Vec<u8>) -> Result<(), AllocError> {
        self.org.put(out)?;
        self.object.put(out)?;
        self.owner.put(out)?;
        self.id.put(out)
    }

    fn put_rest(&self, _: &mut Vec<u8>) -> Result<(), AllocError> {
        Ok(())
    }

    fn of_parts(alloc: Global, key: &[u8], row: &[u8]) -> Result<OwnerRow, CodecFail> {
        let (key, ()) = both_of::<Self::Key, ()>(alloc, key, row)?;
        let (org, (object, (owner, id))) = key;
        Ok(OwnerRow {
            org,
            object,
            owner,
            id,
        })
    }

    ghost key_spelled = { λ k. refl };

    ghost key_fits = { λ k f. f };
}

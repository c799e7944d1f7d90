ghost use Rattle.std.specs.Prelude.{refl};
ghost use Rattle.store_rows.specs.Rows.{relation_form};

use crate::form::RowForm;
use base_value::Id;
use std::alloc::{AllocError, Global};
use store_codec::{CodecFail, Part, both_of};

/// A row of table 10: a record by the record that it refers to in one of its slots.
#[derive(Clone, Copy, Debug, PartialEq, Eq)]
pub struct RelationRow {
    /// The organisation's number.
    pub org: u32,
    /// The object's number.
    pub object: u16,
    /// The slot's number.
    pub slot: u8,
    /// The id of the record that is referred to.
    pub target: Id,
    /// The id of the record that refers to it.
    pub id: Id,
}

impl RowForm for RelationRow {
    type Key = (u32, (u16, (u8, (Id, Id))));

    ghost form = { relation_form };

    ghost parts = { λ k. k };

    fn table() -> u8 {
        10
    }

    fn put_key(&self, out: &mut Vec<u8>) -> Result<(), AllocError> {
        self.org.put(out)?;
        self.object.put(out)?;
        self.slot.put(out)?;
        self.target.put(out)?;
        self.id.put(out)
    }

    fn put_rest(&self, _: &mut Vec<u8>) -> Result<(), AllocError> {
        Ok(())
    }

    fn of_parts(alloc: Global, key: &[u8], row: &[u8]) -> Result<RelationRow, CodecFail> {
        let (key, ()) = both_of::<Self::Key, ()>(alloc, key, row)?;
        let (org, (object, (slot, (target, id)))) = key;
        Ok(RelationRow {
            org,
            object,
            slot,
            target,
            id,
        })
    }

    ghost key_spelled = { λ k. refl };

    ghost key_fits = { λ k f. f };
}

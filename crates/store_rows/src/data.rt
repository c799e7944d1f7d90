ghost use Rattle.std.specs.Prelude.{refl};
ghost use Rattle.store_rows.specs.Rows.{data_form};

use crate::form::RowForm;
use base_value::{Id, Text};
use std::alloc::{AllocError, Global};
use store_codec::{CodecFail, Part, Slots, both_of};

/// A row of table 7: a record of an object.
#[derive(Debug, Drop)]
pub struct DataRow {
    /// The organisation's number.
    pub org: u32,
    /// The object's number.
    pub object: u16,
    /// The record's id.
    pub id: Id,
    /// Its name.
    pub name: Option<Text>,
    /// Its owner. A detail has none.
    pub owner: Option<Id>,
    /// When it was created, in seconds from 1970-01-01T00:00:00Z.
    pub created: i64,
    /// When it was last changed, in seconds from 1970-01-01T00:00:00Z.
    pub modified: i64,
    /// The values of its fields as printed, each in its slot.
    pub slots: Slots,
}

impl RowForm for DataRow {
    type Key = (u32, (u16, Id));

    ghost form = { data_form };

    ghost parts = { λ k. k };

    fn table() -> u8 {
        7
    }

    fn put_key(&self, out: &mut Vec<u8>) -> Result<(), AllocError> {
        self.org.put(out)?;
        self.object.put(out)?;
        self.id.put(out)
    }

    fn put_rest(&self, out: &mut Vec<u8>) -> Result<(), AllocError> {
        self.name.put(out)?;
        self.owner.put(out)?;
        self.created.put(out)?;
        self.modified.put(out)?;
        self.slots.put(out)
    }

    fn of_parts(alloc: Global, key: &[u8], row: &[u8]) -> Result<DataRow, CodecFail> {
        let (key, rest) = both_of::<Self::Key, (Option<Text>, (Option<Id>, (i64, (i64, Slots))))>(
            alloc, key, row,
        )?;
        let (org, (object, id)) = key;
        let (name, (owner, (created, (modified, slots)))) = rest;
        Ok(DataRow {
            org,
            object,
            id,
            name,
            owner,
            created,
            modified,
            slots,
        })
    }

    ghost key_spelled = { λ k. refl };

    ghost key_fits = { λ k f. f };
}

ghost use Rattle.std.specs.Prelude.{refl};
ghost use Rattle.store_rows.specs.Rows.{grant_form};

use crate::form::RowForm;
use base_value::{Id, Level, Principal};
use std::alloc::{AllocError, Global};
use store_codec::{CodecFail, Mark, Part, both_of};

/// A row of table 12: what a principal is granted of a record.
#[derive(Clone, Copy, Debug, PartialEq, Eq)]
pub struct GrantRow {
    /// The organisation's number.
    pub org: u32,
    /// To whom it is granted.
    pub to: Principal,
    /// The object's number.
    pub object: u16,
    /// The record's id.
    pub id: Id,
    /// The number of the sharing rule, or 0 for a manual share.
    pub cause: u32,
    /// What they may do: read or edit.
    pub level: Level,
}

impl RowForm for GrantRow {
    type Key = (u32, (Mark<1>, (Principal, (u16, (Id, u32)))));

    ghost form = { grant_form };

    ghost parts = { λ k. k };

    fn table() -> u8 {
        12
    }

    fn put_key(&self, out: &mut Vec<u8>) -> Result<(), AllocError> {
        self.org.put(out)?;
        Mark::<1>.put(out)?;
        self.to.put(out)?;
        self.object.put(out)?;
        self.id.put(out)?;
        self.cause.put(out)
    }

    fn put_rest(&self, out: &mut Vec<u8>) -> Result<(), AllocError> {
        self.level.put(out)
    }

    fn of_parts(alloc: Global, key: &[u8], row: &[u8]) -> Result<GrantRow, CodecFail> {
        let (key, level) = both_of::<Self::Key, Level>(alloc, key, row)?;
        let (org, (_, (to, (object, (id, cause))))) = key;
        Ok(GrantRow {
            org,
            to,
            object,
            id,
            cause,
            level,
        })
    }

    ghost key_spelled = { λ k. refl };

    ghost key_fits = { λ k f. f };
}

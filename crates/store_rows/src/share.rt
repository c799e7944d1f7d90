ghost use Rattle.std.specs.Prelude.{refl};
ghost use Rattle.store_rows.specs.Rows.{share_form};

use crate::form::RowForm;
use base_value::{Id, Level, Principal};
use std::alloc::{AllocError, Global};
use store_codec::{CodecFail, Mark, Part, both_of};

/// A row of table 12: a manual share of a record.
#[derive(Clone, Copy, Debug, PartialEq, Eq)]
pub struct ShareRow {
    /// The organisation's number.
    pub org: u32,
    /// The record's id.
    pub id: Id,
    /// With whom it is shared.
    pub to: Principal,
    /// What they may do: read or edit.
    pub level: Level,
}

impl RowForm for ShareRow {
    type Key = (u32, (Mark<0>, (Id, Principal)));

    ghost form = { share_form };

    ghost parts = { λ k. k };

    fn table() -> u8 {
        12
    }

    fn put_key(&self, out: &mut Vec<u8>) -> Result<(), AllocError> {
        self.org.put(out)?;
        Mark::<0>.put(out)?;
        self.id.put(out)?;
        self.to.put(out)
    }

    fn put_rest(&self, out: &mut Vec<u8>) -> Result<(), AllocError> {
        self.level.put(out)
    }

    fn of_parts(alloc: Global, key: &[u8], row: &[u8]) -> Result<ShareRow, CodecFail> {
        let (key, level) = both_of::<Self::Key, Level>(alloc, key, row)?;
        let (org, (_, (id, to))) = key;
        Ok(ShareRow { org, id, to, level })
    }

    ghost key_spelled = { λ k. refl };

    ghost key_fits = { λ k f. f };
}

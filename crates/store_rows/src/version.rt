ghost use Rattle.std.specs.Prelude.{refl};
ghost use Rattle.store_rows.specs.Rows.{version_form};

use crate::form::RowForm;
use std::alloc::{AllocError, Global};
use store_codec::{CodecFail, Part, both_of};

/// The one row of table 0: the version of the tables, and how many organisations there are.
#[derive(Clone, Copy, Debug, PartialEq, Eq)]
pub struct VersionRow {
    /// The version of the tables' forms.
    pub version: u32,
    /// How many organisations there are.
    pub organisations: u32,
}

impl RowForm for VersionRow {
    type Key = ();

    ghost form = { version_form };

    ghost parts = { λ k. k };

    fn table() -> u8 {
        0
    }

    fn put_key(&self, _: &mut Vec<u8>) -> Result<(), AllocError> {
        Ok(())
    }

    fn put_rest(&self, out: &mut Vec<u8>) -> Result<(), AllocError> {
        self.version.put(out)?;
        self.organisations.put(out)
    }

    fn of_parts(alloc: Global, key: &[u8], row: &[u8]) -> Result<VersionRow, CodecFail> {
        let ((), rest) = both_of::<Self::Key, (u32, u32)>(alloc, key, row)?;
        let (version, organisations) = rest;
        Ok(VersionRow {
            version,
            organisations,
        })
    }

    ghost key_spelled = { λ k. refl };

    ghost key_fits = { λ k f. f };
}

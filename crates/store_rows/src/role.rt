ghost use Rattle.std.specs.Prelude.{refl};
ghost use Rattle.store_rows.specs.Rows.{role_form};

use crate::form::RowForm;
use base_value::{Id, Text};
use std::alloc::{AllocError, Global};
use store_codec::{CodecFail, Mark, Part, both_of};

/// A row of table 5: a role of an organisation.
#[derive(Debug, Drop)]
pub struct RoleRow {
    /// The organisation's number.
    pub org: u32,
    /// The role's id.
    pub id: Id,
    /// The role's name.
    pub name: Text,
    /// The role above it.
    pub parent: Option<Id>,
}

impl RowForm for RoleRow {
    type Key = (u32, (Mark<1>, Id));

    ghost form = { role_form };

    ghost parts = { λ k. k };

    fn table() -> u8 {
        5
    }

    fn put_key(&self, out: &mut Vec<u8>) -> Result<(), AllocError> {
        self.org.put(out)?;
        Mark::<1>.put(out)?;
        self.id.put(out)
    }

    fn put_rest(&self, out: &mut Vec<u8>) -> Result<(), AllocError> {
        self.name.put(out)?;
        self.parent.put(out)
    }

    fn of_parts(alloc: Global, key: &[u8], row: &[u8]) -> Result<RoleRow, CodecFail> {
        let (key, rest) = both_of::<Self::Key, (Text, Option<Id>)>(alloc, key, row)?;
        let (org, (_, id)) = key;
        let (name, parent) = rest;
        Ok(RoleRow {
            org,
            id,
            name,
            parent,
        })
    }

    ghost key_spelled = { λ k. refl };

    ghost key_fits = { λ k f. f };
}

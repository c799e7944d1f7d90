ghost use Rattle.std.specs.Prelude.{refl};
ghost use Rattle.store_rows.specs.Rows.{group_form};

use crate::form::RowForm;
use base_value::{Id, Items, Principal, Text};
use std::alloc::{AllocError, Global};
use store_codec::{CodecFail, Mark, Part, both_of};

/// A row of table 5: a group of an organisation.
#[derive(Debug, Drop)]
pub struct GroupRow {
    /// The organisation's number.
    pub org: u32,
    /// The group's id.
    pub id: Id,
    /// The group's name.
    pub name: Text,
    /// Its members.
    pub members: Items<Principal>,
}

impl RowForm for GroupRow {
    type Key = (u32, (Mark<2>, Id));

    ghost form = { group_form };

    ghost parts = { λ k. k };

    fn table() -> u8 {
        5
    }

    fn put_key(&self, out: &mut Vec<u8>) -> Result<(), AllocError> {
        self.org.put(out)?;
        Mark::<2>.put(out)?;
        self.id.put(out)
    }

    fn put_rest(&self, out: &mut Vec<u8>) -> Result<(), AllocError> {
        self.name.put(out)?;
        self.members.put(out)
    }

    fn of_parts(alloc: Global, key: &[u8], row: &[u8]) -> Result<GroupRow, CodecFail> {
        let (key, rest) = both_of::<Self::Key, (Text, Items<Principal>)>(alloc, key, row)?;
        let (org, (_, id)) = key;
        let (name, members) = rest;
        Ok(GroupRow {
            org,
            id,
            name,
            members,
        })
    }

    ghost key_spelled = { λ k. refl };

    ghost key_fits = { λ k f. f };
}

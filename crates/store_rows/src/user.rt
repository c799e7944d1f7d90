ghost use Rattle.std.specs.Prelude.{refl};
ghost use Rattle.store_rows.specs.Rows.{user_form};

use crate::form::RowForm;
use base_value::{Id, Text};
use std::alloc::{AllocError, Global};
use store_codec::{CodecFail, Mark, Part, UserStanding, both_of};

/// A row of table 5: a user of an organisation.
#[derive(Drop)]
pub struct UserRow {
    /// The organisation's number.
    pub org: u32,
    /// The user's id.
    pub id: Id,
    /// The user's name.
    pub name: Text,
    /// The digest of the user's secret.
    pub digest: [u8; 32],
    /// The user's role.
    pub role: Option<Id>,
    /// Whether the user administers the organisation.
    pub admin: bool,
    /// Whether the user is active.
    pub active: bool,
}

impl RowForm for UserRow {
    type Key = (u32, (Mark<0>, Id));

    ghost form = { user_form };

    ghost parts = { λ k. k };

    fn table() -> u8 {
        5
    }

    fn put_key(&self, out: &mut Vec<u8>) -> Result<(), AllocError> {
        self.org.put(out)?;
        Mark::<0>.put(out)?;
        self.id.put(out)
    }

    fn put_rest(&self, out: &mut Vec<u8>) -> Result<(), AllocError> {
        self.name.put(out)?;
        self.digest.put(out)?;
        self.role.put(out)?;
        let standing = UserStanding {
            admin: self.admin,
            active: self.active,
        };
        standing.put(out)
    }

    fn of_parts(alloc: Global, key: &[u8], row: &[u8]) -> Result<UserRow, CodecFail> {
        let (key, rest) = both_of::<Self::Key, (Text, ([u8; 32], (Option<Id>, UserStanding)))>(
            alloc, key, row,
        )?;
        let (org, (_, id)) = key;
        let (name, (digest, (role, standing))) = rest;
        Ok(UserRow {
            org,
            id,
            name,
            digest,
            role,
            admin: standing.admin,
            active: standing.active,
        })
    }

    ghost key_spelled = { λ k. refl };

    ghost key_fits = { λ k f. f };
}

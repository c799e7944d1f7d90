ghost use Rattle.std.specs.Prelude.{refl};
ghost use Rattle.store_rows.specs.Rows.{org_form};

use crate::form::RowForm;
use base_value::Text;
use std::alloc::{AllocError, Global};
use store_codec::{CodecFail, Part, both_of};

/// A row of table 1: an organisation, with its counts.
#[derive(Debug, Drop)]
pub struct OrgRow {
    /// The organisation's number.
    pub org: u32,
    /// Its name.
    pub name: Text,
    /// The number that its next user, role, group or record takes.
    pub counter: u64,
    /// How many objects it has.
    pub objects: u16,
    /// How many records.
    pub records: u32,
    /// How many users.
    pub users: u16,
    /// How many roles.
    pub roles: u16,
    /// How many groups.
    pub groups: u16,
    /// How many sharing rules.
    pub sharing_rules: u16,
    /// How many numbers of sharing rules were drawn.
    pub rule_numbers: u32,
}

impl RowForm for OrgRow {
    type Key = u32;

    ghost form = { org_form };

    ghost parts = { λ k. k };

    fn table() -> u8 {
        1
    }

    fn put_key(&self, out: &mut Vec<u8>) -> Result<(), AllocError> {
        self.org.put(out)
    }

    fn put_rest(&self, out: &mut Vec<u8>) -> Result<(), AllocError> {
        self.name.put(out)?;
        (self.counter, (self.objects, self.records)).put(out)?;
        (self.users, (self.roles, self.groups)).put(out)?;
        (self.sharing_rules, self.rule_numbers).put(out)
    }

    fn of_parts(alloc: Global, key: &[u8], row: &[u8]) -> Result<OrgRow, CodecFail> {
        let (org, rest) = both_of::<
            Self::Key,
            (Text, (u64, (u16, (u32, (u16, (u16, (u16, (u16, u32)))))))),
        >(alloc, key, row)?;
        let (
            name,
            (
                counter,
                (objects, (records, (users, (roles, (groups, (sharing_rules, rule_numbers)))))),
            ),
        ) = rest;
        Ok(OrgRow {
            org,
            name,
            counter,
            objects,
            records,
            users,
            roles,
            groups,
            sharing_rules,
            rule_numbers,
        })
    }

    ghost key_spelled = { λ k. refl };

    ghost key_fits = { λ k f. f };
}

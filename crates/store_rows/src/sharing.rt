ghost use Rattle.std.specs.Prelude.{refl};
ghost use Rattle.store_rows.specs.Rows.{sharing_form};

use crate::form::RowForm;
use base_value::{Bytes, Id, Level, Principal, RuleSource, RuleState, Text};
use std::alloc::{AllocError, Global};
use store_codec::{CodecFail, Mark, Part, both_of};

/// A row of table 6: a sharing rule of an organisation.
#[derive(Debug, Drop)]
pub struct SharingRow {
    /// The organisation's number.
    pub org: u32,
    /// The rule's name in lower case.
    pub lower_name: Bytes,
    /// The rule's name.
    pub name: Text,
    /// The number of the object whose records it shares.
    pub object: u16,
    /// The rule's number, from 1 on.
    pub number: u32,
    /// The records that it shares.
    pub source: RuleSource,
    /// With whom it shares them.
    pub to: Principal,
    /// What they may do: read or edit.
    pub level: Level,
    /// How far its grants are written.
    pub state: RuleState,
    /// The last record that their writing was at.
    pub cursor: Option<Id>,
}

impl RowForm for SharingRow {
    type Key = (u32, (Mark<1>, Bytes));

    ghost form = { sharing_form };

    ghost parts = { λ k. k };

    fn table() -> u8 {
        6
    }

    fn put_key(&self, out: &mut Vec<u8>) -> Result<(), AllocError> {
        self.org.put(out)?;
        Mark::<1>.put(out)?;
        self.lower_name.put(out)
    }

    fn put_rest(&self, out: &mut Vec<u8>) -> Result<(), AllocError> {
        self.name.put(out)?;
        (self.object, self.number).put(out)?;
        self.source.put(out)?;
        self.to.put(out)?;
        (self.level, (self.state, self.cursor)).put(out)
    }

    fn of_parts(alloc: Global, key: &[u8], row: &[u8]) -> Result<SharingRow, CodecFail> {
        let (key, rest) = both_of::<
            Self::Key,
            (
                Text,
                (
                    u16,
                    (
                        u32,
                        (RuleSource, (Principal, (Level, (RuleState, Option<Id>)))),
                    ),
                ),
            ),
        >(alloc, key, row)?;
        let (org, (_, lower_name)) = key;
        let (name, (object, (number, (source, (to, (level, (state, cursor))))))) = rest;
        Ok(SharingRow {
            org,
            lower_name,
            name,
            object,
            number,
            source,
            to,
            level,
            state,
            cursor,
        })
    }

    ghost key_spelled = { λ k. refl };

    ghost key_fits = { λ k f. f };
}

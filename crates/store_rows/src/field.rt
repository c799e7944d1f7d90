ghost use Rattle.std.specs.Prelude.{refl};
ghost use Rattle.store_rows.specs.Rows.{field_form};

use crate::form::RowForm;
use base_value::{FieldType, Text};
use std::alloc::{AllocError, Global};
use store_codec::{CodecFail, FieldFlags, Part, both_of};

/// A row of table 3: a field of an object.
#[derive(Debug, Drop)]
pub struct FieldRow {
    /// The organisation's number.
    pub org: u32,
    /// The object's number.
    pub object: u16,
    /// The field's number.
    pub field: u8,
    /// Its name.
    pub name: Text,
    /// Its type.
    pub kind: FieldType,
    /// What is asked of its values.
    pub flags: FieldFlags,
    /// The slot that holds its values.
    pub slot: u8,
    /// The name of the relationship from a lookup's target to its records.
    pub child: Option<Text>,
}

impl RowForm for FieldRow {
    type Key = (u32, (u16, u8));

    ghost form = { field_form };

    ghost parts = { λ k. k };

    fn table() -> u8 {
        3
    }

    fn put_key(&self, out: &mut Vec<u8>) -> Result<(), AllocError> {
        self.org.put(out)?;
        self.object.put(out)?;
        self.field.put(out)
    }

    fn put_rest(&self, out: &mut Vec<u8>) -> Result<(), AllocError> {
        self.name.put(out)?;
        self.kind.put(out)?;
        self.flags.put(out)?;
        self.slot.put(out)?;
        self.child.put(out)
    }

    fn of_parts(alloc: Global, key: &[u8], row: &[u8]) -> Result<FieldRow, CodecFail> {
        let (key, rest) = both_of::<
            Self::Key,
            (Text, (FieldType, (FieldFlags, (u8, Option<Text>)))),
        >(alloc, key, row)?;
        let (org, (object, field)) = key;
        let (name, (kind, (flags, (slot, child)))) = rest;
        Ok(FieldRow {
            org,
            object,
            field,
            name,
            kind,
            flags,
            slot,
            child,
        })
    }

    ghost key_spelled = { λ k. refl };

    ghost key_fits = { λ k f. f };
}

ghost use Rattle.std.specs.Prelude.{refl};
ghost use Rattle.store_rows.specs.Rows.{object_form};

use crate::form::RowForm;
use base_value::Text;
use std::alloc::{AllocError, Global};
use store_codec::{CodecFail, ObjectAccess, Part, both_of};

/// A row of table 2: an object of an organisation, with its counts.
#[derive(Debug, Drop)]
pub struct ObjectRow {
    /// The organisation's number.
    pub org: u32,
    /// The object's number.
    pub object: u16,
    /// Its name.
    pub name: Text,
    /// What every user may do with its records, and whether the hierarchy of roles counts.
    pub access: ObjectAccess,
    /// How many records it has.
    pub records: u32,
    /// How many fields.
    pub fields: u8,
    /// How many validation rules.
    pub validation_rules: u8,
}

impl RowForm for ObjectRow {
    type Key = (u32, u16);

    ghost form = { object_form };

    ghost parts = { λ k. k };

    fn table() -> u8 {
        2
    }

    fn put_key(&self, out: &mut Vec<u8>) -> Result<(), AllocError> {
        self.org.put(out)?;
        self.object.put(out)
    }

    fn put_rest(&self, out: &mut Vec<u8>) -> Result<(), AllocError> {
        self.name.put(out)?;
        self.access.put(out)?;
        self.records.put(out)?;
        self.fields.put(out)?;
        self.validation_rules.put(out)
    }

    fn of_parts(alloc: Global, key: &[u8], row: &[u8]) -> Result<ObjectRow, CodecFail> {
        let (key, rest) = both_of::<Self::Key, (Text, (ObjectAccess, (u32, (u8, u8))))>(
            alloc, key, row,
        )?;
        let (org, object) = key;
        let (name, (access, (records, (fields, validation_rules)))) = rest;
        Ok(ObjectRow {
            org,
            object,
            name,
            access,
            records,
            fields,
            validation_rules,
        })
    }

    ghost key_spelled = { λ k. refl };

    ghost key_fits = { λ k f. f };
}

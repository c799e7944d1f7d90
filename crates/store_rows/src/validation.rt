ghost use Rattle.std.specs.Prelude.{refl};
ghost use Rattle.store_rows.specs.Rows.{validation_form};

use crate::form::RowForm;
use base_value::{Bytes, Text};
use std::alloc::{AllocError, Global};
use store_codec::{CodecFail, Mark, Part, both_of};

/// A row of table 6: a validation rule of an object.
#[derive(Debug, Drop)]
pub struct ValidationRow {
    /// The organisation's number.
    pub org: u32,
    /// The object's number.
    pub object: u16,
    /// The rule's name in lower case.
    pub lower_name: Bytes,
    /// The rule's name.
    pub name: Text,
    /// What is true of a record that is refused.
    pub formula: Text,
    /// What the refusal says.
    pub message: Text,
}

impl RowForm for ValidationRow {
    type Key = (u32, (Mark<0>, (u16, Bytes)));

    ghost form = { validation_form };

    ghost parts = { λ k. k };

    fn table() -> u8 {
        6
    }

    fn put_key(&self, out: &mut Vec<u8>) -> Result<(), AllocError> {
        self.org.put(out)?;
        Mark::<0>.put(out)?;
        self.object.put(out)?;
        self.lower_name.put(out)
    }

    fn put_rest(&self, out: &mut Vec<u8>) -> Result<(), AllocError> {
        self.name.put(out)?;
        self.formula.put(out)?;
        self.message.put(out)
    }

    fn of_parts(alloc: Global, key: &[u8], row: &[u8]) -> Result<ValidationRow, CodecFail> {
        let (key, rest) = both_of::<Self::Key, (Text, (Text, Text))>(alloc, key, row)?;
        let (org, (_, (object, lower_name))) = key;
        let (name, (formula, message)) = rest;
        Ok(ValidationRow {
            org,
            object,
            lower_name,
            name,
            formula,
            message,
        })
    }

    ghost key_spelled = { λ k. refl };

    ghost key_fits = { λ k f. f };
}

//! Types of fields.

ghost use Rattle.store_codec.specs.Composed.{field_type, field_type_at, FitsType};

use crate::fail::CodecFail;
use crate::part::Part;
use base_value::{FieldType, Items, OnDelete, Text};
use std::alloc::{AllocError, Global};

impl Part for FieldType {
    ghost spell = { field_type };

    ghost Fits = { FitsType };

    ghost reads = { field_type_at };

    fn put(&self, out: &mut Vec<u8>) -> Result<(), AllocError> {
        match self {
            FieldType::Text(most) => out.extend_from_slice(&[0, *most])?,
            FieldType::Number { digits, decimals } => out.extend_from_slice(&[
                1, *digits, *decimals,
            ])?,
            FieldType::Checkbox => out.push(2)?,
            FieldType::Day => out.push(3)?,
            FieldType::Moment => out.push(4)?,
            FieldType::Picklist(values) => {
                out.push(5)?;
                values.put(out)?;
            }
            FieldType::Lookup { object, on_delete } => {
                out.push(6)?;
                object.put(out)?;
                on_delete.put(out)?;
            }
            FieldType::Master { object } => {
                out.push(7)?;
                object.put(out)?;
            }
        }
        Ok(())
    }

    #[tactic(auto, unfolding(crate::specs::Composed::field_type_at))]
    fn take(alloc: Global, bytes: &[u8]) -> Result<(FieldType, &[u8]), CodecFail> {
        match bytes {
            [0, rest @ ..] => {
                let (most, rest) = u8::take(alloc, rest)?;
                Ok((FieldType::Text(most), rest))
            }
            [1, rest @ ..] => {
                let ((digits, decimals), rest) = <(u8, u8)>::take(alloc, rest)?;
                Ok((FieldType::Number { digits, decimals }, rest))
            }
            [2, rest @ ..] => Ok((FieldType::Checkbox, rest)),
            [3, rest @ ..] => Ok((FieldType::Day, rest)),
            [4, rest @ ..] => Ok((FieldType::Moment, rest)),
            [5, rest @ ..] => match Items::<Text>::take(alloc, rest) {
                Ok((values, rest)) => Ok((FieldType::Picklist(values), rest)),
                Err(fail) => Err(fail),
            },
            [6, rest @ ..] => {
                let ((object, on_delete), rest) = <(u16, OnDelete)>::take(alloc, rest)?;
                Ok((FieldType::Lookup { object, on_delete }, rest))
            }
            [7, rest @ ..] => {
                let (object, rest) = u16::take(alloc, rest)?;
                Ok((FieldType::Master { object }, rest))
            }
            _ => Err(CodecFail::Damaged),
        }
    }
}

//! Records read from their rows.

ghost use Rattle.std.specs.Prelude.{◌≡◌, [], IfOk, IsTrue, unwrap_or};
ghost use Rattle.std.specs.List.{list_all};
ghost use Rattle.std.specs.Str.{chars};
ghost use Rattle.record_read.specs.Decoding.{all_from, has_types, kinds_in, read_slot, record_from, value_from};
ghost use Rattle.model.specs.SoundRecords.{all_valid};
ghost use Rattle.store_codec.specs.Gives.{Gives, GivesBy};
ghost use Rattle.base_value.specs.Types.{is_type};
ghost use Rattle.base_value.specs.Values.{valid};

use base_value::{FieldType, Items, Text, Value, ValueFail, is_type, read_value, value_laws};
use model::Record;
use std::alloc::Global;
use store_abstraction::{FieldPlace, Layout};
use store_codec::CodecFail;
use store_rows::DataRow;

/// Whether the types of all fields are within their bounds, as those of every organisation are.
pub fn has_types(layout: &Layout) -> bool
    ensures { result ≡ has_types layout.now }
{
    layout
        .fields
        .as_slice()
        .iter()
        .all(|field| is_type(&field.kind))
}

// The text in a slot: the empty one, if there is none.
fn text_of(slot: &Option<Text>) -> &str
    ensures { chars result.now ≡ unwrap_or slot.now [] }
{
    match slot {
        None => "",
        Some(text) => text.as_str(),
    }
}

fn read_slot(alloc: Global, kind: &FieldType, slot: &Option<Text>) -> Result<Value, CodecFail>
    requires { IsTrue (is_type kind.now) }
    ensures gives { Gives result (read_slot kind.now slot.now) }
    ensures valid { IfOk result (λ value. IsTrue (valid kind.now value)) }
{
    value_laws();
    match read_value(alloc, kind, text_of(slot)) {
        Ok(value) => Ok(value),
        Err(ValueFail::Memory) => Err(CodecFail::Memory),
        Err(_) => Err(CodecFail::Damaged),
    }
}

fn value_of(alloc: Global, slots: &[Option<Text>], field: &FieldPlace) -> Result<Value, CodecFail>
    requires { IsTrue (is_type field.now.kind) }
    ensures gives { Gives result (value_from slots.now field.now) }
    ensures valid { IfOk result (λ value. IsTrue (valid field.now.kind value)) }
{
    match slots.get(usize::from(field.slot)) {
        None => Err(CodecFail::Damaged),
        Some(slot) => read_slot(alloc, &field.kind, slot),
    }
}

// The name, and then the values of these fields.
fn values_of(alloc: Global, row: &DataRow, fields: &[FieldPlace]) -> Result<Vec<Value>, CodecFail>
    requires { IsTrue (list_all (λ f. is_type f.kind) fields.now) }
    ensures gives { GivesBy (λ vs. vs.items) result (all_from row.now fields.now) }
    ensures valid { IfOk result (λ vs. IsTrue (all_valid (kinds_in fields.now) vs.items)) }
{
    let name = match read_slot(alloc, &FieldType::Text(80), &row.name) {
        Ok(name) => name,
        Err(fail) => return Err(fail),
    };
    let mut values = Vec::new(alloc);
    values.push(name)?;
    for field in fields {
        let value = match value_of(alloc, row.slots.texts(), field) {
            Ok(value) => value,
            Err(fail) => return Err(fail),
        };
        values.push(value)?;
    }
    Ok(values)
}

/// The record that a row spells, by a layout whose types are within their bounds. Many rows of one layout are read so, once
/// its types were looked at.
///
/// # Errors
///
/// `Damaged` exactly if the row spells no record, `Memory` if out of memory.
pub fn record_within(alloc: Global, layout: &Layout, row: &DataRow) -> Result<Record, CodecFail>
    requires { IsTrue (has_types layout.now) }
    ensures gives { Gives result (record_from layout.now row.now) }
    ensures valid { IfOk result (λ r. IsTrue (all_valid (kinds_in layout.now.fields) r.values)) }
{
    let values = match values_of(alloc, row, layout.fields.as_slice()) {
        Ok(values) => values,
        Err(fail) => return Err(fail),
    };
    Ok(Record {
        id: row.id,
        owner: row.owner,
        created: row.created,
        modified: row.modified,
        values: Items::from_vec(values),
    })
}

/// The record that a row spells, by the layout of its object.
///
/// # Errors
///
/// `Damaged` exactly if it spells none: the layout's types aren't within their bounds, the name has more than 80 characters, or
/// a field's slot is missing or has a text that isn't a value of its type. `Memory` if out of memory.
pub fn record_of(alloc: Global, layout: &Layout, row: &DataRow) -> Result<Record, CodecFail>
    ensures gives { Gives result (record_from layout.now row.now) }
    ensures valid { IfOk result (λ r. IsTrue (all_valid (kinds_in layout.now.fields) r.values)) }
{
    if has_types(layout) {
        record_within(alloc, layout, row)
    } else {
        Err(CodecFail::Damaged)
    }
}

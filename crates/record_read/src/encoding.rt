//! Rows made of records.

ghost use Rattle.std.specs.Prelude.{◌≡◌, ◌<◌, FitsSigned, IfOk, IfSome, IsTrue, Some, None, if◌then◌else◌, length};
ghost use Rattle.std.specs.Option.{option_map};
ghost use Rattle.std.specs.Str.{IsAscii, IsUtf8, chars};
ghost use Rattle.std.specs.Int.{w64};
ghost use Rattle.record_read.specs.Decoding.{has_types, kinds_in};
ghost use Rattle.record_read.specs.Encoding.{field_of_slot, kept_text, row_from, text_of_slot, texts_of_slots, value_text};
ghost use Rattle.formula.specs.Meaning.{value_at};
ghost use Rattle.store_rows.specs.Forms.{FitsForm};
ghost use Rattle.store_rows.specs.Keys.{record_key};
ghost use Rattle.store_rows.specs.Rows.{data_form};
ghost use Rattle.model.specs.SoundRecords.{all_valid};
ghost use Rattle.store_codec.specs.Shapes.{FitsIn};
ghost use Rattle.store_abstraction.specs.Entries.{name_text};
ghost use Rattle.base_value.specs.Id.{is_id};
ghost use Rattle.base_value.specs.Printing.{is_printable, print_value};

use base_value::{FieldType, Id, Items, Text, Value, check_value, print_value, value_laws};
use model::Record;
use std::alloc::{AllocError, Global};
use std::str::from_utf8;
use store_abstraction::{FieldPlace, Layout};
use store_rows::{DataRow, Slots};

// How many slots a record has.
const SLOT_COUNT: u8 = 48;

fn is_printable(value: &Value) -> bool
    ensures { result ≡ is_printable value.now }
{
    match value {
        Value::Day(_) => check_value(&FieldType::Day, value).is_ok(),
        Value::Moment(_) => check_value(&FieldType::Moment, value).is_ok(),
        _ => true,
    }
}

fn printed_text(alloc: Global, value: &Value) -> Result<Option<Text>, AllocError>
    ensures { IfOk result (λ text. text ≡ (if is_printable value.now then Some (print_value value.now) else None)) }
{
    if is_printable(value) {
        Ok(Some(print_value(alloc, value)?))
    } else {
        Ok(None)
    }
}

fn utf8_text(alloc: Global, bytes: &[u8]) -> Result<Text, AllocError>
    requires { IsUtf8 bytes.now }
    ensures { IfOk result (λ text. text ≡ chars bytes.now) }
{
    Text::from_str(alloc, from_utf8(bytes).unwrap())
}

fn ascii_text(alloc: Global, bytes: &[u8]) -> Result<Text, AllocError>
    requires { IsAscii bytes.now }
    ensures { IfOk result (λ text. text ≡ bytes.now) }
{
    utf8_text(alloc, bytes)
}

// The fifteen characters of an id.
fn id_text(alloc: Global, id: &Id) -> Result<Text, AllocError>
    ensures { IfOk result (λ text. text ≡ id.now) }
{
    ascii_text(alloc, id.as_bytes())
}

fn value_text(alloc: Global, value: &Value) -> Result<Option<Text>, AllocError>
    ensures { IfOk result (λ text. text ≡ value_text value.now) }
{
    match value {
        Value::Null | Value::Bool(false) => Ok(None),
        Value::Bool(true) => Ok(Some(ascii_text(alloc, b"1")?)),
        Value::Ref(id) => Ok(Some(id_text(alloc, id)?)),
        _ => printed_text(alloc, value),
    }
}

fn text_copy(alloc: Global, text: &Option<Text>) -> Result<Option<Text>, AllocError>
    ensures { IfOk result (λ copy. copy ≡ text.now) }
{
    match text {
        None => Ok(None),
        Some(text) => Ok(Some(text.copy(alloc)?)),
    }
}

// What a row has in a slot.
fn kept_text(alloc: Global, kept: Option<&DataRow>, slot: u8) -> Result<Option<Text>, AllocError>
    ensures { IfOk result (λ text. text ≡ kept_text (option_map (λ row. row.now) kept.entry) slot) }
{
    match kept {
        None => Ok(None),
        Some(row) => match row.slots.texts().get(usize::from(slot)) {
            None => Ok(None),
            Some(text) => text_copy(alloc, text),
        },
    }
}

// The text of the value at a position.
fn text_at(alloc: Global, values: &[Value], position: usize) -> Result<Option<Text>, AllocError>
    ensures { IfOk result (λ text. text ≡ value_text (value_at values.now position)) }
{
    match values.get(position) {
        None => Ok(None),
        Some(value) => value_text(alloc, value),
    }
}

// The number of the field with this slot.
fn field_of_slot(fields: &[FieldPlace], slot: u8) -> Option<usize>
    ensures place { result ≡ field_of_slot fields.now slot }
    ensures below { IfSome result (λ number. number < length fields.now) }
{
    for (number, field) in fields.iter().enumerate() {
        if field.slot == slot {
            return Some(number);
        }
    }
    None
}

fn text_of_slot(
    alloc: Global,
    layout: &Layout,
    item: &Record,
    kept: Option<&DataRow>,
    slot: u8,
) -> Result<Option<Text>, AllocError>
    ensures { IfOk result (λ text. text ≡ text_of_slot layout.now item.now (option_map (λ row. row.now) kept.entry) slot) }
{
    match field_of_slot(layout.fields.as_slice(), slot) {
        None => kept_text(alloc, kept, slot),
        Some(number) => text_at(alloc, item.values.as_slice(), number + 1),
    }
}

fn name_text(alloc: Global, values: &[Value]) -> Result<Option<Text>, AllocError>
    ensures { IfOk result (λ text. text ≡ name_text (value_at values.now 0)) }
{
    match values.first() {
        Some(Value::Text(text)) => Ok(Some(text.copy(alloc)?)),
        _ => Ok(None),
    }
}

// What is in each slot.
fn texts_of(
    alloc: Global,
    layout: &Layout,
    item: &Record,
    kept: Option<&DataRow>,
) -> Result<Vec<Option<Text>>, AllocError>
    ensures { IfOk result (λ texts. texts.items ≡ texts_of_slots layout.now item.now (option_map (λ row. row.now) kept.entry)) }
{
    let mut texts = Vec::new(alloc);
    for slot in 0..SLOT_COUNT {
        texts.push(text_of_slot(alloc, layout, item, kept, slot)?)?;
    }
    Ok(texts)
}

// The row of a record, whatever its values.
fn made_row(
    alloc: Global,
    layout: &Layout,
    item: &Record,
    kept: Option<&DataRow>,
) -> Result<DataRow, AllocError>
    ensures { IfOk result (λ row. row ≡ row_from layout.now item.now (option_map (λ row. row.now) kept.entry)) }
{
    let name = name_text(alloc, item.values.as_slice())?;
    let texts = texts_of(alloc, layout, item, kept)?;
    Ok(DataRow {
        org: layout.org,
        object: layout.object,
        id: item.id,
        name,
        owner: item.owner,
        created: item.created,
        modified: item.modified,
        slots: Slots::new(Items::from_vec(texts)),
    })
}

// That a record's id and moments, its owner and the numbers of its object have spellings, as their types say.
fn parts_fit(org: u32, object: u16, id: Id, owner: Option<Id>, created: i64, modified: i64)
    ensures key { FitsIn record_key (org, (object, id)) }
    ensures owner { IfSome owner (λ i. IsTrue (is_id i)) }
    ensures created { FitsSigned w64 created }
    ensures modified { FitsSigned w64 modified }
{
    let _ = id.as_bytes();
    if let Some(owner) = &owner {
        let _ = owner.as_bytes();
    }
}

/// The row of a record: the texts of its fields in their slots. The other slots hold what `kept`, another row of the record,
/// has there, or nothing.
///
/// # Errors
///
/// When out of memory.
pub fn row_of(
    alloc: Global,
    layout: &Layout,
    item: &Record,
    kept: Option<&DataRow>,
) -> Result<DataRow, AllocError>
    ensures row { IfOk result (λ row. row ≡ row_from layout.now item.now (option_map (λ row. row.now) kept.entry)) }
    // It has a spelling, if the values are valid and the other row has one.
    ensures fits { IsTrue (has_types layout.now) → IsTrue (all_valid (kinds_in layout.now.fields) item.now.values)
        → IfSome (option_map (λ row. row.now) kept.entry) (FitsForm data_form) → IfOk result (FitsForm data_form) }
{
    value_laws();
    parts_fit(
        layout.org,
        layout.object,
        item.id,
        item.owner,
        item.created,
        item.modified,
    );
    made_row(alloc, layout, item, kept)
}

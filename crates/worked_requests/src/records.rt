//! Records of the object 0 of organisation 1.

ghost use Rattle.std.specs.Prelude.{IfOk, IfSome, IsTrue};
ghost use Rattle.std.specs.Option.{option_map};
ghost use Rattle.record_read.specs.Decoding.{has_types, kinds_in};
ghost use Rattle.store_rows.specs.Forms.{FitsForm};
ghost use Rattle.store_rows.specs.Rows.{data_form};
ghost use Rattle.model.specs.SoundRecords.{all_valid};

use crate::line::{bytes, first_of};
use base_value::{Id, Value};
use model::Record;
use record_read::{has_record, has_types, load_record, record_within, row_of, walk};
use std::alloc::{AllocError, Global};
use store_abstraction::{Layout, layout_at};
use store_codec::CodecFail;
use store_kv::{Draft, MemoryKeeper};
use store_rows::{DataRow, RowForm, StoreFail};

// The row at a key.
fn row_in(alloc: Global, key: &str, row: &str) -> Result<DataRow, CodecFail>
    ensures { IfOk result (FitsForm data_form) }
{
    let key = bytes(alloc, key)?;
    let row = bytes(alloc, row)?;
    DataRow::read(alloc, key.as_slice(), row.as_slice())
}

// The row at a key, if one is given.
fn kept_in(alloc: Global, key: &str, row: &str) -> Result<Option<DataRow>, CodecFail>
    ensures { IfOk result (λ row. IfSome row (FitsForm data_form)) }
{
    if row.is_empty() {
        Ok(None)
    } else {
        Ok(Some(row_in(alloc, key, row)?))
    }
}

// The row that is made of a record, over another row of it.
fn shown_row(
    alloc: Global,
    layout: &Layout,
    item: &Record,
    kept: Option<&DataRow>,
) -> Result<String, AllocError>
    requires types { IsTrue (has_types layout.now) }
    requires values { IsTrue (all_valid (kinds_in layout.now.fields) item.now.values) }
    requires kept { IfSome (option_map (λ row. row.now) kept) (FitsForm data_form) }
{
    let row = row_of(alloc, layout, item, kept)?;
    let row = row.write(alloc)?;
    hex::encode(alloc, row.as_slice())
}

// The row of the record that a row spells, over another row of it.
fn row_again(
    alloc: Global,
    layout: &Layout,
    row: &DataRow,
    kept: Option<&DataRow>,
) -> Result<String, CodecFail>
    requires row { FitsForm data_form row.now }
    requires kept { IfSome (option_map (λ row. row.now) kept) (FitsForm data_form) }
{
    if !has_types(layout) {
        return Err(CodecFail::Damaged);
    }
    let item = record_within(alloc, layout, row)?;
    Ok(shown_row(alloc, layout, &item, kept)?)
}

fn row_by(alloc: Global, layout: &Layout, arguments: &str) -> Result<String, CodecFail> {
    let (key, rest) = first_of(arguments);
    let (row, kept) = first_of(rest);
    let row = row_in(alloc, key, row)?;
    let kept = kept_in(alloc, key, kept)?;
    row_again(alloc, layout, &row, kept.as_ref())
}

/// The row of the record that a row spells: the key, the row, and another row that is kept there, or none.
pub(crate) fn row(
    alloc: Global,
    keeper: &mut MemoryKeeper,
    arguments: &str,
) -> Result<String, StoreFail> {
    let mut draft = Draft::new(alloc, keeper);
    match layout_at(alloc, &mut draft, 1, 0)? {
        Some(layout) => Ok(row_by(alloc, &layout, arguments)?),
        None => Ok(String::from_str(alloc, "no object")?),
    }
}

fn id_text(id: &Id) -> &str {
    str::from_utf8(id.as_bytes()).unwrap_or("?")
}

// A blank, and the value.
fn shown_value(alloc: Global, value: &Value) -> Result<String, AllocError> {
    match value {
        Value::Null => String::from_str(alloc, " null"),
        Value::Num(number) => format!(in alloc; " {number}"),
        Value::Text(text) => {
            let text = text.as_str();
            format!(in alloc; " {text}")
        }
        Value::Ref(id) => {
            let id = id_text(id);
            format!(in alloc; " {id}")
        }
        _ => String::from_str(alloc, " another"),
    }
}

// When it was changed, its name and its values.
fn shown(alloc: Global, record: &Record) -> Result<String, AllocError> {
    let modified = record.modified;
    let mut all = format!(in alloc; "{modified}")?;
    for value in record.values.as_slice() {
        all.push_str(shown_value(alloc, value)?.as_str())?;
    }
    Ok(all)
}

fn shown_or_none(alloc: Global, found: Option<Record>) -> Result<String, AllocError> {
    match found {
        Some(record) => shown(alloc, &record),
        None => String::from_str(alloc, "none"),
    }
}

fn load_by(
    alloc: Global,
    draft: &mut Draft<'_, MemoryKeeper>,
    layout: &Layout,
    id: &Id,
) -> Result<String, StoreFail> {
    let found = load_record(alloc, draft, layout, id)?;
    Ok(shown_or_none(alloc, found)?)
}

/// The record with an id.
pub(crate) fn load(
    alloc: Global,
    keeper: &mut MemoryKeeper,
    id: &str,
) -> Result<String, StoreFail> {
    let Some(id) = Id::from_bytes(id.as_bytes()) else {
        return Ok(String::from_str(alloc, "no id")?);
    };
    let mut draft = Draft::new(alloc, keeper);
    match layout_at(alloc, &mut draft, 1, 0)? {
        Some(layout) => load_by(alloc, &mut draft, &layout, &id),
        None => Ok(String::from_str(alloc, "no object")?),
    }
}

/// Whether there is a record with an id.
pub(crate) fn has(alloc: Global, keeper: &mut MemoryKeeper, id: &str) -> Result<String, StoreFail> {
    let Some(id) = Id::from_bytes(id.as_bytes()) else {
        return Ok(String::from_str(alloc, "no id")?);
    };
    let mut draft = Draft::new(alloc, keeper);
    let there = has_record(alloc, &mut draft, 1, 0, &id)?;
    Ok(String::from_str(alloc, if there { "yes" } else { "no" })?)
}

// Each record with its id before it.
fn joined(alloc: Global, records: &[Record]) -> Result<String, AllocError> {
    let mut all = String::new(alloc);
    for record in records {
        if !all.is_empty() {
            all.push_str("; ")?;
        }
        all.push_str(id_text(&record.id))?;
        all.push_str(" ")?;
        all.push_str(shown(alloc, record)?.as_str())?;
    }
    Ok(all)
}

fn walk_by(
    alloc: Global,
    draft: &mut Draft<'_, MemoryKeeper>,
    layout: &Layout,
    after: Option<&Id>,
    limit: usize,
) -> Result<String, StoreFail> {
    let found = walk(alloc, draft, layout, after, limit)?;
    Ok(joined(alloc, found.as_slice())?)
}

/// The records after an id, or the first of all: the id, and how many at most.
pub(crate) fn after(
    alloc: Global,
    keeper: &mut MemoryKeeper,
    arguments: &str,
) -> Result<String, StoreFail> {
    let (id, limit) = first_of(arguments);
    let limit = limit.parse::<usize>().unwrap_or(0);
    let id = Id::from_bytes(id.as_bytes());
    let mut draft = Draft::new(alloc, keeper);
    match layout_at(alloc, &mut draft, 1, 0)? {
        Some(layout) => walk_by(alloc, &mut draft, &layout, id.as_ref(), limit),
        None => Ok(String::from_str(alloc, "no object")?),
    }
}

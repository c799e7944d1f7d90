//! Which rows a step writes, by what was read for it.

ghost use Rattle.std.specs.Prelude.{◌≡◌, ◌++◌, ◌≤◌, IfErr, IfOk, IfSome, IsTrue, OnOk, Some, is_none, length, map, slice_get, suc};
ghost use Rattle.std.specs.List.{AllByRecursion, find, list_all};
ghost use Rattle.std.specs.Option.{option_map};
ghost use Rattle.retype_step.specs.inner.Deciding.{DecidesBy, IsWhole, clear_decided, copied, copy_decided, decided, is_bad_by, is_ready, page_decided};
ghost use Rattle.retype_step.specs.inner.Rows.{is_plain};
ghost use Rattle.record_read.specs.Decoding.{each_from, has_types, kinds_in, record_from};
ghost use Rattle.store_edit.specs.Rows.{spelled};
ghost use Rattle.formula.specs.Meaning.{value_at};
ghost use Rattle.store_rows.specs.Keys.{FitsKey};
ghost use Rattle.model.specs.Jobs.{last_id};
ghost use Rattle.model.specs.RuleFormulas.{is_copy};
ghost use Rattle.model.specs.SoundRecords.{all_valid};
ghost use Rattle.store_codec.specs.Gives.{Gives, GivesBy};
ghost use Rattle.store_codec.specs.Plain.{FitsText};
ghost use Rattle.store_codec.specs.declared.fail.CodecFail.TheVariants.{Memory};
ghost use Rattle.record_index.specs.Turned.{converts};
ghost use Rattle.base_value.specs.Conversion.{convert, convertible};
ghost use Rattle.base_value.specs.Types.{is_type};
ghost use Rattle.base_value.specs.Values.{valid};

use crate::backfill::page_changes;
use crate::reading::Page;
use crate::rows::{alone, done_row, failed_row, moved_row, put_change, switch};
use base_value::{
    ConvertFail, FieldType, Id, Phase, Value, convert, convertible, is_reference, is_type,
};
use model::Record;
use record_index::converts;
use record_read::{has_types, record_within};
use std::alloc::{AllocError, Global};
use store_abstraction::{FieldPlace, Layout};
use store_codec::CodecFail;
use store_kv::Change;
use store_rows::{DataRow, JobRow};

// The most rows that a step writes.
const MOST: usize = 201;

// ---- what was read

// Whether it is a type within its bounds that is no reference.
fn is_plain(kind: &FieldType) -> bool
    ensures { result ≡ is_plain kind.now }
{
    is_type(kind) && !is_reference(kind)
}

// Whether values are copied.
fn is_copy(phase: Phase) -> bool
    ensures { result ≡ is_copy phase }
{
    matches!(phase, Phase::Copy)
}

// Whether nothing keeps a step from being made, as nothing does where rows stand for a tenant.
fn is_ready(row: &JobRow, layout: &Layout, field: &FieldPlace) -> bool
    ensures { result ≡ is_ready row.now layout.now field.now }
{
    (is_plain(&row.kind) && is_plain(&field.kind))
        && ((has_types(layout) && converts(layout))
            && (!is_copy(row.phase) || convertible(&field.kind, &row.kind)))
}

// The records of rows.
fn records_of(alloc: Global, layout: &Layout, rows: &[DataRow]) -> Result<Vec<Record>, CodecFail>
    requires { IsTrue (has_types layout.now) }
    ensures gives { GivesBy (λ rs. rs.items) result (each_from (record_from layout.now) rows.now) }
    ensures valid { IfOk result (λ rs. IsTrue (list_all (λ r. all_valid (kinds_in layout.now.fields) r.values) rs.items)) }
{
    let mut records = Vec::new(alloc);
    for row in rows {
        let record = match record_within(alloc, layout, row) {
            Ok(record) => record,
            Err(fail) => return Err(fail),
        };
        records.push(record)?;
    }
    Ok(records)
}

// The id of the last record.
fn last_id(items: &[Record]) -> Option<Id>
    ensures { result ≡ last_id items.now }
{
    match items.last() {
        None => None,
        Some(last) => Some(last.id),
    }
}

// ---- records that don't convert

fn is_bad_value(
    alloc: Global,
    from: &FieldType,
    to: &FieldType,
    value: &Value,
) -> Result<bool, AllocError>
    requires from { IsTrue (is_type from.now) }
    requires to { IsTrue (is_type to.now) }
    requires convertible { IsTrue (convertible from.now to.now) }
    requires valid { IsTrue (valid from.now value.now) }
    ensures { IfOk result (λ bad. bad ≡ is_none (convert to.now value.now)) }
{
    match convert(alloc, from, to, value) {
        Ok(_) => Ok(false),
        Err(ConvertFail::NotConvertible) => Ok(true),
        Err(ConvertFail::Memory) => Err(AllocError),
    }
}

// Whether a record's value doesn't convert.
fn is_bad(
    alloc: Global,
    row: &JobRow,
    field: &FieldPlace,
    item: &Record,
) -> Result<bool, AllocError>
    requires from { IsTrue (is_type field.now.kind) }
    requires to { IsTrue (is_type row.now.kind) }
    requires convertible { IsTrue (convertible field.now.kind row.now.kind) }
    requires valid { IsTrue (valid field.now.kind (value_at item.now.values (suc row.now.field))) }
    ensures { IfOk result (λ bad. bad ≡ is_bad_by row.now item.now) }
{
    match item.values.get(usize::from(row.field) + 1) {
        None => is_bad_value(alloc, &field.kind, &row.kind, &Value::Null),
        Some(value) => is_bad_value(alloc, &field.kind, &row.kind, value),
    }
}

// The id of the first record whose value doesn't convert.
fn first_bad(
    alloc: Global,
    row: &JobRow,
    field: &FieldPlace,
    items: &[Record],
) -> Result<Option<Id>, AllocError>
    requires from { IsTrue (is_type field.now.kind) }
    requires to { IsTrue (is_type row.now.kind) }
    requires convertible { IsTrue (convertible field.now.kind row.now.kind) }
    requires valid { IsTrue (list_all (λ r. valid field.now.kind (value_at r.values (suc row.now.field))) items.now) }
    ensures { IfOk result (λ bad. bad ≡ option_map (λ r. r.id) (find (is_bad_by row.now) items.now)) }
{
    for item in items {
        if is_bad(alloc, row, field, item)? {
            return Ok(Some(item.id));
        }
    }
    Ok(None)
}

// ---- what is decided

// The changes of a page: those of its records, and the row of the change, which comes to the last of them.
fn move_on(
    alloc: Global,
    org: u32,
    layout: &Layout,
    cursor: Id,
    rows: &[DataRow],
    items: &[Record],
    row: JobRow,
) -> Result<Vec<Change>, AllocError>
    requires plain { IsTrue (is_plain row.kind) }
    requires types { IsTrue (has_types layout.now) }
    requires converts { IsTrue (converts layout.now) }
    requires valid { IsTrue (list_all (λ r. all_valid (kinds_in layout.now.fields) r.values) items.now) }
    ensures made { IfOk result (λ changes. changes.items ≡ map spelled (page_decided org layout.now (Some cursor) rows.now items.now row)) }
    ensures fits { OnOk result (AllByRecursion (λ c. FitsKey c.0) (page_decided org layout.now (Some cursor) rows.now items.now row)) }
{
    let row = moved_row(org, cursor, row);
    let mut changes = Vec::new(alloc);
    page_changes(alloc, layout, Some(cursor), rows, items, &mut changes)?;
    put_change(alloc, &row, &mut changes)?;
    Ok(changes)
}

// Those of a change that copies, once records come next: it comes to the last of them, or fails at one that doesn't convert.
fn copy_page(
    alloc: Global,
    org: u32,
    layout: &Layout,
    field: &FieldPlace,
    cursor: Id,
    rows: &[DataRow],
    items: &[Record],
    row: JobRow,
) -> Result<Vec<Change>, AllocError>
    requires there { slice_get layout.now.fields row.field ≡ Some field.now }
    requires ready { IsTrue (is_ready row layout.now field.now) }
    requires copies { IsTrue (is_copy row.phase) }
    requires valid { IsTrue (list_all (λ r. all_valid (kinds_in layout.now.fields) r.values) items.now) }
    ensures made { IfOk result (λ changes. changes.items ≡ map spelled (copied org layout.now (Some cursor) rows.now items.now row)) }
    ensures fits { OnOk result (AllByRecursion (λ c. FitsKey c.0) (copied org layout.now (Some cursor) rows.now items.now row)) }
{
    match first_bad(alloc, &row, field, items)? {
        Some(id) => alone(alloc, &failed_row(org, id, row)),
        None => move_on(alloc, org, layout, cursor, rows, items, row),
    }
}

// Those of a change that copies.
fn copy_step(
    alloc: Global,
    org: u32,
    layout: &Layout,
    field: &FieldPlace,
    rows: &[DataRow],
    items: &[Record],
    row: JobRow,
) -> Result<Vec<Change>, CodecFail>
    requires there { slice_get layout.now.fields row.field ≡ Some field.now }
    requires ready { IsTrue (is_ready row layout.now field.now) }
    requires copies { IsTrue (is_copy row.phase) }
    requires valid { IsTrue (list_all (λ r. all_valid (kinds_in layout.now.fields) r.values) items.now) }
    ensures made { IfOk result (λ changes. changes.items ≡ map spelled (copy_decided org layout.now field.now rows.now items.now row)) }
    ensures fits { OnOk result (AllByRecursion (λ c. FitsKey c.0) (copy_decided org layout.now field.now rows.now items.now row)) }
    ensures cause { FitsText field.now.name → IfSome field.now.child FitsText → IfErr result (λ e. e ≡ Memory) }
{
    match last_id(items) {
        None => switch(alloc, org, field, row),
        Some(last) => Ok(copy_page(alloc, org, layout, field, last, rows, items, row)?),
    }
}

// Those of a change that clears.
fn clear_step(
    alloc: Global,
    org: u32,
    layout: &Layout,
    field: &FieldPlace,
    rows: &[DataRow],
    items: &[Record],
    row: JobRow,
) -> Result<Vec<Change>, AllocError>
    requires ready { IsTrue (is_ready row layout.now field.now) }
    requires valid { IsTrue (list_all (λ r. all_valid (kinds_in layout.now.fields) r.values) items.now) }
    ensures made { IfOk result (λ changes. changes.items ≡ map spelled (clear_decided org layout.now field.now rows.now items.now row)) }
    ensures fits { OnOk result (AllByRecursion (λ c. FitsKey c.0) (clear_decided org layout.now field.now rows.now items.now row)) }
{
    match last_id(items) {
        None => alone(alloc, &done_row(alloc, org, field, row)?),
        Some(last) => move_on(alloc, org, layout, last, rows, items, row),
    }
}

// Those of a change, by its phase.
fn decide(
    alloc: Global,
    org: u32,
    layout: &Layout,
    field: &FieldPlace,
    rows: &[DataRow],
    items: &[Record],
    row: JobRow,
) -> Result<Vec<Change>, CodecFail>
    requires there { slice_get layout.now.fields row.field ≡ Some field.now }
    requires ready { IsTrue (is_ready row layout.now field.now) }
    requires valid { IsTrue (list_all (λ r. all_valid (kinds_in layout.now.fields) r.values) items.now) }
    ensures made { IfOk result (λ changes. changes.items ≡ map spelled (decided org layout.now field.now rows.now items.now row)) }
    ensures fits { OnOk result (AllByRecursion (λ c. FitsKey c.0) (decided org layout.now field.now rows.now items.now row)) }
    ensures cause { FitsText field.now.name → IfSome field.now.child FitsText → IfErr result (λ e. e ≡ Memory) }
{
    if is_copy(row.phase) {
        copy_step(alloc, org, layout, field, rows, items, row)
    } else {
        Ok(clear_step(alloc, org, layout, field, rows, items, row)?)
    }
}

// These, unless they are too many, as those of no tenant are.
fn if_few(changes: Vec<Change>) -> Result<Vec<Change>, CodecFail>
    ensures same { IfOk result (λ few. few.items ≡ changes.items) }
    ensures few { OnOk result (length changes.items ≤ 201) }
    ensures many { IfErr result (λ e. length changes.items ≤ 201 → ⊥) }
{
    if changes.len() <= MOST {
        Ok(changes)
    } else {
        Err(CodecFail::Damaged)
    }
}

/// The changes of a step, by what was read for it.
///
/// # Errors
///
/// `Damaged` if what was read is no tenant's, `Memory` if out of memory.
pub(crate) fn changes_of(alloc: Global, org: u32, page: Page) -> Result<Vec<Change>, CodecFail>
    ensures made { IfOk result (λ changes. DecidesBy org page.row page.layout page.rows changes.items) }
    ensures cause { IsWhole org page.row page.layout page.rows → IfErr result (λ e. e ≡ Memory) }
{
    let Page { row, layout, rows } = page;
    let Some(field) = layout.fields.get(usize::from(row.field)) else {
        return Err(CodecFail::Damaged);
    };
    if !is_ready(&row, &layout, field) {
        return Err(CodecFail::Damaged);
    }
    let items = match records_of(alloc, &layout, rows.as_slice()) {
        Ok(items) => items,
        Err(fail) => return Err(fail),
    };
    let changes = decide(
        alloc,
        org,
        &layout,
        field,
        rows.as_slice(),
        items.as_slice(),
        row,
    )?;
    if_few(changes)
}

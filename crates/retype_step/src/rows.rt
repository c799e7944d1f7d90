//! The rows of a change and of its field that a step writes.

ghost use Rattle.std.specs.Prelude.{◌≡◌, ◌<◌, ◌^◌, ◌++◌, ◌↔◌, IfErr, IfOk, IfSome, IsTrue, OnOk, Some, map};
ghost use Rattle.std.specs.List.{AllByRecursion};
ghost use Rattle.retype_step.specs.inner.Rows.{clearing_row, done_row, failed_row, is_plain, moved_row, row_alone, switch_decided, switched_field, switched_row};
ghost use Rattle.store_edit.specs.Rows.{change_to, spelled};
ghost use Rattle.store_rows.specs.Forms.{FitsForm};
ghost use Rattle.store_rows.specs.Keys.{FitsKey};
ghost use Rattle.store_rows.specs.Rows.{field_form, job_form};
ghost use Rattle.store_codec.specs.Plain.{FitsText};
ghost use Rattle.store_codec.specs.declared.fail.CodecFail.TheVariants.{Memory};
ghost use Rattle.base_value.specs.Id.{is_id};

use base_value::{Id, Outcome, Phase, Text};
use std::alloc::{AllocError, Global};
use store_abstraction::FieldPlace;
use store_codec::CodecFail;
use store_edit::put_row;
use store_kv::Change;
use store_rows::{FieldFlags, FieldRow, JobRow};

// ---- the change

// That numbers have as many bits as their types say.
fn numbers_fit(org: u32, object: u16, field: u8, slot: u8)
    ensures org { org < 2 ^ 32 }
    ensures object { object < 2 ^ 16 }
    ensures field { field < 256 }
    ensures slot { slot < 256 }
{}

// That these are an id's characters, as its type says.
fn id_fits(id: Option<Id>)
    ensures { IfSome id (λ i. IsTrue (is_id i)) }
{
    if let Some(id) = &id {
        let _ = id.as_bytes();
    }
}

// That a row's parts have spellings, as their types say.
fn row_fits(row: &JobRow)
    requires { IsTrue (is_plain row.now.kind) }
    ensures { FitsForm job_form row.now }
{
    numbers_fit(row.org, row.object, row.field, row.twin);
    id_fits(row.cursor);
    id_fits(row.failed);
}

/// One change more: the row of a change.
///
/// # Errors
///
/// If out of memory.
pub(crate) fn put_change(
    alloc: Global,
    row: &JobRow,
    changes: &mut Vec<Change>,
) -> Result<(), AllocError>
    requires { IsTrue (is_plain row.now.kind) }
    ensures added { OnOk result (changes.new.items ≡ changes.old.items ++ map spelled (row_alone row.now)) }
    ensures fits { AllByRecursion (λ c. FitsKey c.0) (row_alone row.now) }
{
    row_fits(row);
    put_row(alloc, changes, row)
}

/// The row of a change alone.
///
/// # Errors
///
/// If out of memory.
pub(crate) fn alone(alloc: Global, row: &JobRow) -> Result<Vec<Change>, AllocError>
    requires { IsTrue (is_plain row.now.kind) }
    ensures made { IfOk result (λ changes. changes.items ≡ map spelled (row_alone row.now)) }
    ensures fits { AllByRecursion (λ c. FitsKey c.0) (row_alone row.now) }
{
    let mut changes = Vec::new(alloc);
    put_change(alloc, row, &mut changes)?;
    Ok(changes)
}

/// The row once the change has come to the record with this id.
pub(crate) fn moved_row(org: u32, cursor: Id, row: JobRow) -> JobRow
    ensures { result ≡ moved_row org (Some cursor) row }
{
    JobRow {
        org,
        object: row.object,
        field: row.field,
        kind: row.kind,
        twin: row.twin,
        phase: row.phase,
        outcome: row.outcome,
        cursor: Some(cursor),
        failed: row.failed,
    }
}

// The row once nothing more is copied, and all is to be cleared.
fn clearing_row(org: u32, outcome: Outcome, row: JobRow) -> JobRow
    ensures { result ≡ clearing_row org outcome row }
{
    JobRow {
        org,
        object: row.object,
        field: row.field,
        kind: row.kind,
        twin: row.twin,
        phase: Phase::Clear,
        outcome,
        cursor: None,
        failed: row.failed,
    }
}

/// The row once the change has failed at the record with this id.
pub(crate) fn failed_row(org: u32, id: Id, row: JobRow) -> JobRow
    ensures { result ≡ failed_row org id row }
{
    let mut failed = clearing_row(org, Outcome::Failed, row);
    failed.failed = Some(id);
    failed
}

/// The row once nothing is left to clear.
///
/// # Errors
///
/// If out of memory.
pub(crate) fn done_row(
    alloc: Global,
    org: u32,
    field: &FieldPlace,
    row: JobRow,
) -> Result<JobRow, AllocError>
    ensures { IfOk result (λ done. done ≡ done_row org field.now row) }
{
    let kind = match row.outcome {
        Outcome::Switched => field.kind.copy(alloc)?,
        _ => row.kind.copy(alloc)?,
    };
    Ok(JobRow {
        org,
        object: row.object,
        field: row.field,
        kind,
        twin: row.twin,
        phase: Phase::Done,
        outcome: row.outcome,
        cursor: row.cursor,
        failed: row.failed,
    })
}

// ---- the switch

// Whether a row can have this text: the number of its bytes has 32 bits.
fn is_spelled(text: &Text) -> bool
    ensures { IsTrue result ↔ FitsText text.now }
{
    text.as_str().len() <= u32::MAX as usize
}

// A copy of a text, which a row can have; no name is without.
fn copy_of(alloc: Global, text: &Text) -> Result<Text, CodecFail>
    ensures same { IfOk result (λ copy. copy ≡ text.now) }
    ensures fits { IfOk result FitsText }
    ensures cause { FitsText text.now → IfErr result (λ e. e ≡ Memory) }
{
    if !is_spelled(text) {
        return Err(CodecFail::Damaged);
    }
    Ok(text.copy(alloc)?)
}

fn copy_of_child(alloc: Global, child: &Option<Text>) -> Result<Option<Text>, CodecFail>
    ensures same { IfOk result (λ copy. copy ≡ child.now) }
    ensures fits { IfOk result (λ copy. IfSome copy FitsText) }
    ensures cause { IfSome child.now FitsText → IfErr result (λ e. e ≡ Memory) }
{
    match child {
        None => Ok(None),
        Some(child) => Ok(Some(copy_of(alloc, child)?)),
    }
}

// The row of the field: it has the new type, and the slot that was filled.
fn switched_field(
    alloc: Global,
    org: u32,
    field: &FieldPlace,
    row: &JobRow,
) -> Result<FieldRow, CodecFail>
    requires { IsTrue (is_plain row.now.kind) }
    ensures same { IfOk result (λ switched. switched ≡ switched_field org field.now row.now) }
    ensures fits { IfOk result (FitsForm field_form) }
    ensures cause { FitsText field.now.name → IfSome field.now.child FitsText → IfErr result (λ e. e ≡ Memory) }
{
    numbers_fit(org, row.object, row.field, row.twin);
    let name = copy_of(alloc, &field.name)?;
    let child = copy_of_child(alloc, &field.child)?;
    let kind = row.kind.copy(alloc)?;
    Ok(FieldRow {
        org,
        object: row.object,
        field: row.field,
        name,
        kind,
        flags: FieldFlags {
            required: field.required,
            unique: field.unique,
            indexed: field.indexed,
        },
        slot: row.twin,
        child,
    })
}

// The row of the change: what is in the slot that the field had, with the type that it had, is to be cleared.
fn switched_row(
    alloc: Global,
    org: u32,
    field: &FieldPlace,
    row: JobRow,
) -> Result<JobRow, AllocError>
    ensures { IfOk result (λ switched. switched ≡ switched_row org field.now row) }
{
    let mut switched = clearing_row(org, Outcome::Switched, row);
    switched.kind = field.kind.copy(alloc)?;
    switched.twin = field.slot;
    Ok(switched)
}

/// The changes of the switch: the rows of the field and of the change.
///
/// # Errors
///
/// `Damaged` if the field has a name that no row can have, `Memory` if out of memory.
pub(crate) fn switch(
    alloc: Global,
    org: u32,
    field: &FieldPlace,
    row: JobRow,
) -> Result<Vec<Change>, CodecFail>
    requires row { IsTrue (is_plain row.kind) }
    requires field { IsTrue (is_plain field.now.kind) }
    ensures made { IfOk result (λ changes. changes.items ≡ map spelled (switch_decided org field.now row)) }
    ensures fits { OnOk result (AllByRecursion (λ c. FitsKey c.0) (switch_decided org field.now row)) }
    ensures cause { FitsText field.now.name → IfSome field.now.child FitsText → IfErr result (λ e. e ≡ Memory) }
{
    let new = switched_field(alloc, org, field, &row)?;
    let row = switched_row(alloc, org, field, row)?;
    let mut changes = Vec::new(alloc);
    put_row(alloc, &mut changes, &new)?;
    put_change(alloc, &row, &mut changes)?;
    Ok(changes)
}

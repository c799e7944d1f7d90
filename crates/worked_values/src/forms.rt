//! What keys and rows of each form are read as, and what isn't read.

use crate::answer::Answer;
use crate::cells::cell;
use crate::rows::HasFields;
use base_value::Bytes;
use std::alloc::{AllocError, Global};
use store_rows::{
    CodecFail, DataRow, FieldRow, GrantRow, GroupRow, IndexRow, JobRow, ObjectRow, OrgRow,
    OwnerRow, RelationRow, RoleRow, RowForm, ShareRow, SharingRow, UniqueRow, UserRow,
    ValidationRow, VersionRow,
};

// Whether a key and bytes spell no row of this form.
fn is_damaged<R: RowForm + Drop>(alloc: Global, key: &[u8], row: &[u8]) -> bool {
    R::read(alloc, key, row).err() == Some(CodecFail::Damaged)
}

// Whether no first bytes of the key or of the row are read in its place.
fn are_shorter_refused<R: RowForm + Drop>(alloc: Global, key: &[u8], row: &[u8]) -> bool {
    for count in 0..key.len() {
        if !is_damaged::<R>(alloc, &key[..count], row) {
            return false;
        }
    }
    for count in 0..row.len() {
        if !is_damaged::<R>(alloc, key, &row[..count]) {
            return false;
        }
    }
    true
}

// The bytes with one more behind them.
fn longer(answer: &mut Answer, bytes: &[u8], byte: u8) -> Vec<u8> {
    let mut longer = Vec::new(answer.alloc());
    answer.note(longer.extend_from_slice(bytes));
    answer.add(&mut longer, byte);
    longer
}

// Whether neither the key nor the row is read with this byte behind it.
fn is_longer_refused<R: RowForm + Drop>(
    answer: &mut Answer,
    key: &[u8],
    row: &[u8],
    byte: u8,
) -> bool {
    let long_key = longer(answer, key, byte);
    let long_row = longer(answer, row, byte);
    is_damaged::<R>(answer.alloc(), long_key.as_slice(), row)
        && is_damaged::<R>(answer.alloc(), key, long_row.as_slice())
}

fn are_longer_refused<R: RowForm + Drop>(answer: &mut Answer, key: &[u8], row: &[u8]) -> bool {
    is_longer_refused::<R>(answer, key, row, 0)
        && is_longer_refused::<R>(answer, key, row, 1)
        && is_longer_refused::<R>(answer, key, row, 255)
}

// Whether bytes are there and are these ones.
fn are_bytes(answer: &mut Answer, found: Result<Bytes, AllocError>, bytes: &[u8]) -> bool {
    match found {
        Ok(found) => found.as_slice() == bytes,
        Err(AllocError) => {
            answer.fail();
            false
        }
    }
}

// Whether what is read is spelled by just this key and this row.
fn is_spelled_again<R: RowForm + Drop>(answer: &mut Answer, key: &[u8], row: &[u8]) -> bool {
    let alloc = answer.alloc();
    match R::read(alloc, key, row) {
        Ok(found) => {
            let spelled = found.key(alloc);
            let written = found.write(alloc);
            are_bytes(answer, spelled, key) && are_bytes(answer, written, row)
        }
        Err(_) => false,
    }
}

// How the bytes are read otherwise than they should, or `exact`.
fn exactness<R: RowForm + Drop>(answer: &mut Answer, key: &[u8], row: &[u8]) -> &'static str {
    if !is_spelled_again::<R>(answer, key, row) {
        "other bytes are spelled"
    } else if !are_shorter_refused::<R>(answer.alloc(), key, row) {
        "less is read"
    } else if !are_longer_refused::<R>(answer, key, row) {
        "more is read"
    } else {
        "exact"
    }
}

fn show_row<R: RowForm + HasFields + Drop>(answer: &mut Answer, key: &[u8], row: &[u8]) {
    match R::read(answer.alloc(), key, row) {
        Ok(found) => {
            found.add_to(answer);
            answer.push(", ");
            let exactness = exactness::<R>(answer, key, row);
            answer.push(exactness);
        }
        Err(fail) => answer.push_value(&fail),
    }
}

fn show_whether_read<R: RowForm + Drop>(answer: &mut Answer, key: &[u8], row: &[u8]) {
    let is_damaged = is_damaged::<R>(answer.alloc(), key, row);
    answer.push(if is_damaged { "Damaged" } else { "read" });
}

// What a call asks of a form.
fn ask<R: RowForm + HasFields + Drop>(answer: &mut Answer, call: &str, cells: &[&str]) {
    let key = answer.bytes_in(cell(cells, 1));
    let row = answer.bytes_in(cell(cells, 2));
    match call {
        "table" => answer.push_value(&R::table()),
        "row" => show_row::<R>(answer, key.as_slice(), row.as_slice()),
        _ => show_whether_read::<R>(answer, key.as_slice(), row.as_slice()),
    }
}

/// A form, a key and a row. `table`: the number of the form's table. `row`: the fields of what is read, and `exact` if just
/// these bytes are spelled again, and nothing shorter or longer is read. `read`: whether it is read, or `Damaged`.
pub fn form(answer: &mut Answer, call: &str, cells: &[&str]) {
    match cell(cells, 0) {
        "version" => ask::<VersionRow>(answer, call, cells),
        "org" => ask::<OrgRow>(answer, call, cells),
        "object" => ask::<ObjectRow>(answer, call, cells),
        "field" => ask::<FieldRow>(answer, call, cells),
        "job" => ask::<JobRow>(answer, call, cells),
        "user" => ask::<UserRow>(answer, call, cells),
        "role" => ask::<RoleRow>(answer, call, cells),
        "group" => ask::<GroupRow>(answer, call, cells),
        "validation rule" => ask::<ValidationRow>(answer, call, cells),
        "sharing rule" => ask::<SharingRow>(answer, call, cells),
        "record" => ask::<DataRow>(answer, call, cells),
        "index" => ask::<IndexRow>(answer, call, cells),
        "unique" => ask::<UniqueRow>(answer, call, cells),
        "relation" => ask::<RelationRow>(answer, call, cells),
        "owner" => ask::<OwnerRow>(answer, call, cells),
        "share" => ask::<ShareRow>(answer, call, cells),
        "grant" => ask::<GrantRow>(answer, call, cells),
        _ => answer.push("no such form"),
    }
}

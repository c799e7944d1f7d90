//! Formulas on records.

use crate::account::{NAMES, kind_of};
use crate::formulas::formula;
use crate::line::{first_of, truth};
use base_value::{FieldType, Items, Value, is_type, read_value};
use formula::{Formula, Record, holds, names};
use std::alloc::{AllocError, Global};

// The value of a cell; null if it isn't one of its type.
fn value_in(alloc: Global, kind: &FieldType, cell: &str) -> Value {
    if !is_type(kind) {
        return Value::Null;
    }
    match read_value(alloc, kind, cell) {
        Ok(value) => value,
        Err(_) => Value::Null,
    }
}

// The type by which the cell of a field is read: a picklist's is any text.
fn cell_kind(alloc: Global, name: &str) -> Result<FieldType, AllocError> {
    match name {
        "Stage__c" => Ok(FieldType::Text(40)),
        _ => kind_of(alloc, name),
    }
}

// The record whose values are in these cells.
fn record_in(alloc: Global, cells: &str) -> Result<Record, AllocError> {
    let mut values = Items::new(alloc);
    let mut cells = cells.split('/');
    for name in NAMES.split(' ') {
        let kind = cell_kind(alloc, name)?;
        values.push(value_in(alloc, &kind, cells.next().unwrap_or("")))?;
    }
    Ok(Record { values })
}

// Whether a formula holds of a record, and of what it was before or `new`.
fn holds_of(alloc: Global, formula: &Formula, now: &str, before: &str) -> Result<bool, AllocError> {
    let new = record_in(alloc, now)?;
    if before == "new" {
        return Ok(holds(formula, &new, None));
    }
    let old = record_in(alloc, before)?;
    Ok(holds(formula, &new, Some(&old)))
}

/// Whether a formula holds: the values of the record, those that it had before or `new`, and the formula.
pub(crate) fn judged(alloc: Global, arguments: &str) -> Result<String, AllocError> {
    let (now, rest) = first_of(arguments);
    let (before, text) = first_of(rest);
    match formula(alloc, text, false) {
        Ok(formula) => truth(alloc, holds_of(alloc, &formula, now, before)?),
        Err(_) => String::from_str(alloc, "refused"),
    }
}

fn positions_of(alloc: Global, formula: &Formula) -> Result<String, AllocError> {
    let positions = names(alloc, formula)?;
    let positions = positions.as_slice();
    format!(in alloc; "{positions:?}")
}

/// The positions of the fields that a formula names.
pub(crate) fn positions(alloc: Global, text: &str) -> Result<String, AllocError> {
    match formula(alloc, text, false) {
        Ok(formula) => positions_of(alloc, &formula),
        Err(_) => String::from_str(alloc, "refused"),
    }
}

//! The column that a cell of a heading names.

ghost use Rattle.std.specs.Prelude.{◌≡◌, IfOk, MatchOption, None, Some};
ghost use Rattle.std.specs.Str.{chars};
ghost use Rattle.cmd_load_plan.specs.Columns.{own_column, parts_of};
ghost use Rattle.cmd_load_plan.specs.inner.Headings.{FindsColumn, FindsParent, FindsPlace, column_at};
ghost use Rattle.schema_rules.specs.Objects.{object_of_layout};

use crate::plan::LoadColumn;
use base_value::Text;
use query_plan::{layout_in, parent_in};
use record_input::{column_named, unique_named};
use std::alloc::{AllocError, Global};
use store_abstraction::{FieldPlace, Layout};

// What is before and behind the first dot of a cell, if it has one.
#[tactic(auto, unfolding(crate::specs::Columns::parts_of))]
fn parts_of(cell: &str) -> Option<(&str, &str)>
    ensures { MatchOption result (parts_of cell.now ≡ None) (λ x. parts_of cell.now ≡ Some (x.0.now, x.1.now)) }
{
    cell.split_once('.')
}

// The field of the object itself with this name, if an edit may give it.
fn own_column(alloc: Global, layout: &Layout, name: &str) -> Result<Option<LoadColumn>, AllocError>
    ensures { IfOk result (λ c. c ≡ own_column (object_of_layout layout.now) (chars name.now)) }
{
    let Some(column) = column_named(layout, name) else {
        return Ok(None);
    };
    if column.is_writable {
        let field = Text::from_str(alloc, column.name)?;
        Ok(Some(LoadColumn { field, find: None }))
    } else {
        Ok(None)
    }
}

// The place of the unique field with this name among the custom fields of an object, if its layout is there.
fn unique_place(layouts: &[Layout], object: u16, field: &str) -> Option<u8>
    ensures { FindsPlace layouts.now object (chars field.now) result }
{
    let Some(target) = layout_in(layouts, object) else {
        return None;
    };
    let Some(number) = unique_named(target, field) else {
        return None;
    };
    // An object has fewer fields than a byte counts.
    u8::try_from(number).ok()
}

// The field whose value is at a position, a reference whose records are found by the unique field at a place.
fn column_at(
    alloc: Global,
    fields: &[FieldPlace],
    position: usize,
    place: u8,
) -> Result<Option<LoadColumn>, AllocError>
    ensures { IfOk result (λ c. c ≡ column_at fields.now position place) }
{
    let Some(reference) = fields.get(position.saturating_sub(1)) else {
        return Ok(None);
    };
    let field = reference.name.copy(alloc)?;
    let find = Some(place);
    Ok(Some(LoadColumn { field, find }))
}

// A reference by the name of its parent relationship, whose records are found by a unique field of their object.
fn parent_column(
    alloc: Global,
    layouts: &[Layout],
    layout: &Layout,
    relationship: &str,
    field: &str,
) -> Result<Option<LoadColumn>, AllocError>
    ensures { IfOk result (FindsParent layouts.now layout.now (chars relationship.now) (chars field.now)) }
{
    let Some(step) = parent_in(layout, relationship) else {
        return Ok(None);
    };
    let Some(place) = unique_place(layouts, step.target, field) else {
        return Ok(None);
    };
    column_at(alloc, layout.fields.as_slice(), step.position, place)
}

/// The column that a cell names, if it names one.
///
/// # Errors
///
/// When out of memory.
pub(crate) fn column_of(
    alloc: Global,
    layouts: &[Layout],
    layout: &Layout,
    cell: &str,
) -> Result<Option<LoadColumn>, AllocError>
    ensures { IfOk result (FindsColumn layouts.now layout.now cell.now) }
{
    match parts_of(cell) {
        None => own_column(alloc, layout, cell),
        Some((relationship, field)) => parent_column(alloc, layouts, layout, relationship, field),
    }
}

//! How a text with a heading is loaded.

ghost use Rattle.std.specs.Prelude.{◌≡◌, IfOk, map};
ghost use Rattle.std.specs.Str.{chars};
ghost use Rattle.cmd_load_plan.specs.Columns.{first_key, gives_field, plan_of};
ghost use Rattle.cmd_load_plan.specs.Headings.{InEach, in_characters};
ghost use Rattle.cmd_load_plan.specs.inner.Headings.{FindsColumns};
ghost use Rattle.schema_rules.specs.Objects.{numbered_in, object_of_layout};

use crate::columns::column_of;
use crate::plan::{LoadColumn, LoadPlan};
use base_value::{Items, Text, is_text};
use record_input::unique_named;
use std::alloc::{AllocError, Global};
use store_abstraction::Layout;

// Whether one of the columns gives this field.
fn gives_field(columns: &[LoadColumn], field: &Text) -> bool
    ensures { result ≡ gives_field columns.now field.now }
{
    columns
        .iter()
        .any(|column| is_text(&column.field, field.as_str()))
}

// The columns of a heading, or the first cell that is refused.
fn columns_of(
    alloc: Global,
    layouts: &[Layout],
    layout: &Layout,
    heading: &[&str],
) -> Result<Result<Items<LoadColumn>, Text>, AllocError>
    ensures { IfOk result (FindsColumns layouts.now layout.now (map (λ c. c.now) heading.now)) }
{
    let mut columns = Vec::new(alloc);
    'cells: for cell in heading {
        let named = column_of(alloc, layouts, layout, cell)?;
        let Some(column) = named else {
            return Ok(Err(Text::from_str(alloc, cell)?));
        };
        if gives_field(columns.as_slice(), &column.field) {
            return Ok(Err(Text::from_str(alloc, cell)?));
        }
        columns.push(column)?;
    }
    Ok(Ok(Items::from_vec(columns)))
}

// The name of the unique field that the first column gives, if it gives one.
fn first_key(
    alloc: Global,
    layout: &Layout,
    columns: &[LoadColumn],
) -> Result<Option<Text>, AllocError>
    ensures { IfOk result (λ key. key ≡ first_key (object_of_layout layout.now) columns.now) }
{
    let Some(column) = columns.first() else {
        return Ok(None);
    };
    if column.find.is_some() {
        return Ok(None);
    }
    let Some(number) = unique_named(layout, column.field.as_str()) else {
        return Ok(None);
    };
    let Some(field) = layout.fields.get(number) else {
        return Ok(None);
    };
    let name = field.name.copy(alloc)?;
    Ok(Some(name))
}

// The plan with these columns.
fn plan_with(
    alloc: Global,
    layout: &Layout,
    columns: Items<LoadColumn>,
) -> Result<LoadPlan, AllocError>
    ensures { IfOk result (λ p. p ≡ record {
      object = layout.now.name;
      key = first_key (object_of_layout layout.now) columns;
      columns = columns;
    }) }
{
    let object = layout.name.copy(alloc)?;
    let key = first_key(alloc, layout, columns.as_slice())?;
    Ok(LoadPlan {
        object,
        key,
        columns,
    })
}

/// How a text with this heading is loaded into the object of a layout, by the layouts of all objects; or the first cell that names no
/// field that can be given, or one that was named before.
///
/// # Errors
///
/// When out of memory.
pub fn load_plan(
    alloc: Global,
    layouts: &[Layout],
    layout: &Layout,
    heading: &[&str],
) -> Result<Result<LoadPlan, Text>, AllocError>
    ensures { IfOk result (λ r. InEach layouts.now layout.now (λ t.
        r ≡ in_characters (plan_of t (numbered_in layout.now) (map (λ c. c.now) heading.now)))) }
{
    match columns_of(alloc, layouts, layout, heading)? {
        Err(cell) => Ok(Err(cell)),
        Ok(columns) => {
            let plan = plan_with(alloc, layout, columns)?;
            Ok(Ok(plan))
        }
    }
}

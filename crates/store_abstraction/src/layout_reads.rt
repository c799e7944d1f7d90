//! How layouts are read.

ghost use Rattle.std.specs.Prelude.{◌≡◌, IfOk, map};
ghost use Rattle.std.specs.Option.{option_and_then};
ghost use Rattle.std.specs.Str.{chars};
ghost use Rattle.store_kv.specs.Draft.{DraftTells, tables_of};
ghost use Rattle.store_abstraction.specs.Calls.{Calls, ended};
ghost use Rattle.store_abstraction.specs.inner.LayoutRows.{ListsIn, job_of_row, layout_by, layout_by_found, layouts_by, object_rows, place_of_row, places_in, row_named};
ghost use Rattle.store_abstraction.specs.Layouts.{own_change_row, own_layout, own_layout_named, own_layouts};
ghost use Rattle.store_abstraction.specs.Local.{FindsIn};

use crate::calls::call_laws;
use crate::layout::{FieldPlace, JobPlace, Layout};
use crate::local::local_laws;
use base_value::{Items, id_laws};
use model::same_name;
use std::alloc::{AllocError, Global};
use store_codec::shape_laws;
use store_kv::{Draft, Keeper, draft_laws, key_laws};
use store_rows::{
    FieldRow, JobRow, ObjectRow, StoreFail, listing_laws, page_under, row_at, row_laws, table_laws,
};

// A field's place, from its row.
fn place_of(row: FieldRow) -> FieldPlace
    ensures { result ≡ place_of_row row }
{
    FieldPlace {
        name: row.name,
        kind: row.kind,
        required: row.flags.required,
        unique: row.flags.unique,
        indexed: row.flags.indexed,
        slot: row.slot,
        child: row.child,
    }
}

// The places of fields, from their rows.
fn places_of(alloc: Global, rows: Vec<FieldRow>) -> Result<Items<FieldPlace>, AllocError>
    ensures { IfOk result (λ places. places ≡ map place_of_row rows.items) }
{
    let places: Vec<FieldPlace> = rows.into_iter().map(place_of).collect(alloc)?;
    Ok(Items::from_vec(places))
}

// The fields of an object with their slots. One object has at most 40.
fn fields_of<K: Keeper>(
    alloc: Global,
    draft: &mut Draft<'_, K>,
    org: u32,
    object: u16,
) -> Result<Items<FieldPlace>, StoreFail>
    ensures finds { DraftTells K.state draft.old draft.new
        → FindsIn org (places_in object) (tables_of K.state draft.old) result }
    ensures calls { Calls K.state 0 (ended result) draft.old draft.new }
{
    local_laws();
    listing_laws::<FieldRow>();
    table_laws();
    shape_laws();
    call_laws::<K>();
    let rows: Vec<FieldRow> = page_under(alloc, draft, &(org, object), None, 41)?;
    Ok(places_of(alloc, rows)?)
}

/// The row of the change of a field's type, if the organisation ever made one.
///
/// # Errors
///
/// `Keeper` if the keeper failed, `Memory` if out of memory, `Damaged` never if the organisation's rows stand for a tenant or
/// for none.
pub fn change_row<K: Keeper>(
    alloc: Global,
    draft: &mut Draft<'_, K>,
    org: u32,
) -> Result<Option<JobRow>, StoreFail>
    ensures finds { DraftTells K.state draft.old draft.new
        → FindsIn org (own_change_row org) (tables_of K.state draft.old) result }
    ensures calls { Calls K.state 0 (ended result) draft.old draft.new }
{
    key_laws();
    table_laws();
    row_laws::<JobRow>();
    id_laws();
    row_at(alloc, draft, &org)
}

// The place of a change, from its row, if it is on this object.
fn job_of(alloc: Global, row: &JobRow, object: u16) -> Result<Option<JobPlace>, AllocError>
    ensures { IfOk result (λ job. job ≡ job_of_row object row.now) }
{
    if row.object == object {
        let kind = row.kind.copy(alloc)?;
        Ok(Some(JobPlace {
            field: row.field,
            kind,
            twin: row.twin,
            phase: row.phase,
            cursor: row.cursor,
        }))
    } else {
        Ok(None)
    }
}

// The change on an object, from the row of the change, if one is made.
fn job_on(
    alloc: Global,
    change: &Option<JobRow>,
    object: u16,
) -> Result<Option<JobPlace>, AllocError>
    ensures { IfOk result (λ job. job ≡ option_and_then (job_of_row object) change.now) }
{
    match change {
        None => Ok(None),
        Some(row) => job_of(alloc, row, object),
    }
}

// The layout of an object, from its row and that of the change.
fn layout_of_row<K: Keeper>(
    alloc: Global,
    draft: &mut Draft<'_, K>,
    org: u32,
    row: ObjectRow,
    change: &Option<JobRow>,
) -> Result<Layout, StoreFail>
    ensures finds { DraftTells K.state draft.old draft.new
        → FindsIn org (layout_by org row change.now) (tables_of K.state draft.old) result }
    ensures calls { Calls K.state 0 (ended result) draft.old draft.new }
{
    draft_laws::<K>();
    call_laws::<K>();
    let fields = fields_of(alloc, draft, org, row.object)?;
    let job = job_on(alloc, change, row.object)?;
    Ok(Layout {
        org,
        object: row.object,
        name: row.name,
        access: row.access.access,
        hierarchy: row.access.hierarchy,
        fields,
        job,
    })
}

// The rows of the objects of an organisation. It has at most 100.
fn objects_of<K: Keeper>(
    alloc: Global,
    draft: &mut Draft<'_, K>,
    org: u32,
) -> Result<Vec<ObjectRow>, StoreFail>
    ensures finds { DraftTells K.state draft.old draft.new
        → ListsIn org (object_rows org) (tables_of K.state draft.old) result }
    ensures calls { Calls K.state 0 (ended result) draft.old draft.new }
{
    local_laws();
    listing_laws::<ObjectRow>();
    table_laws();
    shape_laws();
    page_under(alloc, draft, &org, None, 101)
}

// The first row with this name.
fn row_named(rows: Vec<ObjectRow>, name: &str) -> Option<ObjectRow>
    ensures { result ≡ row_named (chars name.now) rows.items }
{
    rows.into_iter()
        .find(|row| same_name(row.name.as_str(), name))
}

// The layout of an object, if there is one, from its row.
fn layout_of_found<K: Keeper>(
    alloc: Global,
    draft: &mut Draft<'_, K>,
    org: u32,
    row: Option<ObjectRow>,
) -> Result<Option<Layout>, StoreFail>
    ensures finds { DraftTells K.state draft.old draft.new
        → FindsIn org (layout_by_found org row) (tables_of K.state draft.old) result }
    ensures calls { Calls K.state 0 (ended result) draft.old draft.new }
{
    draft_laws::<K>();
    call_laws::<K>();
    match row {
        None => Ok(None),
        Some(row) => {
            let change = change_row(alloc, draft, org)?;
            match layout_of_row(alloc, draft, org, row, &change) {
                Ok(layout) => Ok(Some(layout)),
                Err(fail) => Err(fail),
            }
        }
    }
}

/// The layout of the object with this number, if there is one.
///
/// # Errors
///
/// `Keeper` if the keeper failed, `Memory` if out of memory, `Damaged` never if the organisation's rows stand for a tenant or
/// for none.
pub fn layout_at<K: Keeper>(
    alloc: Global,
    draft: &mut Draft<'_, K>,
    org: u32,
    object: u16,
) -> Result<Option<Layout>, StoreFail>
    ensures finds { DraftTells K.state draft.old draft.new
        → FindsIn org (own_layout org object) (tables_of K.state draft.old) result }
    ensures calls { Calls K.state 0 (ended result) draft.old draft.new }
{
    draft_laws::<K>();
    key_laws();
    table_laws();
    row_laws::<ObjectRow>();
    call_laws::<K>();
    let row = row_at::<ObjectRow, K>(alloc, draft, &(org, object))?;
    layout_of_found(alloc, draft, org, row)
}

/// The layout of the object with this name, whatever the case of its ASCII letters, if there is one.
///
/// # Errors
///
/// `Keeper` if the keeper failed, `Memory` if out of memory, `Damaged` never if the organisation's rows stand for a tenant or
/// for none.
pub fn layout_named<K: Keeper>(
    alloc: Global,
    draft: &mut Draft<'_, K>,
    org: u32,
    name: &str,
) -> Result<Option<Layout>, StoreFail>
    ensures finds { DraftTells K.state draft.old draft.new
        → FindsIn org (own_layout_named org (chars name.now)) (tables_of K.state draft.old) result }
    ensures calls { Calls K.state 0 (ended result) draft.old draft.new }
{
    draft_laws::<K>();
    call_laws::<K>();
    let rows = objects_of(alloc, draft, org)?;
    let row = row_named(rows, name);
    layout_of_found(alloc, draft, org, row)
}

// The layouts of objects, from their rows and that of the change.
fn layouts_of_rows<K: Keeper>(
    alloc: Global,
    draft: &mut Draft<'_, K>,
    org: u32,
    rows: Vec<ObjectRow>,
    change: &Option<JobRow>,
) -> Result<Items<Layout>, StoreFail>
    ensures finds { DraftTells K.state draft.old draft.new
        → FindsIn org (layouts_by org rows.items change.now) (tables_of K.state draft.old) result }
    ensures calls { Calls K.state 0 (ended result) draft.old draft.new }
{
    draft_laws::<K>();
    call_laws::<K>();
    let mut all = Items::new(alloc);
    for row in rows {
        let layout = layout_of_row(alloc, draft, org, row, change)?;
        all.push(layout)?;
    }
    Ok(all)
}

/// The layouts of all objects of an organisation, in the order of their numbers.
///
/// # Errors
///
/// `Keeper` if the keeper failed, `Memory` if out of memory, `Damaged` never if the organisation's rows stand for a tenant or
/// for none.
pub fn layouts<K: Keeper>(
    alloc: Global,
    draft: &mut Draft<'_, K>,
    org: u32,
) -> Result<Items<Layout>, StoreFail>
    ensures finds { DraftTells K.state draft.old draft.new
        → FindsIn org (own_layouts org) (tables_of K.state draft.old) result }
    ensures calls { Calls K.state 0 (ended result) draft.old draft.new }
{
    draft_laws::<K>();
    call_laws::<K>();
    let change = change_row(alloc, draft, org)?;
    let rows = objects_of(alloc, draft, org)?;
    layouts_of_rows(alloc, draft, org, rows, &change)
}

//! The relationships to an object's records.

ghost use Rattle.std.specs.Prelude.{◌≡◌, IfOk, filter, map};
ghost use Rattle.std.specs.Str.{chars};
ghost use Rattle.api_read.specs.inner.DescribedLayouts.{child_by, children_by, children_of, is_child};
ghost use Rattle.base_json_tree.specs.Words.{list};

use crate::describe::kinds::{is_master, is_restricted, target_of};
use base_json::Json;
use base_json_tree::{Members, or_null_text};
use base_value::Items;
use std::alloc::{AllocError, Global};
use store_abstraction::{FieldPlace, Layout};

// Whether a field refers to the object with this number.
fn is_child(field: &FieldPlace, object: u16) -> bool
    ensures { result ≡ is_child object field.now }
{
    match target_of(&field.kind) {
        Some(target) => target == object,
        None => false,
    }
}

// A reference of the object with this name.
fn child(alloc: Global, object: &str, field: &FieldPlace) -> Result<Json, AllocError>
    ensures { IfOk result (λ v. v ≡ child_by (chars object.now) field.now) }
{
    let mut members = Members::new(alloc);
    members.text(alloc, "childSObject", object)?;
    members.text(alloc, "field", field.name.as_str())?;
    members.put(
        alloc,
        "relationshipName",
        or_null_text(alloc, &field.child)?,
    )?;
    members.truth(alloc, "cascadeDelete", is_master(&field.kind))?;
    members.truth(alloc, "restrictedDelete", is_restricted(&field.kind))?;
    Ok(members.finish())
}

// Those among the fields of the object with this name that refer to the object with this number.
fn child_list(
    alloc: Global,
    name: &str,
    fields: &[FieldPlace],
    object: u16,
) -> Result<Items<Json>, AllocError>
    ensures { IfOk result (λ all. all ≡ map (child_by (chars name.now)) (filter (is_child object) fields.now)) }
{
    let mut all = Items::new(alloc);
    for field in fields {
        if is_child(field, object) {
            all.push(child(alloc, name, field)?)?;
        }
    }
    Ok(all)
}

// The same by the layout.
fn children_in(alloc: Global, layout: &Layout, object: u16) -> Result<Items<Json>, AllocError>
    ensures { IfOk result (λ all. all ≡ children_of object layout.now) }
{
    child_list(
        alloc,
        layout.name.as_str(),
        layout.fields.as_slice(),
        object,
    )
}

/// Those of all objects, by their layouts.
pub(crate) fn children(alloc: Global, layouts: &[Layout], object: u16) -> Result<Json, AllocError>
    ensures { IfOk result (λ v. v ≡ list (children_by object layouts.now)) }
{
    let mut all = Items::new(alloc);
    for layout in layouts {
        all.append(children_in(alloc, layout, object)?)?;
    }
    Ok(Json::List(all))
}

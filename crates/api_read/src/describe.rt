//! Objects as they are described.

ghost use Rattle.std.specs.Prelude.{◌≡◌, IfOk, Ok, Some, map};
ghost use Rattle.std.specs.List.{find};
ghost use Rattle.std.specs.Option.{option_copied};
ghost use Rattle.std.specs.Str.{chars};
ghost use Rattle.api_read.specs.Tells.{TellsOf, TellsSo};
ghost use Rattle.api_read.specs.inner.DescribedLayouts.{description_by, object_by, objects_by, summary_by, told_by};
ghost use Rattle.base_json_tree.specs.Words.{list, object};
ghost use Rattle.model.specs.Fields.{same_name};
ghost use Rattle.model_reads.specs.DescribeJson.{object_json, objects_json};
ghost use Rattle.model_reads.specs.Reads.{description_told};
ghost use Rattle.model_reads.specs.Told.{of_object};
ghost use Rattle.store_abstraction.specs.Calls.{Calls, ended_edit, fell};
ghost use Rattle.store_kv.specs.Draft.{DraftTells, tables_of};

mod children;
mod fields;
mod kinds;
mod summary;
mod texts;

use crate::describe::children::children;
use crate::describe::fields::fields;
use crate::describe::summary::summary;
use base_json::Json;
use base_json_tree::Members;
use base_value::{Items, Text};
use model::same_name;
use std::alloc::{AllocError, Global};
use store_abstraction::{EditFail, Layout, call_laws, layouts};
use store_edit::{invalid_type, layout_there};
use store_kv::{Draft, Keeper};
use store_rows::StoreFail;

// ---- in short

// An object in short.
fn in_short(alloc: Global, layout: &Layout) -> Result<Json, AllocError>
    ensures { IfOk result (λ v. v ≡ object (summary_by layout.now)) }
{
    let members = summary(alloc, layout)?;
    Ok(members.finish())
}

// Each of these objects in short, in their order.
fn summaries(alloc: Global, layouts: &[Layout]) -> Result<Json, AllocError>
    ensures { IfOk result (λ v. v ≡ list (map (λ l. object (summary_by l)) layouts.now)) }
{
    let mut all = Items::new(alloc);
    for layout in layouts {
        all.push(in_short(alloc, layout)?)?;
    }
    Ok(Json::List(all))
}

fn objects_value(alloc: Global, layouts: &[Layout]) -> Result<Json, AllocError>
    ensures { IfOk result (λ v. v ≡ objects_by layouts.now) }
{
    let mut members = Members::new(alloc);
    members.text(alloc, "encoding", "UTF-8")?;
    members.number(alloc, "maxBatchSize", 1)?;
    members.put(alloc, "sobjects", summaries(alloc, layouts)?)?;
    Ok(members.finish())
}

fn objects_told(alloc: Global, layouts: &[Layout]) -> Result<Json, EditFail>
    ensures value { TellsSo (Ok (objects_by layouts.now)) result }
    ensures kept { ended_edit result ≡ fell → ⊥ }
{
    match objects_value(alloc, layouts) {
        Ok(value) => Ok(value),
        Err(_) => Err(EditFail::Store(StoreFail::Memory)),
    }
}

/// All objects, each in short.
pub(crate) fn objects<K: Keeper>(
    alloc: Global,
    draft: &mut Draft<'_, K>,
    org: u32,
) -> Result<Json, EditFail>
    ensures tells { DraftTells K.state draft.old draft.new
        → TellsOf org (λ t. Ok (objects_json t)) (tables_of K.state draft.old) result }
    ensures calls { Calls K.state 0 (ended_edit result) draft.old draft.new }
{
    call_laws::<K>();
    match layouts(alloc, draft, org) {
        Ok(layouts) => objects_told(alloc, layouts.as_slice()),
        Err(fail) => Err(EditFail::Store(fail)),
    }
}

fn object_value(alloc: Global, layout: &Layout) -> Result<Json, AllocError>
    ensures { IfOk result (λ v. v ≡ object_by layout.now) }
{
    let mut members = Members::new(alloc);
    members.put(alloc, "objectDescribe", in_short(alloc, layout)?)?;
    members.put(alloc, "recentItems", Json::List(Items::new(alloc)))?;
    Ok(members.finish())
}

fn object_told(alloc: Global, layout: &Layout) -> Result<Json, EditFail>
    ensures value { TellsSo (Ok (object_by layout.now)) result }
    ensures kept { ended_edit result ≡ fell → ⊥ }
{
    match object_value(alloc, layout) {
        Ok(value) => Ok(value),
        Err(_) => Err(EditFail::Store(StoreFail::Memory)),
    }
}

/// The object with this name, in short.
pub(crate) fn object_named<K: Keeper>(
    alloc: Global,
    draft: &mut Draft<'_, K>,
    org: u32,
    name: &Text,
) -> Result<Json, EditFail>
    ensures tells { DraftTells K.state draft.old draft.new
        → TellsOf org (λ t. of_object t name.now (λ o. Ok (object_json o))) (tables_of K.state draft.old) result }
    ensures calls { Calls K.state 0 (ended_edit result) draft.old draft.new }
{
    call_laws::<K>();
    match layout_there(alloc, draft, org, name) {
        Ok(layout) => object_told(alloc, &layout),
        Err(fail) => Err(fail),
    }
}

// ---- the whole

// The layout of the object with this name.
fn layout_called<'a>(layouts: &'a [Layout], name: &str) -> Option<&'a Layout>
    ensures { option_copied result ≡ find (λ l. same_name l.name (chars name.now)) layouts.now }
{
    layouts
        .iter()
        .find(|layout| same_name(layout.name.as_str(), name))
}

fn description_value(alloc: Global, layouts: &[Layout], layout: &Layout) -> Result<Json, AllocError>
    ensures { IfOk result (λ v. v ≡ description_by layouts.now layout.now) }
{
    let mut members = summary(alloc, layout)?;
    members.put(alloc, "fields", fields(alloc, layouts, layout)?)?;
    members.put(
        alloc,
        "childRelationships",
        children(alloc, layouts, layout.object)?,
    )?;
    Ok(members.finish())
}

// What is told of an object, if it is one.
fn described(alloc: Global, layouts: &[Layout], layout: &Layout) -> Result<Json, EditFail>
    ensures value { TellsSo (Ok (description_by layouts.now layout.now)) result }
    ensures kept { ended_edit result ≡ fell → ⊥ }
{
    match description_value(alloc, layouts, layout) {
        Ok(value) => Ok(value),
        Err(_) => Err(EditFail::Store(StoreFail::Memory)),
    }
}

// What is told of the object with this name, by the layouts of all objects.
fn told_by(alloc: Global, layouts: &[Layout], name: &Text) -> Result<Json, EditFail>
    ensures value { TellsSo (told_by layouts.now name.now) result }
    ensures kept { ended_edit result ≡ fell → ⊥ }
{
    match layout_called(layouts, name.as_str()) {
        Some(layout) => described(alloc, layouts, layout),
        None => match invalid_type(alloc, name) {
            Ok(refusal) => Err(EditFail::Refused(refusal)),
            Err(_) => Err(EditFail::Store(StoreFail::Memory)),
        },
    }
}

/// The description of the object with this name.
pub(crate) fn description<K: Keeper>(
    alloc: Global,
    draft: &mut Draft<'_, K>,
    org: u32,
    name: &Text,
) -> Result<Json, EditFail>
    ensures tells { DraftTells K.state draft.old draft.new
        → TellsOf org (λ t. description_told t name.now) (tables_of K.state draft.old) result }
    ensures calls { Calls K.state 0 (ended_edit result) draft.old draft.new }
{
    call_laws::<K>();
    match layouts(alloc, draft, org) {
        Ok(layouts) => told_by(alloc, layouts.as_slice(), name),
        Err(fail) => Err(EditFail::Store(fail)),
    }
}

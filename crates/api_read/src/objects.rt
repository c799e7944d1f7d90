//! What is set of objects, and their validation rules.

ghost use Rattle.std.specs.Prelude.{◌≡◌, IfOk, Ok, Some, map};
ghost use Rattle.std.specs.Str.{chars};
ghost use Rattle.api_read.specs.Tells.{TellsOf, TellsSo};
ghost use Rattle.api_read.specs.inner.Settings.{rule_by_row, rule_texts, rules_by_rows, settings_by_row, settings_by_rows};
ghost use Rattle.base_json_tree.specs.Words.{list};
ghost use Rattle.model.specs.Tenant.{Tenant};
ghost use Rattle.model_reads.specs.SettingsJson.{access_name, settings_json, validation_rules_json};
ghost use Rattle.model_reads.specs.Told.{of_object};
ghost use Rattle.schema_rules.specs.Rows.{rule_rows};
ghost use Rattle.store_abstraction.specs.Calls.{Calls, ended, ended_edit, fell};
ghost use Rattle.store_abstraction.specs.Layouts.{IsLayout};
ghost use Rattle.store_abstraction.specs.Local.{StandsIn};
ghost use Rattle.store_abstraction.specs.Plan.{OrgPlan};
ghost use Rattle.store_abstraction.specs.inner.LayoutRows.{ListsIn, object_rows};
ghost use Rattle.store_kv.specs.Draft.{DraftTells, tables_of};

use base_json::Json;
use base_json_tree::Members;
use base_value::{Access, Items, Text};
use schema_rules::rules_of;
use std::alloc::{AllocError, Global};
use store_abstraction::{EditFail, Layout, call_laws, local_laws};
use store_codec::shape_laws;
use store_edit::layout_there;
use store_kv::{Draft, Keeper};
use store_rows::{ObjectRow, StoreFail, ValidationRow, listing_laws, page_under, table_laws};

// The most objects of an organisation, by the limits of `model`.
const MOST_OBJECTS: usize = 100;

// ---- objects

// The rows of an organisation's objects, in the order of their numbers.
fn object_rows<K: Keeper>(
    alloc: Global,
    draft: &mut Draft<'_, K>,
    org: u32,
) -> Result<Vec<ObjectRow>, StoreFail>
    ensures finds { DraftTells K.state draft.old draft.new
        → ListsIn org (object_rows org) (tables_of K.state draft.old) result }
    ensures calls { Calls K.state 0 (ended result) draft.old draft.new }
{
    local_laws();
    listing_laws::<ObjectRow>();
    table_laws();
    shape_laws();
    page_under(alloc, draft, &org, None, MOST_OBJECTS + 1)
}

// The word for what every user may do with an object's records.
fn access_name(access: Access) -> &'static str
    ensures { chars result.now ≡ access_name access }
{
    match access {
        Access::Private => "Private",
        Access::Read => "Read",
        Access::ReadWrite => "ReadWrite",
        Access::ControlledByParent => "ControlledByParent",
    }
}

// An object, and how much it has.
fn object_value(alloc: Global, row: &ObjectRow) -> Result<Json, AllocError>
    ensures { IfOk result (λ v. v ≡ settings_by_row row.now) }
{
    let mut members = Members::new(alloc);
    members.text(alloc, "name", row.name.as_str())?;
    members.text(alloc, "access", access_name(row.access.access))?;
    members.truth(alloc, "hierarchy", row.access.hierarchy)?;
    members.number(alloc, "records", u64::from(row.records))?;
    members.number(alloc, "fields", u64::from(row.fields))?;
    members.number(alloc, "validationRules", u64::from(row.validation_rules))?;
    Ok(members.finish())
}

// All of them, in their order.
fn object_list(alloc: Global, rows: &[ObjectRow]) -> Result<Json, AllocError>
    ensures { IfOk result (λ v. v ≡ list (map settings_by_row rows.now)) }
{
    let mut all = Items::new(alloc);
    for row in rows {
        all.push(object_value(alloc, row)?)?;
    }
    Ok(Json::List(all))
}

// The object with these.
fn settings_value(alloc: Global, rows: &[ObjectRow]) -> Result<Json, AllocError>
    ensures { IfOk result (λ v. v ≡ settings_by_rows rows.now) }
{
    let mut members = Members::new(alloc);
    members.put(alloc, "objects", object_list(alloc, rows)?)?;
    Ok(members.finish())
}

// The same as what is told.
fn settings_told(alloc: Global, rows: &[ObjectRow]) -> Result<Json, EditFail>
    ensures value { TellsSo (Ok (settings_by_rows rows.now)) result }
    ensures kept { ended_edit result ≡ fell → ⊥ }
{
    match settings_value(alloc, rows) {
        Ok(value) => Ok(value),
        Err(_) => Err(EditFail::Store(StoreFail::Memory)),
    }
}

/// All objects, with what is set of them and how much they have.
pub(crate) fn object_settings<K: Keeper>(
    alloc: Global,
    draft: &mut Draft<'_, K>,
    org: u32,
) -> Result<Json, EditFail>
    ensures tells { DraftTells K.state draft.old draft.new
        → TellsOf org (λ t. Ok (settings_json t)) (tables_of K.state draft.old) result }
    ensures calls { Calls K.state 0 (ended_edit result) draft.old draft.new }
{
    call_laws::<K>();
    match object_rows(alloc, draft, org) {
        Ok(rows) => settings_told(alloc, rows.as_slice()),
        Err(fail) => Err(EditFail::Store(fail)),
    }
}

// ---- validation rules

// A rule of an object, by these texts.
fn rule_texts(
    alloc: Global,
    object: &str,
    name: &str,
    formula: &str,
    message: &str,
) -> Result<Json, AllocError>
    ensures { IfOk result (λ v. v ≡ rule_texts (chars object.now) (chars name.now) (chars formula.now) (chars message.now)) }
{
    let mut members = Members::new(alloc);
    members.text(alloc, "object", object)?;
    members.text(alloc, "name", name)?;
    members.text(alloc, "formula", formula)?;
    members.text(alloc, "message", message)?;
    Ok(members.finish())
}

// A rule of the object with this name.
fn rule_value(alloc: Global, object: &Text, row: &ValidationRow) -> Result<Json, AllocError>
    ensures { IfOk result (λ v. v ≡ rule_by_row object.now row.now) }
{
    rule_texts(
        alloc,
        object.as_str(),
        row.name.as_str(),
        row.formula.as_str(),
        row.message.as_str(),
    )
}

// Its rules, in their order.
fn rule_list(alloc: Global, object: &Text, rows: &[ValidationRow]) -> Result<Json, AllocError>
    ensures { IfOk result (λ v. v ≡ list (map (rule_by_row object.now) rows.now)) }
{
    let mut all = Items::new(alloc);
    for row in rows {
        all.push(rule_value(alloc, object, row)?)?;
    }
    Ok(Json::List(all))
}

// The object with these.
fn rules_value(alloc: Global, object: &Text, rows: &[ValidationRow]) -> Result<Json, AllocError>
    ensures { IfOk result (λ v. v ≡ rules_by_rows object.now rows.now) }
{
    let mut members = Members::new(alloc);
    members.put(alloc, "validationRules", rule_list(alloc, object, rows)?)?;
    Ok(members.finish())
}

// The same as what is told.
fn rules_told(alloc: Global, object: &Text, rows: &[ValidationRow]) -> Result<Json, EditFail>
    ensures value { TellsSo (Ok (rules_by_rows object.now rows.now)) result }
    ensures kept { ended_edit result ≡ fell → ⊥ }
{
    match rules_value(alloc, object, rows) {
        Ok(value) => Ok(value),
        Err(_) => Err(EditFail::Store(StoreFail::Memory)),
    }
}

// The validation rules of a layout's object.
fn rules_by_layout<K: Keeper>(
    alloc: Global,
    draft: &mut Draft<'_, K>,
    layout: &Layout,
) -> Result<Json, EditFail>
    ensures tells { DraftTells K.state draft.old draft.new
        → (q : OrgPlan) (t : Tenant) → StandsIn layout.now.org q (tables_of K.state draft.old) (Some t) → IsLayout q t layout.now
        → TellsSo (Ok (rules_by_rows layout.now.name (rule_rows layout.now.org layout.now.object t))) result }
    ensures calls { Calls K.state 0 (ended_edit result) draft.old draft.new }
{
    call_laws::<K>();
    match rules_of(alloc, draft, layout) {
        Ok(rows) => rules_told(alloc, &layout.name, rows.as_slice()),
        Err(fail) => Err(EditFail::Store(fail)),
    }
}

/// The validation rules of the object with this name.
pub(crate) fn validation_rules<K: Keeper>(
    alloc: Global,
    draft: &mut Draft<'_, K>,
    org: u32,
    object: &Text,
) -> Result<Json, EditFail>
    ensures tells { DraftTells K.state draft.old draft.new
        → TellsOf org (λ t. of_object t object.now (λ o. Ok (validation_rules_json o.object))) (tables_of K.state draft.old) result }
    ensures calls { Calls K.state 0 (ended_edit result) draft.old draft.new }
{
    call_laws::<K>();
    match layout_there(alloc, draft, org, object) {
        Ok(layout) => rules_by_layout(alloc, draft, &layout),
        Err(fail) => Err(fail),
    }
}

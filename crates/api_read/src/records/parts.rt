//! Records in JSON.

ghost use Rattle.std.specs.Prelude.{◌≡◌, ◌≤◌, [], ◌∷◌, ◌++◌, IfOk, OnOk, length, map};
ghost use Rattle.std.specs.Str.{chars};
ghost use Rattle.api_read.specs.Tells.{TellsSo};
ghost use Rattle.api_read.specs.inner.RecordParts.{asked_by, attributes_by, printed_json, printed_text, record_by, site_member};
ghost use Rattle.base_json_tree.specs.Words.{text};
ghost use Rattle.base_value.specs.Id.{print18};
ghost use Rattle.base_value.specs.Printing.{print_value};
ghost use Rattle.model.specs.Fields.{value_in};
ghost use Rattle.model.specs.RowsJson.{url};
ghost use Rattle.model_reads.specs.SettingsJson.{level_name};
ghost use Rattle.query_plan.specs.Checks.{site_of};
ghost use Rattle.store_abstraction.specs.Calls.{ended_edit, fell};

use crate::records::columns::sites_asked;
use crate::records::finding::Readable;
use base_json::{Json, Num};
use base_json_tree::Members;
use base_value::{Id, Level, Text, Value, print_value};
use model::Record;
use query_check::name_at;
use query_json::is_printable;
use query_plan::{HasValues, Site};
use std::alloc::{AllocError, Global};
use store_abstraction::{EditFail, Layout};

// The text of a value, as a value of JSON; null where it has none.
fn printed_text(alloc: Global, value: &Value) -> Result<Json, AllocError>
    ensures { IfOk result (λ v. v ≡ printed_text value.now) }
{
    if is_printable(value) {
        let text = print_value(alloc, value)?;
        Ok(Json::Text(text))
    } else {
        Ok(Json::Null)
    }
}

// A value that has a text; null for any other.
fn printed_json(alloc: Global, value: &Value) -> Result<Json, AllocError>
    ensures { IfOk result (λ v. v ≡ printed_json value.now) }
{
    match value {
        Value::Null => Ok(Json::Null),
        Value::Num(count) => Ok(Json::Number(Num::Exact(*count))),
        Value::Bool(truth) => Ok(Json::Bool(*truth)),
        Value::Text(_) => printed_text(alloc, value),
        Value::Day(_) => printed_text(alloc, value),
        Value::Moment(_) => printed_text(alloc, value),
        Value::Ref(_) => printed_text(alloc, value),
    }
}

// The value that a record has at a site.
fn value_json(alloc: Global, item: &Record, site: Site) -> Result<Json, AllocError>
    ensures { IfOk result (λ v. v ≡ printed_json (value_in (site_of site) item.now)) }
{
    match item.value_at(alloc, site) {
        Ok(value) => printed_json(alloc, &value),
        Err(_) => Err(AllocError),
    }
}

// One more field of a record.
fn put_site(
    alloc: Global,
    members: &mut Members,
    layout: &Layout,
    item: &Record,
    site: Site,
) -> Result<(), AllocError>
    ensures { OnOk result (members.new ≡ members.old ++ site_member layout.now item.now site ∷ []) }
{
    let value = value_json(alloc, item, site)?;
    members.put(alloc, name_at(layout, site), value)
}

// The fields of a record that it has at these sites.
fn put_sites(
    alloc: Global,
    members: &mut Members,
    layout: &Layout,
    item: &Record,
    sites: &[Site],
) -> Result<(), AllocError>
    ensures { OnOk result (members.new ≡ members.old ++ map (site_member layout.now item.now) sites.now) }
{
    for site in sites {
        put_site(alloc, members, layout, item, *site)?;
    }
    Ok(())
}

/// The name of a level.
pub(crate) fn level_name(level: Level) -> &'static str
    ensures { chars result.now ≡ level_name level }
{
    match level {
        Level::Nothing => "Nothing",
        Level::Read => "Read",
        Level::Edit => "Edit",
        Level::Full => "Full",
    }
}

/// An id in 18 characters, as a text.
pub(crate) fn id_text(alloc: Global, id: &Id) -> Result<Text, AllocError>
    ensures { IfOk result (λ t. t ≡ print18 id.now) }
{
    print_value(alloc, &Value::Ref(*id))
}

// The address of a record.
fn url(alloc: Global, object: &Text, id: &Id) -> Result<Text, AllocError>
    ensures { IfOk result (λ t. t ≡ url object.now id.now) }
{
    let id = id_text(alloc, id)?;
    let mut string = String::from_str(alloc, "/services/data/v59.0/sobjects/")?;
    string.push_str(object.as_str())?;
    string.push_str("/")?;
    string.push_str(id.as_str())?;
    Ok(Text::from_string(string))
}

// A record's type, its address, and this level on it.
fn attributes_json(
    alloc: Global,
    layout: &Layout,
    item: &Record,
    level: Level,
) -> Result<Json, AllocError>
    ensures { IfOk result (λ v. v ≡ attributes_by layout.now item.now level) }
{
    let address = url(alloc, &layout.name, &item.id)?;
    let mut members = Members::new(alloc);
    members.text(alloc, "type", layout.name.as_str())?;
    members.text(alloc, "url", address.as_str())?;
    members.text(alloc, "level", level_name(level))?;
    Ok(members.finish())
}

// A record with the fields that it has at these sites.
fn record_json(
    alloc: Global,
    layout: &Layout,
    item: &Record,
    level: Level,
    sites: &[Site],
) -> Result<Json, AllocError>
    ensures { IfOk result (λ v. v ≡ record_by layout.now item.now level sites.now) }
{
    let attributes = attributes_json(alloc, layout, item, level)?;
    let mut members = Members::new(alloc);
    members.put(alloc, "attributes", attributes)?;
    put_sites(alloc, &mut members, layout, item, sites)?;
    Ok(members.finish())
}

/// A record with the fields that a query string asks for.
///
/// # Errors
///
/// `Refused` with `InvalidField` if there is no field with one of the names, or one is named twice, `Store` with `Memory` if out of
/// memory.
pub(crate) fn record_asked(
    alloc: Global,
    layout: &Layout,
    readable: &Readable,
    pairs: &Text,
) -> Result<Json, EditFail>
    requires { length layout.now.fields ≤ 40 }
    ensures tells { TellsSo (asked_by layout.now pairs.now readable.now) result }
    ensures cause { ended_edit result ≡ fell → ⊥ }
{
    match sites_asked(alloc, layout, pairs) {
        Ok(sites) => {
            let item = &readable.kept.item;
            let value = record_json(alloc, layout, item, readable.level, sites.as_slice())?;
            Ok(value)
        }
        Err(fail) => Err(fail),
    }
}

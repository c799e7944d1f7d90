//! Where the fields that a record shows have their values.

ghost use Rattle.std.specs.Prelude.{◌≡◌, [], ◌++◌, ◌≤◌, IfOk, OnOk, Some, length};
ghost use Rattle.std.specs.List.{list_any};
ghost use Rattle.std.specs.Str.{chars};
ghost use Rattle.api_read.specs.inner.Columns.{FindsSites, first_sites, shown_sites, site_named, sites_asked, sites_named, value_sites};
ghost use Rattle.model.specs.Fields.{is_master, same_name};
ghost use Rattle.model_reads.specs.RecordJson.{fields_text};
ghost use Rattle.store_abstraction.specs.Calls.{ended_edit, fell};

use crate::records::fields::{fields_text, split_names};
use base_value::{FieldType, Items, Text, is_text};
use model::{Refusal, same_name};
use query_check::column_in;
use query_plan::Site;
use std::alloc::{AllocError, Global};
use store_abstraction::{EditFail, FieldPlace, Layout};

fn is_master(field: &FieldPlace) -> bool
    ensures { result ≡ is_master field.now.kind }
{
    matches!(&field.kind, FieldType::Master { .. })
}

// Whether one of these fields is the reference of a detail to its master.
fn has_master(fields: &[FieldPlace]) -> bool
    ensures { result ≡ list_any (λ f. is_master f.kind) fields.now }
{
    fields.iter().any(|field| is_master(field))
}

// The sites of the fields that every object has.
fn first_sites(alloc: Global, is_detail: bool) -> Result<Items<Site>, AllocError>
    ensures { IfOk result (λ sites. sites ≡ first_sites is_detail) }
{
    if is_detail {
        Items::from_slice(
            alloc,
            &[Site::Id, Site::Value(0), Site::Created, Site::Modified],
        )
    } else {
        Items::from_slice(
            alloc,
            &[
                Site::Id,
                Site::Owner,
                Site::Value(0),
                Site::Created,
                Site::Modified,
            ],
        )
    }
}

// Those of so many custom fields, behind these.
fn push_values(sites: &mut Items<Site>, count: usize) -> Result<(), AllocError>
    requires { count ≤ 40 }
    ensures { OnOk result (sites.new ≡ sites.old ++ value_sites count 0) }
{
    for number in 0..count {
        sites.push(Site::Value(number as u8 + 1))?;
    }
    Ok(())
}

// All of them, in the order in which a record shows them.
fn shown_sites(alloc: Global, layout: &Layout) -> Result<Items<Site>, AllocError>
    requires { length layout.now.fields ≤ 40 }
    ensures { IfOk result (λ sites. sites ≡ shown_sites layout.now) }
{
    let fields = layout.fields.as_slice();
    let mut sites = first_sites(alloc, has_master(fields))?;
    push_values(&mut sites, fields.len())?;
    Ok(sites)
}

// Whether one of these names is this one.
fn is_among(names: &[Text], name: &str) -> bool
    ensures { result ≡ list_any (same_name (chars name.now)) names.now }
{
    names.iter().any(|other| same_name(name, other.as_str()))
}

// The site of the field with this name, unless one of the names before is the same.
fn site_named(layout: &Layout, before: &[Text], name: &Text) -> Option<Site>
    ensures { result ≡ site_named layout.now before.now name.now }
{
    match column_in(layout, name.as_str()) {
        None => None,
        Some(column) => {
            if is_among(before, name.as_str()) {
                None
            } else {
                Some(column.site)
            }
        }
    }
}

// Those of the fields with these names.
fn sites_named(alloc: Global, layout: &Layout, names: &[Text]) -> Result<Items<Site>, EditFail>
    ensures finds { FindsSites (sites_named layout.now [] names.now) result }
    ensures cause { ended_edit result ≡ fell → ⊥ }
{
    let mut sites = Items::new(alloc);
    for (place, name) in names.iter().enumerate() {
        match site_named(layout, &names[..place], name) {
            Some(site) => sites.push(site)?,
            None => {
                let name = name.copy(alloc)?;
                return Err(EditFail::Refused(Refusal::InvalidField { name }));
            }
        }
    }
    Ok(sites)
}

// Those of the fields whose names stand between commas, and all of them where nothing is said.
fn sites_said(alloc: Global, layout: &Layout, text: &Text) -> Result<Items<Site>, EditFail>
    requires { length layout.now.fields ≤ 40 }
    ensures finds { FindsSites (sites_asked layout.now (Some text.now)) result }
    ensures cause { ended_edit result ≡ fell → ⊥ }
{
    if is_text(text, "") {
        let sites = shown_sites(alloc, layout)?;
        return Ok(sites);
    }
    let names = split_names(alloc, text.as_str())?;
    sites_named(alloc, layout, names.as_slice())
}

/// Where a record of this object has what a query string asks for.
///
/// # Errors
///
/// `Refused` with `InvalidField` if there is no field with one of the names, or one is named twice, `Store` with `Memory` if out of
/// memory.
pub(crate) fn sites_asked(
    alloc: Global,
    layout: &Layout,
    pairs: &Text,
) -> Result<Items<Site>, EditFail>
    requires { length layout.now.fields ≤ 40 }
    ensures finds { FindsSites (sites_asked layout.now (fields_text pairs.now)) result }
    ensures cause { ended_edit result ≡ fell → ⊥ }
{
    match fields_text(alloc, pairs)? {
        None => {
            let sites = shown_sites(alloc, layout)?;
            Ok(sites)
        }
        Some(text) => sites_said(alloc, layout, &text),
    }
}

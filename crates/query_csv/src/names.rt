//! The names that a query selects, as they are declared.

ghost use Rattle.std.specs.Prelude.{◌≡◌, ◌++◌, IfOk, codes, filter_map};
ghost use Rattle.std.specs.List.{list_any};
ghost use Rattle.std.specs.Option.{option_and_then, option_copied};
ghost use Rattle.std.specs.Str.{chars};
ghost use Rattle.model.specs.Cases.{in_case};
ghost use Rattle.model.specs.Fields.{is_master};
ghost use Rattle.query_bind.specs.Names.{relationship_name};
ghost use Rattle.query_csv.specs.Lines.{line};
ghost use Rattle.query_csv.specs.inner.Names as spec;

use crate::line::line_of;
use base_value::{FieldType, Text};
use model::same_name;
use query_bind::relationship_name;
use query_plan::{layout_in, parent_in};
use soql::{Item, Query};
use std::alloc::{AllocError, Global};
use store_abstraction::{FieldPlace, Layout};

// ---- fields

fn is_master(field: &FieldPlace) -> bool
    ensures { result ≡ is_master field.now.kind }
{
    match &field.kind {
        FieldType::Master { .. } => true,
        _ => false,
    }
}

fn is_detail(layout: &Layout) -> bool
    ensures { result ≡ list_any (λ f. is_master f.kind) layout.now.fields }
{
    layout
        .fields
        .as_slice()
        .iter()
        .any(|field| is_master(field))
}

// The custom field's name that is the same, or the name itself.
#[tactic(auto, unfolding(crate::specs::inner::Names::custom_name))]
fn custom_name<'a>(fields: &'a [FieldPlace], name: &'a str) -> &'a str
    ensures { chars result.now ≡ spec.custom_name fields.now (chars name.now) }
{
    for field in fields {
        if same_name(field.name.as_str(), name) {
            return field.name.as_str();
        }
    }
    name
}

// The name of a field as it is declared.
#[tactic(auto, unfolding(crate::specs::inner::Names::declared_name))]
fn declared_name<'a>(layout: &'a Layout, name: &'a str) -> &'a str
    ensures { chars result.now ≡ spec.declared_name layout.now (chars name.now) }
{
    let fields = layout.fields.as_slice();
    if same_name("Id", name) {
        "Id"
    } else if same_name("CreatedDate", name) {
        "CreatedDate"
    } else if same_name("LastModifiedDate", name) {
        "LastModifiedDate"
    } else if same_name("Name", name) {
        "Name"
    } else if is_detail(layout) {
        custom_name(fields, name)
    } else if same_name("OwnerId", name) {
        "OwnerId"
    } else {
        custom_name(fields, name)
    }
}

// ---- paths: from an object, or from where none is, so that names stay as they are

// The name of a field.
fn field_in<'a>(layout: Option<&'a Layout>, name: &'a str) -> &'a str
    ensures { chars result.now ≡ in_case (option_copied layout.entry) (chars name.now) (λ l. spec.declared_name l (chars name.now)) }
{
    match layout {
        Some(layout) => declared_name(layout, name),
        None => name,
    }
}

// The name of a relationship to a parent.
fn relationship_in(alloc: Global, layout: Option<&Layout>, name: &Text) -> Result<Text, AllocError>
    ensures { IfOk result (λ text. text ≡ in_case (option_copied layout.entry) name.now (λ l. relationship_name l name.now)) }
{
    match layout {
        Some(layout) => relationship_name(alloc, layout, name.as_str()),
        None => name.copy(alloc),
    }
}

// The layout of the object to which it leads.
fn layout_behind<'a>(
    layouts: &'a [Layout],
    layout: Option<&Layout>,
    name: &str,
) -> Option<&'a Layout>
    ensures { option_copied result ≡ option_and_then (λ l. spec.layout_behind layouts.now l (chars name.now)) (option_copied layout.entry) }
{
    let from = layout?;
    let step = parent_in(from, name)?;
    layout_in(layouts, step.target)
}

// A name, a dot and the names behind it.
fn joined(alloc: Global, name: &Text, more: &Text) -> Result<Text, AllocError>
    ensures { IfOk result (λ text. text ≡ name.now ++ codes "." ++ more.now) }
{
    let mut text = String::from_str(alloc, name.as_str())?;
    text.push_str(".")?;
    text.push_str(more.as_str())?;
    Ok(Text::from_string(text))
}

// The names of a path, with a dot between.
fn path_name(
    alloc: Global,
    layouts: &[Layout],
    layout: Option<&Layout>,
    names: &[Text],
) -> Result<Text, AllocError>
    ensures { IfOk result (λ text. text ≡ spec.path_by layouts.now (option_copied layout.entry) names.now) }
{
    match names {
        [] => Text::from_str(alloc, ""),
        [name] => Text::from_str(alloc, field_in(layout, name.as_str())),
        [name, rest @ ..] => {
            let first = relationship_in(alloc, layout, name)?;
            let behind = layout_behind(layouts, layout, name.as_str());
            let more = path_name(alloc, layouts, behind, rest)?;
            joined(alloc, &first, &more)
        }
    }
}

// ---- what is selected

// The cell of what is selected, if it is a path.
fn item_name(
    alloc: Global,
    layouts: &[Layout],
    layout: &Layout,
    item: &Item,
) -> Result<Option<Text>, AllocError>
    ensures { IfOk result (λ name. name ≡ spec.item_by layouts.now layout.now item.now) }
{
    match item {
        Item::Path(path) => Ok(Some(path_name(
            alloc,
            layouts,
            Some(layout),
            path.names.as_slice(),
        )?)),
        Item::Child { .. } => Ok(None),
    }
}

// The cells of what is selected.
fn selected_names(
    alloc: Global,
    layouts: &[Layout],
    layout: &Layout,
    items: &[Item],
) -> Result<Vec<Text>, AllocError>
    ensures { IfOk result (λ names. names.items ≡ filter_map (spec.item_by layouts.now layout.now) items.now) }
{
    let mut names = Vec::new(alloc);
    for item in items {
        if let Some(name) = item_name(alloc, layouts, layout, item)? {
            names.push(name)?;
        }
    }
    Ok(names)
}

/// The line of the names that a query of the layout's object selects.
///
/// # Errors
///
/// If out of memory.
pub(crate) fn names_line(
    alloc: Global,
    layouts: &[Layout],
    layout: &Layout,
    query: &Query,
) -> Result<Vec<u8>, AllocError>
    ensures { IfOk result (λ text. text.items ≡ line (filter_map (spec.item_by layouts.now layout.now) query.now.select)) }
{
    let names = selected_names(alloc, layouts, layout, query.select.as_slice())?;
    line_of(alloc, names.as_slice())
}

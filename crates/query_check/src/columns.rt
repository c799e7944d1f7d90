//! The fields of an object, by its layout.

ghost use Rattle.std.specs.Prelude.{◌≡◌, ◌+◌};
ghost use Rattle.std.specs.List.{list_any};
ghost use Rattle.std.specs.Str.{chars};
ghost use Rattle.model.specs.Fields.{is_master};
ghost use Rattle.query_check.specs.Columns as spec;

use base_value::FieldType;
use model::same_name;
use query_plan::Site;
use store_abstraction::{FieldPlace, Layout};

/// What a field holds, as far as it says with what the field may be compared.
#[derive(Clone, Copy, Debug, PartialEq, Eq)]
pub enum Family {
    /// Texts.
    Text,
    /// Listed texts.
    Picklist,
    /// Numbers.
    Number,
    /// Days.
    Day,
    /// Moments.
    Moment,
    /// Truth values.
    Truth,
    /// Ids.
    Ids,
}

/// A field of an object.
#[derive(Clone, Copy, Debug)]
pub struct Column {
    /// What it holds.
    pub family: Family,
    /// Where a record has it.
    pub site: Site,
}

fn family_of(kind: &FieldType) -> Family
    ensures { result ≡ spec.family_of_type kind.now }
{
    match kind {
        FieldType::Text(_) => Family::Text,
        FieldType::Number { .. } => Family::Number,
        FieldType::Checkbox => Family::Truth,
        FieldType::Day => Family::Day,
        FieldType::Moment => Family::Moment,
        FieldType::Picklist(_) => Family::Picklist,
        FieldType::Lookup { .. } => Family::Ids,
        FieldType::Master { .. } => Family::Ids,
    }
}

fn is_master(field: &FieldPlace) -> bool
    ensures { result ≡ is_master field.now.kind }
{
    match &field.kind {
        FieldType::Master { .. } => true,
        _ => false,
    }
}

fn is_detail(layout: &Layout) -> bool
    ensures { result ≡ list_any (λ f. is_master f.kind) layout.now.fields }
{
    layout
        .fields
        .as_slice()
        .iter()
        .any(|field| is_master(field))
}

// A position among the values; objects have too few fields for positions past the last.
fn value_site(position: usize) -> Site
    ensures { result ≡ spec.value_place position }
{
    if position < 256 {
        Site::Value(position as u8)
    } else {
        Site::Value(255)
    }
}

// The custom field with this name.
#[tactic(auto, unfolding(crate::specs::Columns::custom_in))]
fn custom_in(fields: &[FieldPlace], name: &str) -> Option<Column>
    ensures { result ≡ spec.custom_in 0 fields.now (chars name.now) }
{
    for (number, field) in fields.iter().enumerate() {
        if same_name(field.name.as_str(), name) {
            return Some(Column {
                family: family_of(&field.kind),
                site: value_site(number + 1),
            });
        }
    }
    None
}

/// The field of an object with this name, whatever the case of its ASCII letters.
#[tactic(auto, unfolding(crate::specs::Columns::column_in))]
pub fn column_in(layout: &Layout, name: &str) -> Option<Column>
    ensures { result ≡ spec.column_in layout.now (chars name.now) }
{
    let fields = layout.fields.as_slice();
    if same_name("Id", name) {
        Some(Column {
            family: Family::Ids,
            site: Site::Id,
        })
    } else if same_name("CreatedDate", name) {
        Some(Column {
            family: Family::Moment,
            site: Site::Created,
        })
    } else if same_name("LastModifiedDate", name) {
        Some(Column {
            family: Family::Moment,
            site: Site::Modified,
        })
    } else if same_name("Name", name) {
        Some(Column {
            family: Family::Text,
            site: Site::Value(0),
        })
    } else if is_detail(layout) {
        custom_in(fields, name)
    } else if same_name("OwnerId", name) {
        Some(Column {
            family: Family::Ids,
            site: Site::Owner,
        })
    } else {
        custom_in(fields, name)
    }
}

// The name of the custom field whose value is at this position.
fn custom_name(fields: &[FieldPlace], position: u8) -> &str
    ensures { chars result.now ≡ spec.custom_name fields.now position }
{
    match fields.get(usize::from(position).saturating_sub(1)) {
        Some(field) => field.name.as_str(),
        None => "",
    }
}

/// The name of the field whose value is at a site, as it is declared.
pub fn name_at(layout: &Layout, site: Site) -> &str
    ensures { chars result.now ≡ spec.name_at layout.now site }
{
    match site {
        Site::Id => "Id",
        Site::Owner => "OwnerId",
        Site::Created => "CreatedDate",
        Site::Modified => "LastModifiedDate",
        Site::Value(position) => {
            if position == 0 {
                "Name"
            } else {
                custom_name(layout.fields.as_slice(), position)
            }
        }
    }
}

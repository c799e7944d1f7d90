//! The fields of an object by their names, with those that every object has.

ghost use Rattle.std.specs.Prelude.{◌≡◌, true, false};
ghost use Rattle.std.specs.List.{find, list_any};
ghost use Rattle.std.specs.Option.{option_map};
ghost use Rattle.std.specs.Str.{chars};
ghost use Rattle.schema_rules.specs.Objects.{object_of_layout};
ghost use Rattle.record_input.specs.Columns.{seen, shown};
ghost use Rattle.record_input.specs.inner.Columns.{custom_seen, writable_named};
ghost use Rattle.model.specs.Fields.{column_named, is_detail, is_master, same_name};

use base_value::FieldType;
use model::same_name;
use store_abstraction::{FieldPlace, Layout};

/// A field's name as it is declared, and whether an edit may give it.
#[derive(Drop)]
pub struct Column<'a> {
    /// The name.
    pub name: &'a str,
    /// Whether an edit may give it.
    pub is_writable: bool,
}

/// Whether a type is the reference of a detail to its master.
pub(crate) fn is_master(kind: &FieldType) -> bool
    ensures { result ≡ is_master kind.now }
{
    matches!(kind, FieldType::Master { .. })
}

fn has_master(fields: &[FieldPlace]) -> bool
    ensures { result ≡ list_any (λ f. is_master f.kind) fields.now }
{
    fields.iter().any(|field| is_master(&field.kind))
}

/// Whether an object has a Master field.
#[tactic(auto, using(crate::proofs::Spelled::detail_is))]
pub(crate) fn is_detail(layout: &Layout) -> bool
    ensures { result ≡ is_detail (object_of_layout layout.now) }
{
    has_master(layout.fields.as_slice())
}

// The first of these fields that has the name.
fn place_named<'a>(fields: &'a [FieldPlace], name: &str) -> Option<&'a FieldPlace>
    ensures { option_map (λ f. f.now) result ≡ find (λ f. same_name f.name (chars name.now)) fields.now }
{
    fields
        .iter()
        .find(|field| same_name(field.name.as_str(), name))
}

// A field that an edit may give.
fn writable(name: &str) -> Column<'_>
    ensures { shown result ≡ (chars name.now, true) }
{
    Column {
        name,
        is_writable: true,
    }
}

// A field that no edit gives.
fn unwritable(name: &str) -> Column<'_>
    ensures { shown result ≡ (chars name.now, false) }
{
    Column {
        name,
        is_writable: false,
    }
}

// The custom field with this name.
fn custom_named<'a>(layout: &'a Layout, name: &str) -> Option<Column<'a>>
    ensures { option_map shown result ≡ custom_seen (object_of_layout layout.now).fields (chars name.now) }
{
    match place_named(layout.fields.as_slice(), name) {
        None => None,
        Some(field) => Some(writable(field.name.as_str())),
    }
}

// The field with this name among those that an edit may give.
#[tactic(auto, using(crate::proofs::Names::name_text, crate::proofs::Names::owner_text))]
fn writable_named<'a>(layout: &'a Layout, name: &str) -> Option<Column<'a>>
    ensures { option_map shown result ≡ writable_named (object_of_layout layout.now) (chars name.now) }
{
    if same_name("Name", name) {
        Some(writable("Name"))
    } else if same_name("OwnerId", name) && !is_detail(layout) {
        Some(writable("OwnerId"))
    } else {
        custom_named(layout, name)
    }
}

/// The field with this name, whatever the case of its letters, if the object has one.
pub fn column_named<'a>(layout: &'a Layout, name: &str) -> Option<Column<'a>>
    ensures { option_map shown result ≡ option_map seen (column_named (object_of_layout layout.now) (chars name.now)) }
{
    if same_name("Id", name) {
        Some(unwritable("Id"))
    } else if same_name("CreatedDate", name) {
        Some(unwritable("CreatedDate"))
    } else if same_name("LastModifiedDate", name) {
        Some(unwritable("LastModifiedDate"))
    } else {
        writable_named(layout, name)
    }
}

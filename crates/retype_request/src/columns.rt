//! The fields of an object by their names, with those that every object has.

ghost use Rattle.std.specs.Prelude.{◌≡◌, ◌≤◌, ◌+◌, ◌&&◌, IfOk, codes, length, not};
ghost use Rattle.std.specs.List.{list_any};
ghost use Rattle.std.specs.Option.{option_map};
ghost use Rattle.std.specs.Str.{chars};
ghost use Rattle.model.specs.Fields.{column_named, is_master, same_name};
ghost use Rattle.retype_request.specs.inner.Columns.{custom_from, field_by, named_by, system_name};
ghost use Rattle.schema_rules.specs.Objects.{object_of_layout};

use base_value::{FieldType, Text};
use model::same_name;
use std::alloc::{AllocError, Global};
use store_abstraction::{FieldPlace, Layout};

/// A field that an object has.
#[derive(Drop)]
pub(crate) struct NamedField {
    /// Its name, as declared.
    pub name: Text,
    /// Its number among the custom fields, if it is one.
    pub custom: Option<u8>,
}

// Whether a field is a detail's reference to its master.
fn is_master(field: &FieldPlace) -> bool
    ensures { result ≡ is_master field.now.kind }
{
    matches!(field.kind, FieldType::Master { .. })
}

// Whether one of the fields is such.
fn has_master(fields: &[FieldPlace]) -> bool
    ensures { result ≡ list_any (λ f. is_master f.kind) fields.now }
{
    fields.iter().any(|field| is_master(field))
}

// Whether it is the name of the owner, whom details don't have.
#[tactic(auto, using(crate::proofs::Texts::owner_text))]
fn is_owner(is_detail: bool, name: &str) -> bool
    ensures { result ≡ (same_name (codes "OwnerId") (chars name.now) && not is_detail) }
{
    same_name("OwnerId", name) && !is_detail
}

// The name, as declared, of the field with this name that objects have beside custom ones. Details have no owner.
#[tactic(auto, using(crate::proofs::Texts::id_text, crate::proofs::Texts::created_text))]
fn system_name(is_detail: bool, name: &str) -> Option<&'static str>
    ensures { option_map (λ s. chars s.now) result ≡ system_name is_detail (chars name.now) }
{
    if same_name("Id", name) {
        Some("Id")
    } else if same_name("CreatedDate", name) {
        Some("CreatedDate")
    } else if same_name("LastModifiedDate", name) {
        Some("LastModifiedDate")
    } else if same_name("Name", name) {
        Some("Name")
    } else if is_owner(is_detail, name) {
        Some("OwnerId")
    } else {
        None
    }
}

// The first of these custom fields with this name; the first of them has the number `from`.
fn custom_named(
    alloc: Global,
    fields: &[FieldPlace],
    name: &str,
    from: u8,
) -> Result<Option<NamedField>, AllocError>
    requires { from + length fields.now ≤ 255 }
    ensures { IfOk result (λ found. found ≡ custom_from (chars name.now) from fields.now) }
{
    let Some((field, rest)) = fields.split_first() else {
        return Ok(None);
    };
    if same_name(field.name.as_str(), name) {
        Ok(Some(NamedField {
            name: field.name.copy(alloc)?,
            custom: Some(from),
        }))
    } else {
        custom_named(alloc, rest, name, from + 1)
    }
}

// The field with this name, of an object with these custom fields.
fn named_among(
    alloc: Global,
    fields: &[FieldPlace],
    name: &str,
) -> Result<Option<NamedField>, AllocError>
    requires { length fields.now ≤ 40 }
    ensures { IfOk result (λ found. found ≡ field_by (list_any (λ f. is_master f.kind) fields.now) fields.now (chars name.now)) }
{
    match system_name(has_master(fields), name) {
        None => custom_named(alloc, fields, name, 0),
        Some(system) => Ok(Some(NamedField {
            name: Text::from_str(alloc, system)?,
            custom: None,
        })),
    }
}

/// The field with this name, whatever the case of its letters, if the object has one.
///
/// # Errors
///
/// When out of memory.
pub(crate) fn field_named(
    alloc: Global,
    layout: &Layout,
    name: &Text,
) -> Result<Option<NamedField>, AllocError>
    requires { length layout.now.fields ≤ 40 }
    ensures { IfOk result (λ found. found ≡ option_map named_by (column_named (object_of_layout layout.now) name.now)) }
{
    named_among(alloc, layout.fields.as_slice(), name.as_str())
}

//! The fields of an object, standard and custom, as they are described.

ghost use Rattle.std.specs.Prelude.{◌≡◌, ◌++◌, [], ◌∷◌, ◌==◌, ◌||◌, None, Some, IfOk, OnOk, false, map, not, true};
ghost use Rattle.std.specs.List.{find, list_any};
ghost use Rattle.std.specs.Option.{option_copied};
ghost use Rattle.std.specs.Str.{chars};
ghost use Rattle.api_read.specs.inner.DescribedLayouts.{field_by, fields_by, flag_members, head_members, later_described, name_in};
ghost use Rattle.base_json_tree.specs.Words.{list, or_null, text, texts};
ghost use Rattle.model.specs.Cases.{in_case};
ghost use Rattle.model.specs.Fields.{is_master};
ghost use Rattle.model.specs.Relationships.{parent_name, target_of};
ghost use Rattle.model_reads.specs.DescribeJson.{field_json, is_truth, owner_described, picklist_json, standard, standard_described, values_of};
ghost use Rattle.schema_rules.specs.Objects.{object_of_layout};

use crate::describe::kinds::{
    characters_of, decimals_of, digits_of, is_filled, is_master, target_of, type_word,
};
use crate::describe::texts::parent_name;
use base_json::Json;
use base_json_tree::{Members, text_json};
use base_value::{FieldType, Items, Text};
use std::alloc::{AllocError, Global};
use store_abstraction::{FieldPlace, Layout};

// The most characters of a record's name.
const NAME_CHARACTERS: u8 = 80;

// ---- members

// Those of a field's name, of its type and of its sizes.
fn head(
    alloc: Global,
    name: &str,
    kind: &str,
    characters: u8,
    digits: u8,
    decimals: u8,
) -> Result<Members, AllocError>
    ensures { IfOk result (λ members. members ≡ head_members (chars name.now) (chars kind.now) characters digits decimals) }
{
    let mut members = Members::new(alloc);
    members.text(alloc, "name", name)?;
    members.text(alloc, "label", name)?;
    members.text(alloc, "type", kind)?;
    members.number(alloc, "length", u64::from(characters))?;
    members.number(alloc, "precision", u64::from(digits))?;
    members.number(alloc, "scale", u64::from(decimals))?;
    Ok(members)
}

// What is true or false of a field.
#[derive(Clone, Copy)]
struct Flags {
    nillable: bool,
    unique: bool,
    custom: bool,
    is_name: bool,
    createable: bool,
    updateable: bool,
}

// Its members.
fn put_flags(alloc: Global, members: &mut Members, flags: Flags) -> Result<(), AllocError>
    ensures { OnOk result (members.new ≡ members.old
        ++ flag_members flags.nillable flags.unique flags.custom flags.is_name flags.createable flags.updateable) }
{
    members.truth(alloc, "nillable", flags.nillable)?;
    members.truth(alloc, "unique", flags.unique)?;
    members.truth(alloc, "externalId", flags.unique)?;
    members.truth(alloc, "custom", flags.custom)?;
    members.truth(alloc, "nameField", flags.is_name)?;
    members.truth(alloc, "createable", flags.createable)?;
    members.truth(alloc, "updateable", flags.updateable)?;
    members.truth(alloc, "filterable", true)?;
    members.truth(alloc, "sortable", true)?;
    Ok(())
}

// ---- standard fields

fn standard(
    alloc: Global,
    name: &str,
    kind: &str,
    characters: u8,
    nillable: bool,
    is_name: bool,
    writable: bool,
) -> Result<Json, AllocError>
    ensures { IfOk result (λ v. v
        ≡ field_json (standard (chars name.now) (chars kind.now) characters nillable is_name writable)) }
{
    let flags = Flags {
        nillable,
        unique: false,
        custom: false,
        is_name,
        createable: writable,
        updateable: writable,
    };
    let mut members = head(alloc, name, kind, characters, 0, 0)?;
    put_flags(alloc, &mut members, flags)?;
    members.put(alloc, "referenceTo", Json::List(Items::new(alloc)))?;
    members.put(alloc, "relationshipName", Json::Null)?;
    members.put(alloc, "picklistValues", Json::List(Items::new(alloc)))?;
    Ok(members.finish())
}

fn has_master(fields: &[FieldPlace]) -> bool
    ensures { result ≡ list_any (λ f. is_master f.kind) fields.now }
{
    fields.iter().any(|field| is_master(&field.kind))
}

// The owner, which a detail doesn't have.
fn owner(alloc: Global, layout: &Layout) -> Result<Items<Json>, AllocError>
    ensures { IfOk result (λ all. all ≡ map field_json (owner_described (object_of_layout layout.now))) }
{
    let mut all = Items::new(alloc);
    if has_master(layout.fields.as_slice()) {
        return Ok(all);
    }
    all.push(standard(alloc, "OwnerId", "reference", 18, false, false, true)?)?;
    Ok(all)
}

// The name, and when a record was made and last changed.
fn later(alloc: Global) -> Result<Items<Json>, AllocError>
    ensures { IfOk result (λ all. all ≡ map field_json later_described) }
{
    let mut all = Items::new(alloc);
    all.push(standard(alloc, "Name", "string", NAME_CHARACTERS, true, true, true)?)?;
    all.push(standard(alloc, "CreatedDate", "datetime", 0, false, false, false)?)?;
    all.push(standard(
        alloc,
        "LastModifiedDate",
        "datetime",
        0,
        false,
        false,
        false,
    )?)?;
    Ok(all)
}

// All of them.
fn standard_fields(alloc: Global, layout: &Layout) -> Result<Items<Json>, AllocError>
    ensures { IfOk result (λ all. all ≡ map field_json (standard_described (object_of_layout layout.now))) }
{
    let mut all = Items::new(alloc);
    all.push(standard(alloc, "Id", "id", 18, false, false, false)?)?;
    all.append(owner(alloc, layout)?)?;
    all.append(later(alloc)?)?;
    Ok(all)
}

// ---- custom fields

// The layout of the object with this number.
fn layout_at(layouts: &[Layout], object: u16) -> Option<&Layout>
    ensures { option_copied result ≡ find (λ l. l.object == object) layouts.now }
{
    layouts.iter().find(|layout| layout.object == object)
}

// The name of that object.
fn name_in(layouts: &[Layout], object: u16) -> &str
    ensures { chars result.now ≡ name_in layouts.now object }
{
    match layout_at(layouts, object) {
        Some(layout) => layout.name.as_str(),
        None => "",
    }
}

// A list of one text.
fn one_text(alloc: Global, characters: &str) -> Result<Json, AllocError>
    ensures { IfOk result (λ v. v ≡ texts (chars characters.now ∷ [])) }
{
    let mut all = Items::new(alloc);
    all.push(text_json(alloc, characters)?)?;
    Ok(Json::List(all))
}

// The objects to which a type refers.
fn refers(alloc: Global, layouts: &[Layout], kind: &FieldType) -> Result<Json, AllocError>
    ensures { IfOk result (λ v. v ≡ texts (in_case (target_of kind.now) [] (λ n. name_in layouts.now n ∷ []))) }
{
    match target_of(kind) {
        Some(object) => one_text(alloc, name_in(layouts, object)),
        None => Ok(Json::List(Items::new(alloc))),
    }
}

// The name of the relationship to a parent that a field with this name gives.
fn parent(alloc: Global, field: &str) -> Result<Json, AllocError>
    ensures { IfOk result (λ v. v ≡ text (parent_name (chars field.now))) }
{
    Ok(Json::Text(parent_name(alloc, field)?))
}

// That of a field, if it is a reference.
fn relationship(alloc: Global, field: &FieldPlace) -> Result<Json, AllocError>
    ensures { IfOk result (λ v. v
        ≡ or_null text (in_case (target_of field.now.kind) None (λ n. Some (parent_name field.now.name)))) }
{
    match target_of(&field.kind) {
        Some(_) => parent(alloc, field.name.as_str()),
        None => Ok(Json::Null),
    }
}

// A value of a picklist.
fn picklist_value(alloc: Global, value: &Text) -> Result<Json, AllocError>
    ensures { IfOk result (λ v. v ≡ picklist_json value.now) }
{
    let mut members = Members::new(alloc);
    members.text(alloc, "value", value.as_str())?;
    members.text(alloc, "label", value.as_str())?;
    members.truth(alloc, "active", true)?;
    members.truth(alloc, "defaultValue", false)?;
    Ok(members.finish())
}

fn picklist_values(alloc: Global, values: &[Text]) -> Result<Json, AllocError>
    ensures { IfOk result (λ v. v ≡ list (map picklist_json values.now)) }
{
    let mut all = Items::new(alloc);
    for value in values {
        all.push(picklist_value(alloc, value)?)?;
    }
    Ok(Json::List(all))
}

// The values that a type has.
fn values(alloc: Global, kind: &FieldType) -> Result<Json, AllocError>
    ensures { IfOk result (λ v. v ≡ list (map picklist_json (values_of kind.now))) }
{
    match kind {
        FieldType::Picklist(values) => picklist_values(alloc, values.as_slice()),
        _ => Ok(Json::List(Items::new(alloc))),
    }
}

// What is true or false of it: a detail keeps its master.
fn custom_flags(field: &FieldPlace) -> Flags
    ensures nillable { result.nillable ≡ not (field.now.required || (is_master field.now.kind || is_truth field.now.kind)) }
    ensures unique { result.unique ≡ field.now.unique }
    ensures custom { result.custom ≡ true }
    ensures is_name { result.is_name ≡ false }
    ensures createable { result.createable ≡ true }
    ensures updateable { result.updateable ≡ not (is_master field.now.kind) }
{
    let filled = is_filled(&field.kind);
    Flags {
        nillable: !(field.required || filled),
        unique: field.unique,
        custom: true,
        is_name: false,
        createable: true,
        updateable: !is_master(&field.kind),
    }
}

fn custom(alloc: Global, layouts: &[Layout], field: &FieldPlace) -> Result<Json, AllocError>
    ensures { IfOk result (λ v. v ≡ field_by layouts.now field.now) }
{
    let kind = &field.kind;
    let flags = custom_flags(field);
    let mut members = head(
        alloc,
        field.name.as_str(),
        type_word(kind),
        characters_of(kind),
        digits_of(kind),
        decimals_of(kind),
    )?;
    put_flags(alloc, &mut members, flags)?;
    members.put(alloc, "referenceTo", refers(alloc, layouts, kind)?)?;
    members.put(alloc, "relationshipName", relationship(alloc, field)?)?;
    members.put(alloc, "picklistValues", values(alloc, kind)?)?;
    Ok(members.finish())
}

fn custom_fields(
    alloc: Global,
    layouts: &[Layout],
    fields: &[FieldPlace],
) -> Result<Items<Json>, AllocError>
    ensures { IfOk result (λ all. all ≡ map (field_by layouts.now) fields.now) }
{
    let mut all = Items::new(alloc);
    for field in fields {
        all.push(custom(alloc, layouts, field)?)?;
    }
    Ok(all)
}

/// The fields of an object, by the layouts of all objects.
pub(crate) fn fields(alloc: Global, layouts: &[Layout], layout: &Layout) -> Result<Json, AllocError>
    ensures { IfOk result (λ v. v ≡ list (fields_by layouts.now layout.now)) }
{
    let mut all = standard_fields(alloc, layout)?;
    all.append(custom_fields(alloc, layouts, layout.fields.as_slice())?)?;
    Ok(Json::List(all))
}

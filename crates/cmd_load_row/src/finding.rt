//! The records that what is given to references finds, by a unique field of their object.

ghost use Rattle.std.specs.Prelude.{◌≡◌, ◌<◌, IfOk, IsTrue, length};
ghost use Rattle.std.specs.List.{find};
ghost use Rattle.std.specs.Option.{option_and_then, option_map};
ghost use Rattle.std.specs.Str.{chars};
ghost use Rattle.store_kv.specs.Draft.{DraftTells, tables_of};
ghost use Rattle.cmd_load_row.specs.inner.Finding.{FindsAt, FindsFor, FindsId, FindsOf, is_unique_at, some_found, target_named, unread};
ghost use Rattle.model.specs.Fields.{same_name};
ghost use Rattle.model.specs.Relationships.{target_of};
ghost use Rattle.model.specs.Tenant.{Tenant};
ghost use Rattle.store_abstraction.specs.Calls.{Calls, ended};
ghost use Rattle.store_abstraction.specs.Layouts.{IsLayout};
ghost use Rattle.store_abstraction.specs.Local.{StandsIn};
ghost use Rattle.store_abstraction.specs.Plan.{OrgPlan};

use crate::parents::Parent;
use base_value::{FieldType, Id, Text, ValueFail, is_type, read_value, value_laws};
use model::{Assignment, Given, same_name};
use record_constraints::unique_find;
use std::alloc::{AllocError, Global};
use store_abstraction::{FieldPlace, Layout, call_laws, layout_at};
use store_kv::{Draft, Keeper, draft_laws};
use store_rows::StoreFail;

// The object to whose records a type refers.
fn target_of(kind: &FieldType) -> Option<u16>
    ensures { result ≡ target_of kind.now }
{
    match kind {
        FieldType::Lookup { object, .. } => Some(*object),
        FieldType::Master { object } => Some(*object),
        _ => None,
    }
}

// The first of these fields that has the name.
fn field_named<'a>(fields: &'a [FieldPlace], name: &str) -> Option<&'a FieldPlace>
    ensures { option_map (λ f. f.now) result ≡ find (λ f. same_name f.name (chars name.now)) fields.now }
{
    fields
        .iter()
        .find(|field| same_name(field.name.as_str(), name))
}

// The object to whose records the custom field with this name refers.
fn target_named(layout: &Layout, name: &Text) -> Option<u16>
    ensures { result ≡ target_named layout.now name.now }
{
    match field_named(layout.fields.as_slice(), name.as_str()) {
        None => None,
        Some(field) => target_of(&field.kind),
    }
}

// What a text finds that isn't read: nothing, unless it is out of memory.
fn unread(fail: ValueFail) -> Result<Option<Id>, StoreFail>
    ensures { result ≡ unread fail }
{
    match fail {
        ValueFail::Memory => Err(StoreFail::Memory),
        _ => Ok(None),
    }
}

// The id of the record of an object that has the value of a text in the unique field with this number. A text that isn't read finds
// none.
fn id_by_text<K: Keeper>(
    alloc: Global,
    draft: &mut Draft<'_, K>,
    target: &Layout,
    number: usize,
    text: &str,
) -> Result<Option<Id>, StoreFail>
    requires field { number < length target.now.fields }
    requires unique { IsTrue (is_unique_at target.now number) }
    ensures finds { DraftTells K.state draft.old draft.new
        → (q : OrgPlan) (t : Tenant) → StandsIn target.now.org q (tables_of K.state draft.old) (Some t) → IsLayout q t target.now
        → FindsId t target.now number (chars text.now) result }
    ensures calls { Calls K.state 0 (ended result) draft.old draft.new }
{
    value_laws();
    call_laws::<K>();
    let fields = target.fields.as_slice();
    let field = &fields[number];
    match read_value(alloc, &field.kind, text) {
        Ok(value) => unique_find(alloc, draft, target, number, &value),
        Err(fail) => unread(fail),
    }
}

// Whether the field with this number is unique, and its type within its bounds.
fn is_unique_at(layout: &Layout, number: usize) -> bool
    ensures { result ≡ is_unique_at layout.now number }
{
    match layout.fields.get(number) {
        None => false,
        Some(field) => field.unique && is_type(&field.kind),
    }
}

// What is told of a reference by a unique field.
fn parent(
    alloc: Global,
    field: &FieldPlace,
    name: &Text,
    id: Option<Id>,
) -> Result<Parent, AllocError>
    ensures { IfOk result (λ p. p ≡ record { name = name.now; kind = field.now.kind; id = id }) }
{
    let name = name.copy(alloc)?;
    let kind = field.kind.copy(alloc)?;
    Ok(Parent { name, kind, id })
}

// What a text finds for the reference with this name by the unique field at a place of its object. No plan of a heading has a place
// of another field.
fn parent_at<K: Keeper>(
    alloc: Global,
    draft: &mut Draft<'_, K>,
    target: &Layout,
    place: u8,
    name: &Text,
    text: &str,
) -> Result<Parent, StoreFail>
    ensures finds { DraftTells K.state draft.old draft.new
        → (q : OrgPlan) (t : Tenant) → StandsIn target.now.org q (tables_of K.state draft.old) (Some t) → IsLayout q t target.now
        → FindsAt t target.now place name.now (chars text.now) result }
    ensures calls { Calls K.state 0 (ended result) draft.old draft.new }
{
    call_laws::<K>();
    let number = usize::from(place);
    if !is_unique_at(target, number) {
        return Err(StoreFail::Memory);
    }
    let id = id_by_text(alloc, draft, target, number, text)?;
    let fields = target.fields.as_slice();
    let field = &fields[number];
    let found = parent(alloc, field, name, id)?;
    Ok(found)
}

// What a text finds for the reference of an object with this name. No plan of a heading has another field.
fn parent_of<K: Keeper>(
    alloc: Global,
    draft: &mut Draft<'_, K>,
    layout: &Layout,
    name: &Text,
    place: u8,
    text: &str,
) -> Result<Parent, StoreFail>
    ensures finds { DraftTells K.state draft.old draft.new
        → (q : OrgPlan) (t : Tenant) → StandsIn layout.now.org q (tables_of K.state draft.old) (Some t)
        → FindsOf t layout.now name.now place (chars text.now) result }
    ensures calls { Calls K.state 0 (ended result) draft.old draft.new }
{
    draft_laws::<K>();
    call_laws::<K>();
    let Some(object) = target_named(layout, name) else {
        return Err(StoreFail::Memory);
    };
    match layout_at(alloc, draft, layout.org, object)? {
        None => Err(StoreFail::Memory),
        Some(target) => parent_at(alloc, draft, &target, place, name, text),
    }
}

// What was found, if it was.
fn some_found(found: Result<Parent, StoreFail>) -> Result<Option<Parent>, StoreFail>
    ensures { result ≡ some_found found }
{
    match found {
        Ok(parent) => Ok(Some(parent)),
        Err(fail) => Err(fail),
    }
}

/// What is found for what is given to a field of an object, if that finds a record.
///
/// # Errors
///
/// `Keeper` if the keeper failed, `Memory` if out of memory, or if a record is to be found by what is no unique field of a reference's
/// object, `Damaged` never if the organisation's rows stand for a tenant.
pub(crate) fn parent_for<K: Keeper>(
    alloc: Global,
    draft: &mut Draft<'_, K>,
    layout: &Layout,
    given: &Assignment,
) -> Result<Option<Parent>, StoreFail>
    ensures finds { DraftTells K.state draft.old draft.new
        → (q : OrgPlan) (t : Tenant) → StandsIn layout.now.org q (tables_of K.state draft.old) (Some t)
        → FindsFor t layout.now given.now result }
    ensures calls { Calls K.state 0 (ended result) draft.old draft.new }
{
    call_laws::<K>();
    match &given.given {
        Given::Find { field, text } => some_found(parent_of(
            alloc,
            draft,
            layout,
            &given.field,
            *field,
            text.as_str(),
        )),
        Given::Read(_) => Ok(None),
        Given::Json(_) => Ok(None),
    }
}

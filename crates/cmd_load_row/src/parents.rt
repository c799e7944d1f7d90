//! What is found for all that a row gives.

ghost use Rattle.std.specs.Prelude.{◌≡◌, IfOk, OnOk, not};
ghost use Rattle.std.specs.List.{list_all, list_any};
ghost use Rattle.std.specs.Str.{chars};
ghost use Rattle.record_input.specs.Given.{finds_none};
ghost use Rattle.store_kv.specs.Draft.{DraftTells, tables_of};
ghost use Rattle.model.specs.Fields.{same_name};
ghost use Rattle.model.specs.Tenant.{Tenant};
ghost use Rattle.store_abstraction.specs.Calls.{Calls, ended};
ghost use Rattle.store_abstraction.specs.Local.{StandsIn};
ghost use Rattle.store_abstraction.specs.Plan.{OrgPlan};

use crate::finding::parent_for;
use base_value::{FieldType, Id, Items, Text};
use model::{Assignment, Given, object_laws, same_name};
use record_input::Found;
use std::alloc::{AllocError, Global};
use store_abstraction::{Layout, call_laws, layout_named};
use store_kv::{Draft, Keeper, draft_laws};
use store_rows::StoreFail;

/// What was found for a reference: the record of its target that has a value in a unique field.
#[derive(Drop)]
pub(crate) struct Parent {
    /// The reference's name.
    pub name: Text,
    /// The type of the unique field.
    pub kind: FieldType,
    /// The record's id, if a record has the value.
    pub id: Option<Id>,
}

ghost use Rattle.cmd_load_row.specs.inner.Parents.{Adds, AreTold, FindsAll, FindsParents, has_parent, told, told_of};

// Whether what is given finds no record.
fn finds_none(given: &Given) -> bool
    ensures { result ≡ finds_none given.now }
{
    match given {
        Given::Find { .. } => false,
        Given::Read(_) => true,
        Given::Json(_) => true,
    }
}

// Whether nothing that is given finds a record.
fn find_none(given: &[Assignment]) -> bool
    ensures { result ≡ list_all (λ x. finds_none x.given) given.now }
{
    given.iter().all(|x| finds_none(&x.given))
}

// Whether a record was found for a reference with this name.
fn has_parent(parents: &[Parent], name: &Text) -> bool
    ensures { result ≡ has_parent parents.now name.now }
{
    parents
        .iter()
        .any(|parent| same_name(parent.name.as_str(), name.as_str()))
}

// One more that was found. No plan of a heading gives a field twice.
fn add_parent(parents: &mut Items<Parent>, found: Option<Parent>) -> Result<(), AllocError>
    ensures { OnOk result (Adds parents.old found parents.new) }
{
    match found {
        None => Ok(()),
        Some(parent) => {
            if has_parent(parents.as_slice(), &parent.name) {
                return Err(AllocError);
            }
            parents.push(parent)
        }
    }
}

// What is found for all that is given to an object's fields.
fn parents_by<K: Keeper>(
    alloc: Global,
    draft: &mut Draft<'_, K>,
    layout: &Layout,
    given: &[Assignment],
) -> Result<Items<Parent>, StoreFail>
    ensures finds { DraftTells K.state draft.old draft.new
        → (q : OrgPlan) (t : Tenant) → StandsIn layout.now.org q (tables_of K.state draft.old) (Some t)
        → FindsAll t layout.now given.now result }
    ensures calls { Calls K.state 0 (ended result) draft.old draft.new }
{
    draft_laws::<K>();
    call_laws::<K>();
    let mut parents = Items::new(alloc);
    for x in given {
        let found = parent_for(alloc, draft, layout, x)?;
        add_parent(&mut parents, found)?;
    }
    Ok(parents)
}

/// What is found for all that is given to the fields of the object with this name. Where nothing finds a record nothing is read.
///
/// # Errors
///
/// `Keeper` if the keeper failed, `Memory` if out of memory, or if a record is to be found by what is no unique field of a reference's
/// object, or for one field twice, `Damaged` never if the organisation's rows stand for a tenant.
pub(crate) fn find_parents<K: Keeper>(
    alloc: Global,
    draft: &mut Draft<'_, K>,
    org: u32,
    object: &Text,
    given: &[Assignment],
) -> Result<Items<Parent>, StoreFail>
    ensures finds { DraftTells K.state draft.old draft.new
        → (q : OrgPlan) (t : Tenant) → StandsIn org q (tables_of K.state draft.old) (Some t)
        → FindsParents t object.now given.now result }
    ensures calls { Calls K.state 0 (ended result) draft.old draft.new }
{
    draft_laws::<K>();
    call_laws::<K>();
    object_laws();
    if find_none(given) {
        return Ok(Items::new(alloc));
    }
    match layout_named(alloc, draft, org, object.as_str())? {
        None => Ok(Items::new(alloc)),
        Some(layout) => parents_by(alloc, draft, &layout, given),
    }
}

// What was found, as an edit is told it.
fn found_by(parent: &Parent) -> Found<'_>
    ensures { told result ≡ told_of parent.now }
{
    Found {
        name: parent.name.as_str(),
        kind: &parent.kind,
        id: parent.id,
    }
}

/// What was found, as edits are told it.
///
/// # Errors
///
/// If out of memory.
pub(crate) fn found_in<'a>(
    alloc: Global,
    parents: &'a [Parent],
) -> Result<Items<Found<'a>>, AllocError>
    ensures { IfOk result (λ found. AreTold found parents.now) }
{
    let mut found = Items::new(alloc);
    for parent in parents {
        found.push(found_by(parent))?;
    }
    Ok(found)
}

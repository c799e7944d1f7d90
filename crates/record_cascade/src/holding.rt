//! The records that hold one that goes, by one field.

ghost use Rattle.std.specs.Prelude.{◌≡◌, ◌<◌, IfOk, length};
ghost use Rattle.record_cascade.specs.inner.Holding.{holders, is_any, staying};
ghost use Rattle.record_cascade.specs.inner.Masters.{ids_of};
ghost use Rattle.store_kv.specs.Draft.{DraftTells, tables_of};
ghost use Rattle.store_abstraction.specs.Calls.{Calls, ended};
ghost use Rattle.store_abstraction.specs.Layouts.{FindsOf};

use crate::object::{object_number, target_of};
use crate::taking::{referring_to, set_of};
use base_value::{Id, Items};
use record_references::any_referring;
use std::alloc::{AllocError, Global};
use std::collections::BTreeSet;
use store_abstraction::{FieldPlace, Layout, call_laws};
use store_kv::{Draft, Keeper};
use store_rows::StoreFail;

// Where more records go than these, the references of a field are gone through once, and not once for each.
const MANY: usize = 1000;

// The ids of an object's records among these.
fn ids_of(alloc: Global, ids: &BTreeSet<Id>, object: u16) -> Result<Vec<Id>, AllocError>
    ensures { IfOk result (λ those. those.items ≡ ids_of object ids.now.keys) }
{
    ids.iter()
        .copied()
        .filter(|id| object_number(id) == object)
        .collect(alloc)
}

// Those of these that aren't among what goes.
fn that_stay(alloc: Global, gone: &BTreeSet<Id>, ids: &[Id]) -> Result<Vec<Id>, AllocError>
    ensures { IfOk result (λ those. those.items ≡ staying gone.now.keys ids.now) }
{
    ids.iter()
        .copied()
        .filter(|id| !gone.contains(id))
        .collect(alloc)
}

/// The ids of the object's records that stay and refer by a field with this number to one that goes, each as often as it is found.
/// Only records of the field's target are asked for.
///
/// # Errors
///
/// As `all_referring`.
pub(crate) fn holders<K: Keeper>(
    alloc: Global,
    draft: &mut Draft<'_, K>,
    layout: &Layout,
    number: usize,
    field: &FieldPlace,
    gone: &BTreeSet<Id>,
) -> Result<Items<Id>, StoreFail>
    requires { number < length layout.now.fields }
    ensures finds { DraftTells K.state draft.old draft.new
        → FindsOf layout.now (holders layout.now number field.now gone.now.keys) (tables_of K.state draft.old) result }
    ensures calls { Calls K.state 0 (ended result) draft.old draft.new }
{
    call_laws::<K>();
    match target_of(&field.kind) {
        None => Ok(Items::new(alloc)),
        Some(object) => {
            let targets = ids_of(alloc, gone, object)?;
            let found = referring_to(alloc, draft, layout, number, targets.as_slice())?;
            Ok(Items::from_vec(that_stay(alloc, gone, found.as_slice())?))
        }
    }
}

// Whether some record of the object stays and refers by the field to one that goes: all references of the field are gone through.
fn is_one_held<K: Keeper>(
    alloc: Global,
    draft: &mut Draft<'_, K>,
    layout: &Layout,
    number: usize,
    field: &FieldPlace,
    gone: &BTreeSet<Id>,
) -> Result<bool, StoreFail>
    requires { number < length layout.now.fields }
    ensures finds { DraftTells K.state draft.old draft.new
        → FindsOf layout.now (λ t. is_any (holders layout.now number field.now gone.now.keys t)) (tables_of K.state draft.old) result }
    ensures calls { Calls K.state 0 (ended result) draft.old draft.new }
{
    call_laws::<K>();
    match target_of(&field.kind) {
        None => Ok(false),
        Some(object) => {
            let targets = ids_of(alloc, gone, object)?;
            let targets = set_of(alloc, targets.as_slice())?;
            any_referring(alloc, draft, layout, number, &targets, gone)
        }
    }
}

/// Whether some record of the object stays and refers by the field to one that goes.
///
/// # Errors
///
/// As `all_referring`.
pub(crate) fn is_held<K: Keeper>(
    alloc: Global,
    draft: &mut Draft<'_, K>,
    layout: &Layout,
    number: usize,
    field: &FieldPlace,
    gone: &BTreeSet<Id>,
) -> Result<bool, StoreFail>
    requires { number < length layout.now.fields }
    ensures finds { DraftTells K.state draft.old draft.new
        → FindsOf layout.now (λ t. is_any (holders layout.now number field.now gone.now.keys t)) (tables_of K.state draft.old) result }
    ensures calls { Calls K.state 0 (ended result) draft.old draft.new }
{
    if gone.len() > MANY {
        return is_one_held(alloc, draft, layout, number, field, gone);
    }
    let held = holders(alloc, draft, layout, number, field, gone)?;
    Ok(!held.is_empty())
}

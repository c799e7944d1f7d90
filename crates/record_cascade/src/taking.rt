//! The records whose masters are among some.

ghost use Rattle.std.specs.Prelude.{◌≡◌, ◌<◌, IfOk, IfSome, length};
ghost use Rattle.std.specs.BTreeSet.{IsFromIterResult};
ghost use Rattle.std.specs.Cmp.Lexicographic.{slice_cmp};
ghost use Rattle.std.specs.List.{flat_map};
ghost use Rattle.std.specs.Ordering.{nat_cmp};
ghost use Rattle.record_cascade.specs.Cascade.{FindsWith};
ghost use Rattle.record_cascade.specs.inner.Masters.{FindsBy, IsInOrder, details_in, master_from, nameable};
ghost use Rattle.store_kv.specs.Draft.{DraftTells, tables_of};
ghost use Rattle.model.specs.Deletes.{details_of};
ghost use Rattle.model.specs.Fields.{is_master};
ghost use Rattle.record_references.specs.Referring.{all_referring};
ghost use Rattle.store_abstraction.specs.Calls.{Calls, ended};
ghost use Rattle.store_abstraction.specs.Layouts.{FindsOf};

use crate::object::{object_number, target_of};
use base_value::{FieldType, Id, Items};
use record_references::all_referring;
use std::alloc::{AllocError, Global};
use std::collections::BTreeSet;
use store_abstraction::{FieldPlace, Layout, call_laws};
use store_kv::{Draft, Keeper, draft_laws};
use store_rows::StoreFail;

fn is_master(kind: &FieldType) -> bool
    ensures { result ≡ is_master kind.now }
{
    match kind {
        FieldType::Master { .. } => true,
        _ => false,
    }
}

// The number of the first of these fields that is a Master.
fn master_number(fields: &[FieldPlace]) -> Option<usize>
    ensures is { result ≡ master_from 0 fields.now }
    ensures within { IfSome result (λ number. number < length fields.now) }
{
    let mut rest = fields;
    let mut number: usize = 0;
    'fields: while let Some((field, more)) = rest.split_first() {
        if is_master(&field.kind) {
            return Some(number);
        }
        number += 1;
        rest = more;
    }
    None
}

// The ids of the records of an object that refer by the field with this number to one of these.
pub(crate) fn referring_to<K: Keeper>(
    alloc: Global,
    draft: &mut Draft<'_, K>,
    layout: &Layout,
    number: usize,
    ids: &[Id],
) -> Result<Items<Id>, StoreFail>
    requires field { number < length layout.now.fields }
    ensures finds { DraftTells K.state draft.old draft.new
        → FindsOf layout.now (λ t. flat_map (λ id. all_referring layout.now.object number id t) ids.now)
        (tables_of K.state draft.old) result }
    ensures calls { Calls K.state 0 (ended result) draft.old draft.new }
{
    draft_laws::<K>();
    call_laws::<K>();
    let mut all = Vec::new(alloc);
    let mut rest = ids;
    'ids: while let Some((id, more)) = rest.split_first() {
        let found = all_referring(alloc, draft, layout, number, id)?;
        all.extend_from_slice(found.as_slice())?;
        rest = more;
    }
    Ok(Items::from_vec(all))
}

// Those of these that the field with this number can name.
fn nameable(
    alloc: Global,
    fields: &[FieldPlace],
    number: usize,
    ids: &[Id],
) -> Result<Vec<Id>, AllocError>
    requires { number < length fields.now }
    ensures { IfOk result (λ those. those.items ≡ nameable fields.now number ids.now) }
{
    match target_of(&fields[number].kind) {
        None => Ok(Vec::new(alloc)),
        Some(object) => ids
            .iter()
            .copied()
            .filter(|id| object_number(id) == object)
            .collect(alloc),
    }
}

// The ids of the records of an object whose masters are among these.
fn details_in<K: Keeper>(
    alloc: Global,
    draft: &mut Draft<'_, K>,
    layout: &Layout,
    ids: &[Id],
) -> Result<Items<Id>, StoreFail>
    ensures finds { DraftTells K.state draft.old draft.new
        → FindsOf layout.now (details_in layout.now ids.now) (tables_of K.state draft.old) result }
    ensures calls { Calls K.state 0 (ended result) draft.old draft.new }
{
    call_laws::<K>();
    let fields = layout.fields.as_slice();
    match master_number(fields) {
        None => Ok(Items::new(alloc)),
        Some(number) => {
            let masters = nameable(alloc, fields, number, ids)?;
            referring_to(alloc, draft, layout, number, masters.as_slice())
        }
    }
}

// The same of these objects, one after another.
fn details_by<K: Keeper>(
    alloc: Global,
    draft: &mut Draft<'_, K>,
    org: u32,
    layouts: &[Layout],
    ids: &[Id],
) -> Result<Items<Id>, StoreFail>
    ensures finds { DraftTells K.state draft.old draft.new
        → FindsBy org layouts.now (λ t. flat_map (λ l. details_in l ids.now t) layouts.now) (tables_of K.state draft.old) result }
    ensures calls { Calls K.state 0 (ended result) draft.old draft.new }
{
    draft_laws::<K>();
    call_laws::<K>();
    let mut all = Vec::new(alloc);
    let mut rest = layouts;
    'layouts: while let Some((layout, more)) = rest.split_first() {
        let found = details_in(alloc, draft, layout, ids)?;
        all.extend_from_slice(found.as_slice())?;
        rest = more;
    }
    Ok(Items::from_vec(all))
}

// Each of these once.
pub(crate) fn set_of(alloc: Global, ids: &[Id]) -> Result<BTreeSet<Id>, AllocError>
    ensures { IfOk result (IsFromIterResult (slice_cmp nat_cmp) ids.now) }
{
    ids.iter().copied().collect(alloc)
}

// What is in a set, in its order.
pub(crate) fn listed(alloc: Global, ids: BTreeSet<Id>) -> Result<Vec<Id>, AllocError>
    ensures { IfOk result (λ all. all.items ≡ ids.keys) }
{
    ids.into_iter().collect(alloc)
}

// Each of these once, in their order.
pub(crate) fn in_order(alloc: Global, ids: &[Id]) -> Result<Items<Id>, AllocError>
    ensures { IfOk result (IsInOrder ids.now) }
{
    let set = set_of(alloc, ids)?;
    Ok(Items::from_vec(listed(alloc, set)?))
}

/// The ids of the records whose masters are among those with these ids, in their order, by the layouts of all objects.
///
/// # Errors
///
/// `Keeper` if the keeper failed, `Memory` if out of memory, `Damaged` never if the organisation's rows stand for a tenant whose
/// layouts these are.
pub(crate) fn details<K: Keeper>(
    alloc: Global,
    draft: &mut Draft<'_, K>,
    org: u32,
    layouts: &[Layout],
    ids: &[Id],
) -> Result<Items<Id>, StoreFail>
    ensures finds { DraftTells K.state draft.old draft.new
        → FindsWith org layouts.now ids.now details_of (tables_of K.state draft.old) result }
    ensures calls { Calls K.state 0 (ended result) draft.old draft.new }
{
    call_laws::<K>();
    let found = details_by(alloc, draft, org, layouts, ids)?;
    Ok(in_order(alloc, found.as_slice())?)
}

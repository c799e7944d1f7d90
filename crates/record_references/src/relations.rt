//! Records by what they refer to.

ghost use Rattle.std.specs.Prelude.{◌≡◌, ◌<◌, Err, IfErr, IfOk, IfSome, IsTrue, length, take};
ghost use Rattle.std.specs.Option.{option_map};
ghost use Rattle.store_kv.specs.Draft.{DraftTells, tables_of};
ghost use Rattle.store_kv.specs.Prefixes.{raised};
ghost use Rattle.store_rows.specs.declared.fail.StoreFail.TheVariants.{Memory};
ghost use Rattle.store_rows.specs.Keys.{slot_key};
ghost use Rattle.store_rows.specs.Listings.{rows_to, start_of};
ghost use Rattle.store_rows.specs.Reads.{ListsAs};
ghost use Rattle.store_rows.specs.Rows.{relation_form};
ghost use Rattle.store_codec.specs.Shapes.{Both, FitsIn, Identity};
ghost use Rattle.record_references.specs.Referring.{all_referring, referring_after};
ghost use Rattle.record_references.specs.inner.Rows.{FitsFront, front_bytes, ids_from, ids_in, key_at, parts_at};
ghost use Rattle.store_abstraction.specs.Calls.{Calls, ended};
ghost use Rattle.store_abstraction.specs.Layouts.{FindsOf};
ghost use Rattle.base_value.specs.Causes.{GivesOr};
ghost use Rattle.base_value.specs.Id.{is_id};

use base_value::{Id, Items, id_laws};
use std::alloc::{AllocError, Global};
use store_abstraction::{Layout, call_laws, local_laws};
use store_codec::shape_laws;
use store_kv::{Draft, Keeper, draft_laws, walk_laws};
use store_rows::{RelationRow, StoreFail, listing_laws, page_under, table_laws};

// How many records are asked for at once.
const PAGE: usize = 200;

/// What the keys of the rows of references to a record begin with, in a slot of an object.
pub(crate) fn front_of(org: u32, object: u16, slot: u8, target: &Id) -> (u32, (u16, (u8, Id)))
    ensures is { result ≡ (org, (object, (slot, target.now))) }
    ensures fits { FitsFront (org, (object, (slot, target.now))) }
{
    // That these are an id's characters.
    let _ = target.as_bytes();
    (org, (object, (slot, *target)))
}

/// The key of the row of one of them.
pub(crate) fn key_of(front: &(u32, (u16, (u8, Id))), id: &Id) -> (u32, (u16, (u8, (Id, Id))))
    requires { FitsFront front.now }
    ensures is { result ≡ parts_at front.now id.now }
    ensures fits { FitsIn (slot_key (Both Identity Identity)) (parts_at front.now id.now) }
{
    let _ = id.as_bytes();
    let (org, (object, (slot, target))) = *front;
    (org, (object, (slot, (target, *id))))
}

// At most so many of these rows, in the order of their keys: the first, or those after a record's.
fn rows_after<K: Keeper>(
    alloc: Global,
    draft: &mut Draft<'_, K>,
    front: &(u32, (u16, (u8, Id))),
    after: Option<&Id>,
    limit: usize,
) -> Result<Vec<RelationRow>, StoreFail>
    requires { FitsFront front.now }
    ensures rows { DraftTells K.state draft.old draft.new
        → ListsAs relation_form (take limit (rows_to (tables_of K.state draft.old) 10
        (start_of (front_bytes front.now) (option_map (λ id. key_at front.now id.now) after.entry))
        (raised (front_bytes front.now)))) result }
    ensures ids { IfSome after.entry (λ id. IsTrue (is_id id.now)) }
    ensures calls { Calls K.state 0 (ended result) draft.old draft.new }
{
    match after {
        None => page_under(alloc, draft, front, None, limit),
        Some(id) => {
            let key = key_of(front, id);
            page_under(alloc, draft, front, Some(&key), limit)
        }
    }
}

// The ids of the records whose rows these are.
fn ids_of(alloc: Global, rows: &[RelationRow]) -> Result<Items<Id>, AllocError>
    ensures { IfOk result (λ ids. ids ≡ ids_in rows.now) }
{
    let mut ids = Vec::new(alloc);
    for row in rows {
        ids.push(row.id)?;
    }
    Ok(Items::from_vec(ids))
}

// The same of the rows that were read.
fn ids_found(
    alloc: Global,
    rows: Result<Vec<RelationRow>, StoreFail>,
) -> Result<Items<Id>, StoreFail>
    ensures found { GivesOr Memory (ids_from rows) result }
    ensures failed { IfErr rows (λ e. result ≡ Err e) }
{
    match rows {
        Ok(rows) => Ok(ids_of(alloc, rows.as_slice())?),
        Err(fail) => Err(fail),
    }
}

/// The ids of at most `limit` records of the layout's object that refer to a record by the field with this number, in their
/// order: the first, or those after an id.
///
/// # Errors
///
/// `Keeper` if the keeper failed, `Memory` if out of memory, `Damaged` never if the organisation's rows stand for a tenant whose
/// layout it is.
pub fn referring<K: Keeper>(
    alloc: Global,
    draft: &mut Draft<'_, K>,
    layout: &Layout,
    number: usize,
    target: &Id,
    after: Option<&Id>,
    limit: usize,
) -> Result<Items<Id>, StoreFail>
    requires field { number < length layout.now.fields }
    ensures finds { DraftTells K.state draft.old draft.new
        → FindsOf layout.now (referring_after layout.now.object number target.now (option_map (λ id. id.now) after.entry) limit)
        (tables_of K.state draft.old) result }
    ensures calls { Calls K.state 0 (ended result) draft.old draft.new }
{
    listing_laws::<RelationRow>();
    table_laws();
    shape_laws();
    walk_laws();
    id_laws();
    local_laws();
    let fields = layout.fields.as_slice();
    let field = &fields[number];
    let front = front_of(layout.org, layout.object, field.slot, target);
    let rows = rows_after(alloc, draft, &front, after, limit);
    ids_found(alloc, rows)
}

/// The ids of all records of the layout's object that refer to a record by the field with this number, in their order.
///
/// # Errors
///
/// As `referring`.
pub fn all_referring<K: Keeper>(
    alloc: Global,
    draft: &mut Draft<'_, K>,
    layout: &Layout,
    number: usize,
    target: &Id,
) -> Result<Items<Id>, StoreFail>
    requires field { number < length layout.now.fields }
    ensures finds { DraftTells K.state draft.old draft.new
        → FindsOf layout.now (all_referring layout.now.object number target.now) (tables_of K.state draft.old) result }
    ensures calls { Calls K.state 0 (ended result) draft.old draft.new }
{
    draft_laws::<K>();
    call_laws::<K>();
    let mut all = Vec::new(alloc);
    'pages: for _ in 0..u64::MAX {
        let ids = referring(alloc, draft, layout, number, target, all.last(), PAGE)?;
        if ids.as_slice().is_empty() {
            return Ok(Items::from_vec(all));
        }
        all.extend_from_slice(ids.as_slice())?;
    }
    // Not reached before memory is full.
    Err(StoreFail::Memory)
}

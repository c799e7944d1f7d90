//! The rows of records that lose a lookup.

ghost use Rattle.std.specs.Prelude.{◌≡◌, ℕ, ℤ, IfOk, IsTrue, List, OnOk, Some, length, map, true};
ghost use Rattle.std.specs.List.{AllByRecursion, enumerate_from};
ghost use Rattle.record_read.specs.Decoding.{kinds_in};
ghost use Rattle.record_delete.specs.inner.Adding.{AddsThese, AreReady, Clears};
ghost use Rattle.record_delete.specs.inner.Clearing.{cleared_in, is_lost, names_one, value_left};
ghost use Rattle.store_kv.specs.Draft.{DraftTells, tables_of};
ghost use Rattle.model.specs.declared.record.Record.{Record};
ghost use Rattle.model.specs.Deletes.{has_id, is_cleared, loses_lookup, without};
ghost use Rattle.model.specs.Objects.{record_at};
ghost use Rattle.model.specs.Rights.{record_of_object};
ghost use Rattle.model.specs.SoundRecords.{all_valid};
ghost use Rattle.model.specs.Tenant.{Tenant};
ghost use Rattle.record_target.specs.Usable.{IsUsable};
ghost use Rattle.record_index.specs.Turned.{converts};
ghost use Rattle.store_abstraction.specs.Calls.{Calls, ended};
ghost use Rattle.store_abstraction.specs.Layouts.{IsLayout, own_layouts};
ghost use Rattle.store_abstraction.specs.Local.{StandsIn};
ghost use Rattle.store_abstraction.specs.Plan.{OrgPlan};
ghost use Rattle.record_index.specs.diff.Touched.{changes_at, has, touched_changes};

use crate::object::{layout_for, record_there};
use base_value::{Id, Items, Value, value_laws};
use model::Record;
use record_cascade::is_cleared;
use record_index::{changed_record_changes, pivot_laws};
use std::alloc::{AllocError, Global};
use store_abstraction::{FieldPlace, Layout, call_laws};
use store_kv::{Change, Draft, Keeper, draft_laws};
use store_rows::StoreFail;

// ---- the record

// Whether an id is one of these.
fn has(ids: &[Id], id: &Id) -> bool
    ensures { result ≡ has ids.now id.now }
{
    ids.iter().any(|other| *other == *id)
}

// Whether a value names one of these.
fn names_one(ids: &[Id], value: &Value) -> bool
    ensures { result ≡ names_one ids.now value.now }
{
    match value {
        Value::Ref(id) => has(ids, id),
        _ => false,
    }
}

// Whether the value at this position of a record's is that of a lookup which is cleared, and names one of these.
fn is_lost(fields: &[FieldPlace], ids: &[Id], position: usize, value: &Value) -> bool
    ensures { result ≡ is_lost fields.now ids.now position value.now }
{
    if position == 0 {
        // The name's.
        return false;
    }
    match fields.get(position - 1) {
        Some(field) => is_cleared(&field.kind) && names_one(ids, value),
        None => false,
    }
}

// What is left of a value.
fn value_left(
    alloc: Global,
    fields: &[FieldPlace],
    ids: &[Id],
    position: usize,
    value: &Value,
) -> Result<Value, AllocError>
    ensures { IfOk result (λ left. left ≡ value_left fields.now ids.now (position, value.now)) }
{
    if is_lost(fields, ids, position, value) {
        Ok(Value::Null)
    } else {
        value.copy(alloc)
    }
}

// What is left of a record's values.
fn values_left(
    alloc: Global,
    fields: &[FieldPlace],
    ids: &[Id],
    values: &[Value],
) -> Result<Items<Value>, AllocError>
    ensures { IfOk result (λ left. left ≡ map (value_left fields.now ids.now) (enumerate_from 0 values.now)) }
{
    let mut left = Items::new(alloc);
    for (position, value) in values.iter().enumerate() {
        left.push(value_left(alloc, fields, ids, position, value)?)?;
    }
    Ok(left)
}

// A record without its lookups to these.
fn cleared_record(
    alloc: Global,
    layout: &Layout,
    now: i64,
    gone: &[Id],
    old: &Record,
) -> Result<Record, AllocError>
    requires { IsTrue (all_valid (kinds_in layout.now.fields) old.now.values) }
    ensures is { IfOk result (λ r. r ≡ cleared_in layout.now now gone.now old.now) }
    ensures valid { IfOk result (λ r. IsTrue (all_valid (kinds_in layout.now.fields) r.values)) }
{
    let fields = layout.fields.as_slice();
    let values = values_left(alloc, fields, gone, old.values.as_slice())?;
    Ok(Record {
        id: old.id,
        owner: old.owner,
        created: old.created,
        modified: now,
        values,
    })
}

// ---- its rows

// Changes that clear the lookups to these of an object's record with this id.
fn clear_by<K: Keeper>(
    alloc: Global,
    draft: &mut Draft<'_, K>,
    layout: &Layout,
    now: i64,
    gone: &[Id],
    id: &Id,
    changes: &mut Vec<Change>,
) -> Result<(), StoreFail>
    requires usable { IsUsable layout.now }
    requires converts { IsTrue (converts layout.now) }
    ensures adds { DraftTells K.state draft.old draft.new
        → (q : OrgPlan) (t u : Tenant) (r : Record) → StandsIn layout.now.org q (tables_of K.state draft.old) (Some t)
        → IsLayout q t layout.now → record_of_object t layout.now.object id.now ≡ Some r → u.objects ≡ t.objects → u.job ≡ t.job
        → record_at u id.now ≡ Some (cleared_in layout.now now gone.now r)
        → AddsThese (changes_at layout.now.org q q t u id.now) changes.old.items changes.new.items result }
    ensures own { OnOk result (Clears layout.now.org 1 changes.old.items changes.new.items) }
    ensures calls { Calls K.state 1 (ended result) draft.old draft.new }
{
    pivot_laws();
    value_laws();
    call_laws::<K>();
    let kept = record_there(alloc, draft, layout, id)?;
    let new = cleared_record(alloc, layout, now, gone, &kept.item)?;
    changed_record_changes(alloc, layout, &kept.row, &kept.item, &new, changes)?;
    Ok(())
}

// The same, by the layouts of all objects, of a record that loses a lookup.
fn clear_record<K: Keeper>(
    alloc: Global,
    draft: &mut Draft<'_, K>,
    org: u32,
    layouts: &[Layout],
    now: i64,
    gone: &[Id],
    id: &Id,
    changes: &mut Vec<Change>,
) -> Result<(), StoreFail>
    requires ready { AreReady org layouts.now }
    ensures adds { DraftTells K.state draft.old draft.new
        → (q : OrgPlan) (t : Tenant) (rs : List Record) (r : Record) → StandsIn org q (tables_of K.state draft.old) (Some t)
        → own_layouts org q (Some t) ≡ layouts.now → ((i : List ℕ) → has gone.now i ≡ has_id rs i)
        → record_at t id.now ≡ Some r → loses_lookup t rs r ≡ true
        → AddsThese (changes_at org q q t (without now rs t) id.now) changes.old.items changes.new.items result }
    ensures own { OnOk result (Clears org 1 changes.old.items changes.new.items) }
    ensures calls { Calls K.state 1 (ended result) draft.old draft.new }
{
    call_laws::<K>();
    match layout_for(layouts, id) {
        Some(layout) => clear_by(alloc, draft, layout, now, gone, id, changes),
        None => Err(StoreFail::Damaged),
    }
}

/// Changes that clear the lookups to records that go, of the records with these ids, which lose one, by the layouts of all objects.
///
/// # Errors
///
/// `Keeper` if the keeper failed, `Memory` if out of memory, `Damaged` never if the organisation's rows stand for a tenant whose
/// layouts these are and that has records with these ids.
pub(crate) fn clear_records<K: Keeper>(
    alloc: Global,
    draft: &mut Draft<'_, K>,
    org: u32,
    layouts: &[Layout],
    now: i64,
    gone: &[Id],
    ids: &[Id],
    changes: &mut Vec<Change>,
) -> Result<(), StoreFail>
    requires ready { AreReady org layouts.now }
    ensures adds { DraftTells K.state draft.old draft.new
        → (q : OrgPlan) (t : Tenant) (rs : List Record) → StandsIn org q (tables_of K.state draft.old) (Some t)
        → own_layouts org q (Some t) ≡ layouts.now → ((i : List ℕ) → has gone.now i ≡ has_id rs i)
        → AllByRecursion (λ i. (r : Record) × (record_at t i ≡ Some r) × (loses_lookup t rs r ≡ true)) ids.now
        → AddsThese (touched_changes org q q t (without now rs t) ids.now) changes.old.items changes.new.items result }
    ensures own { OnOk result (Clears org (length ids.now) changes.old.items changes.new.items) }
    ensures calls { Calls K.state (length ids.now) (ended result) draft.old draft.new }
{
    draft_laws::<K>();
    call_laws::<K>();
    for id in ids {
        clear_record(alloc, draft, org, layouts, now, gone, id, changes)?;
    }
    Ok(())
}

//! The object and the record that a request names.

ghost use Rattle.std.specs.Prelude.{◌≡◌, IfOk, Some};
ghost use Rattle.store_edit.specs.Naming.{NamesLayout};
ghost use Rattle.store_kv.specs.Draft.{DraftTells, tables_of};
ghost use Rattle.model.specs.Paths.{Asked};
ghost use Rattle.model.specs.Tenant.{Tenant};
ghost use Rattle.record_target.specs.Kept.{FitsKept};
ghost use Rattle.record_target.specs.Named.{FindsNamed, FindsPermitted, FitsNamed, NamesRecord, SpellsId, record_or_none};
ghost use Rattle.record_target.specs.Usable.{IsReady};
ghost use Rattle.record_target.specs.inner.Permitting.{permit};
ghost use Rattle.store_abstraction.specs.Calls.{Calls, ended_edit};
ghost use Rattle.store_abstraction.specs.Layouts.{IsLayout};
ghost use Rattle.store_abstraction.specs.Local.{StandsIn};
ghost use Rattle.store_abstraction.specs.Plan.{OrgPlan};

use crate::kept::{KeptRecord, kept_record};
use crate::usable::is_ready;
use access_traits::{Rights, at_least, below};
use base_value::{Id, Level, Text, id_in};
use model::{Refusal, object_laws};
use record_index::pivot_laws;
use record_read::data_laws;
use std::alloc::Global;
use store_abstraction::{EditFail, Layout, call_laws};
use store_edit::layout_there;
use store_kv::{Draft, Keeper, draft_laws};
use store_rows::StoreFail;

/// The object and the record that a request names.
#[derive(Drop)]
pub struct Named {
    pub layout: Layout,
    pub kept: KeptRecord,
}

/// The layout of the object with this name, by which records can be read and changed.
///
/// # Errors
///
/// `Refused` with `InvalidType` if there is no such object. `Store` with `Keeper` if the keeper failed, `Memory` if out of memory,
/// `Damaged` never if the organisation's rows stand for a tenant.
pub fn ready_layout<K: Keeper>(
    alloc: Global,
    draft: &mut Draft<'_, K>,
    org: u32,
    name: &Text,
) -> Result<Layout, EditFail>
    ensures names { DraftTells K.state draft.old draft.new
        → (q : OrgPlan) (t : Tenant) → StandsIn org q (tables_of K.state draft.old) (Some t) → NamesLayout org q t name.now result }
    ensures form { IfOk result (IsReady org) }
    ensures calls { Calls K.state 0 (ended_edit result) draft.old draft.new }
{
    call_laws::<K>();
    object_laws();
    data_laws();
    pivot_laws();
    let mut layout = layout_there(alloc, draft, org, name)?;
    // As it is already, whatever the tables have.
    layout.org = org;
    if is_ready(&layout) {
        Ok(layout)
    } else {
        Err(EditFail::Store(StoreFail::Damaged))
    }
}

// The id that a text spells.
fn spelled_id(alloc: Global, text: &Text) -> Result<Id, EditFail>
    ensures { SpellsId text.now result }
{
    match id_in(text.as_str()) {
        Some(id) => Ok(id),
        None => {
            let text = text.copy(alloc)?;
            Err(EditFail::Refused(Refusal::MalformedId { text }))
        }
    }
}

// The record that was found, or a refusal where there is none.
fn record_or_none(found: Result<Option<KeptRecord>, StoreFail>) -> Result<KeptRecord, EditFail>
    ensures { result ≡ record_or_none found }
{
    match found {
        Ok(Some(kept)) => Ok(kept),
        Ok(None) => Err(EditFail::Refused(Refusal::NotFound)),
        Err(fail) => Err(EditFail::Store(fail)),
    }
}

// The record of an object that a text names.
fn named_record<K: Keeper>(
    alloc: Global,
    draft: &mut Draft<'_, K>,
    layout: &Layout,
    key: &Text,
) -> Result<KeptRecord, EditFail>
    ensures names { DraftTells K.state draft.old draft.new
        → (q : OrgPlan) (t : Tenant) → StandsIn layout.now.org q (tables_of K.state draft.old) (Some t) → IsLayout q t layout.now
        → NamesRecord q t layout.now key.now result }
    ensures form { IfOk result (FitsKept layout.now) }
    ensures calls { Calls K.state 1 (ended_edit result) draft.old draft.new }
{
    call_laws::<K>();
    match spelled_id(alloc, key) {
        Ok(id) => record_or_none(kept_record(alloc, draft, layout, &id)),
        Err(fail) => Err(fail),
    }
}

// The object with this name, and its record that a text names.
fn find_named<K: Keeper>(
    alloc: Global,
    draft: &mut Draft<'_, K>,
    org: u32,
    name: &Text,
    key: &Text,
) -> Result<Named, EditFail>
    ensures finds { DraftTells K.state draft.old draft.new
        → (q : OrgPlan) (a : Asked) → StandsIn org q (tables_of K.state draft.old) (Some a.tenant)
        → FindsNamed org q a name.now key.now result }
    ensures form { IfOk result (FitsNamed org) }
    ensures calls { Calls K.state 1 (ended_edit result) draft.old draft.new }
{
    draft_laws::<K>();
    call_laws::<K>();
    object_laws();
    let layout = ready_layout(alloc, draft, org, name)?;
    let kept = named_record(alloc, draft, &layout, key)?;
    Ok(Named { layout, kept })
}

// What was found, if it may be read and the level on it is enough.
fn permit(named: Named, least: Level, level: Result<Level, StoreFail>) -> Result<Named, EditFail>
    ensures { result ≡ permit named least level }
{
    match level {
        Ok(level) => {
            if !at_least(Level::Read, level) {
                return Err(EditFail::Refused(Refusal::NotFound));
            }
            match below(least, level) {
                Some(refusal) => Err(EditFail::Refused(refusal)),
                None => Ok(named),
            }
        }
        Err(fail) => Err(EditFail::Store(fail)),
    }
}

/// The object with this name, and its record that a text names, on which the user has this level.
///
/// # Errors
///
/// `Refused` with `InvalidType` if there is no such object, `MalformedId` if the text spells no id, `NotFound` if the object has no
/// record with that id or the user may not read it, and else `InsufficientAccess` if the level is too low. `Store` with `Keeper` if
/// the keeper failed, `Memory` if out of memory, `Damaged` never if the organisation's rows stand for a tenant of whose user the
/// rights are.
pub fn find_permitted<K: Keeper, R: Rights>(
    alloc: Global,
    draft: &mut Draft<'_, K>,
    rights: &R,
    org: u32,
    name: &Text,
    key: &Text,
    least: Level,
) -> Result<Named, EditFail>
    ensures finds { DraftTells K.state draft.old draft.new
        → (q : OrgPlan) (a : Asked) → StandsIn org q (tables_of K.state draft.old) (Some a.tenant) → R.whose rights.now a.tenant a.user
        → FindsPermitted org q a name.now key.now least result }
    ensures form { IfOk result (FitsNamed org) }
    ensures calls { Calls K.state 5 (ended_edit result) draft.old draft.new }
{
    draft_laws::<K>();
    call_laws::<K>();
    let named = find_named(alloc, draft, org, name, key)?;
    let level = rights.level_at(alloc, draft, org, named.layout.object, &named.kept.item.id);
    permit(named, least, level)
}

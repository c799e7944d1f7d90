//! The record that is to be shared, or whose share is to end.

ghost use Rattle.std.specs.Prelude.{◌≡◌, Some, not};
ghost use Rattle.store_kv.specs.Draft.{DraftTells, tables_of};
ghost use Rattle.model.specs.declared.record.Record.{Record};
ghost use Rattle.model.specs.declared.refusal.Refusal.TheVariants.{InsufficientAccess, InvalidType};
ghost use Rattle.model.specs.Fields.{by_parent};
ghost use Rattle.model.specs.Levels.{at_least};
ghost use Rattle.model.specs.Objects.{record_at};
ghost use Rattle.model.specs.Paths.{Asked};
ghost use Rattle.model.specs.Rules.{refuse_if};
ghost use Rattle.model.specs.Shares.{detail_refused};
ghost use Rattle.model.specs.Tenant.{Tenant};
ghost use Rattle.store_edit.specs.Judging.{Passes};
ghost use Rattle.access_traits.specs.Rights.{level_shown};
ghost use Rattle.access_shares.specs.Shareable.{FindsShareable};
ghost use Rattle.access_shares.specs.inner.Finding.{FindsLevel, readable_or_none};
ghost use Rattle.store_abstraction.specs.Calls.{Calls, ended_edit, fell};
ghost use Rattle.store_abstraction.specs.Local.{StandsIn};
ghost use Rattle.store_abstraction.specs.Plan.{OrgPlan};
ghost use Rattle.base_value.specs.declared.sharing.Level.TheVariants.{Full};

use access_traits::{Rights, at_least, below};
use base_value::{Access, Id, Level};
use model::Refusal;
use record_cascade::object_number;
use std::alloc::Global;
use store_abstraction::{EditFail, call_laws, object_there};
use store_edit::invalid_type;
use store_kv::{Draft, Keeper, draft_laws};
use store_rows::{ObjectRow, StoreFail};

// The level, if the record may be read by it: one that can't be read counts as none.
fn readable_or_none(level: Result<Level, StoreFail>) -> Result<Level, EditFail>
    ensures { result ≡ readable_or_none level }
{
    match level {
        Ok(level) => {
            if at_least(Level::Read, level) {
                Ok(level)
            } else {
                Err(EditFail::Refused(Refusal::NotFound))
            }
        }
        Err(fail) => Err(EditFail::Store(fail)),
    }
}

// The level of who asks on the record with this id, which they may read.
fn readable_level<K: Keeper, R: Rights>(
    alloc: Global,
    draft: &mut Draft<'_, K>,
    rights: &R,
    org: u32,
    id: &Id,
) -> Result<Level, EditFail>
    ensures finds { DraftTells K.state draft.old draft.new
        → (q : OrgPlan) (a : Asked) → StandsIn org q (tables_of K.state draft.old) (Some a.tenant)
        → R.whose rights.now a.tenant a.user → FindsLevel a id.now result }
    ensures calls { Calls K.state level_shown (ended_edit result) draft.old draft.new }
{
    readable_or_none(rights.level_at(alloc, draft, org, object_number(id), id))
}

// Refuses the object with this row if it is a detail.
fn check_object(alloc: Global, row: &ObjectRow) -> Result<(), EditFail>
    ensures passes { Passes (refuse_if (by_parent row.now.access.access) (InvalidType row.now.name)) (λ x. Unit {0}) result }
    ensures cause { ended_edit result ≡ fell → ⊥ }
{
    match row.access.access {
        Access::ControlledByParent => Err(EditFail::Refused(invalid_type(alloc, &row.name)?)),
        _ => Ok(()),
    }
}

// Refuses the record with this id if its object is a detail.
fn check_detail<K: Keeper>(
    alloc: Global,
    draft: &mut Draft<'_, K>,
    org: u32,
    id: &Id,
) -> Result<(), EditFail>
    ensures passes { DraftTells K.state draft.old draft.new
        → (q : OrgPlan) (t : Tenant) (r : Record) → StandsIn org q (tables_of K.state draft.old) (Some t)
        → record_at t id.now ≡ Some r → Passes (detail_refused t r) (λ x. Unit {0}) result }
    ensures calls { Calls K.state 0 (ended_edit result) draft.old draft.new }
{
    call_laws::<K>();
    match object_there(alloc, draft, org, object_number(id)) {
        Ok(row) => check_object(alloc, &row),
        Err(fail) => Err(EditFail::Store(fail)),
    }
}

// Refuses whose level isn't Full.
fn check_level(level: Level) -> Result<(), EditFail>
    ensures passes { Passes (refuse_if (not (at_least Full level)) InsufficientAccess) (λ x. Unit {0}) result }
    ensures cause { ended_edit result ≡ fell → ⊥ }
{
    match below(Level::Full, level) {
        None => Ok(()),
        Some(refusal) => Err(EditFail::Refused(refusal)),
    }
}

/// Looks for the record with this id, which who has the rights may share.
///
/// # Errors
///
/// `Refused` with `NotFound` if they can't read it, `InvalidType` if it is a detail, `InsufficientAccess` if their level on it
/// isn't Full. `Store` with `Keeper` if the keeper failed, `Memory` if out of memory, `Damaged` never if the organisation's rows
/// stand for a tenant of whose user the rights are.
pub fn find_shareable<K: Keeper, R: Rights>(
    alloc: Global,
    draft: &mut Draft<'_, K>,
    rights: &R,
    org: u32,
    id: &Id,
) -> Result<(), EditFail>
    ensures finds { DraftTells K.state draft.old draft.new
        → (q : OrgPlan) (a : Asked) → StandsIn org q (tables_of K.state draft.old) (Some a.tenant)
        → R.whose rights.now a.tenant a.user → FindsShareable a id.now result }
    ensures calls { Calls K.state level_shown (ended_edit result) draft.old draft.new }
{
    draft_laws::<K>();
    call_laws::<K>();
    let level = readable_level(alloc, draft, rights, org, id)?;
    check_detail(alloc, draft, org, id)?;
    check_level(level)
}

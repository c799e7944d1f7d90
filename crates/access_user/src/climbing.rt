//! The level on a record, by its masters.

ghost use Rattle.std.specs.Prelude.{◌≡◌, ℕ, [], false, length};
ghost use Rattle.formula.specs.Meaning.{value_at};
ghost use Rattle.access_user.specs.inner.Climbing.{IsLevel, IsLevelWithin, IsOwnLevel, MakesOwn, MayClimb, MayJudge, MaySee, full_of, master_there};
ghost use Rattle.access_user.specs.inner.Steps.{TellsWhere, most_above};
ghost use Rattle.store_kv.specs.Draft.{DraftTells, tables_of};
ghost use Rattle.model.specs.Levels.{full_for_edit};
ghost use Rattle.model.specs.Tenant.{Tenant};
ghost use Rattle.record_target.specs.Shares.{ListsShares};
ghost use Rattle.store_abstraction.specs.Calls.{Calls, ended};
ghost use Rattle.store_abstraction.specs.Layouts.{FindsOf};
ghost use Rattle.store_abstraction.specs.Local.{StandsIn};
ghost use Rattle.store_abstraction.specs.Plan.{OrgPlan};
ghost use Rattle.base_value.specs.declared.sharing.Level.TheVariants.{Full};
ghost use Rattle.base_value.specs.Values.{ref_of};

use crate::level::{OwnLevels, is_settled, level_apart, level_with, own_levels};
use crate::rights::UserRights;
use crate::sight::UserSight;
use crate::steps::{Step, steps_from};
use base_value::{Id, Items, Level, Value};
use model::Record;
use record_read::load_record;
use record_target::shares_of;
use std::alloc::Global;
use store_abstraction::{Layout, call_laws};
use store_codec::CodecFail;
use store_kv::{Draft, Keeper, draft_laws};
use store_rows::{ShareRow, StoreFail};

// The most fields of an object.
const MOST_FIELDS: usize = 40;

/// The most masters above a record, one above another.
pub(crate) const MOST_MASTERS: usize = 3;

// ---- what is known of the topmost object

// What the user may do with the records of an object that is no detail.
fn own_of(alloc: Global, rights: &UserRights, layout: &Layout) -> Result<OwnLevels, CodecFail>
    ensures { MakesOwn rights.now layout.now [] result }
{
    if layout.fields.as_slice().len() > MOST_FIELDS {
        return Err(CodecFail::Damaged);
    }
    Ok(own_levels(
        alloc,
        &rights.sharer,
        &rights.user,
        rights.rules.as_slice(),
        layout,
    )?)
}

/// The same of the object to which the steps from another lead.
///
/// # Errors
///
/// `Memory` if out of memory, `Damaged` never if the layouts are those of a tenant of whose user the rights are.
pub(crate) fn own_at_end(
    alloc: Global,
    rights: &UserRights,
    layout: &Layout,
    steps: &[Step],
) -> Result<OwnLevels, CodecFail>
    ensures { MakesOwn rights.now layout.now steps.now result }
{
    let Some((step, rest)) = steps.split_first() else {
        return own_of(alloc, rights, layout);
    };
    own_at_end(alloc, rights, &step.layout, rest)
}

// ---- a record's master

fn id_of(value: &Value) -> Option<Id>
    ensures { result ≡ ref_of value.now }
{
    match value {
        Value::Ref(id) => Some(*id),
        _ => None,
    }
}

// The id to which a record's value at a position refers.
fn id_at(item: &Record, position: usize) -> Option<Id>
    ensures { result ≡ ref_of (value_at item.now.values position) }
{
    match item.values.as_slice().get(position) {
        None => None,
        Some(value) => id_of(value),
    }
}

// The master of a record, if it names one.
fn master_of<K: Keeper>(
    alloc: Global,
    draft: &mut Draft<'_, K>,
    step: &Step,
    item: &Record,
) -> Result<Option<Record>, StoreFail>
    ensures finds { DraftTells K.state draft.old draft.new
        → FindsOf step.now.layout (master_there step.now item.now) (tables_of K.state draft.old) result }
    ensures calls { Calls K.state 1 (ended result) draft.old draft.new }
{
    draft_laws::<K>();
    call_laws::<K>();
    match &id_at(item, step.position) {
        Some(id) => load_record(alloc, draft, &step.layout, id),
        None => Ok(None),
    }
}

// ---- levels

fn full_for_edit(level: Level) -> Level
    ensures { result ≡ full_for_edit level }
{
    match level {
        Level::Edit => Level::Full,
        level => level,
    }
}

// The level on a detail, by that on its master.
fn full_of(level: Result<Level, StoreFail>) -> Result<Level, StoreFail>
    ensures { result ≡ full_of level }
{
    match level {
        Ok(level) => Ok(full_for_edit(level)),
        Err(fail) => Err(fail),
    }
}

// The shares of a record: none is read if the organisation has none.
fn shares_on<K: Keeper>(
    alloc: Global,
    draft: &mut Draft<'_, K>,
    org: u32,
    shared: bool,
    id: &Id,
) -> Result<Items<ShareRow>, StoreFail>
    ensures lists { DraftTells K.state draft.old draft.new
        → (q : OrgPlan) (t : Tenant) → StandsIn org q (tables_of K.state draft.old) (Some t) → (shared ≡ false → t.shares ≡ [])
        → ListsShares org t id.now result }
    ensures calls { Calls K.state 0 (ended result) draft.old draft.new }
{
    call_laws::<K>();
    if shared {
        shares_of(alloc, draft, org, id)
    } else {
        Ok(Items::new(alloc))
    }
}

// The level on a record that has no master, as far as it is asked for. Its shares are read only where they may matter.
fn own_level<K: Keeper>(
    alloc: Global,
    draft: &mut Draft<'_, K>,
    org: u32,
    sight: &UserSight<'_>,
    asked: Level,
    item: Record,
) -> Result<Level, StoreFail>
    ensures finds { DraftTells K.state draft.old draft.new
        → TellsWhere org (MayClimb sight.now org [] item) (IsOwnLevel asked item) (tables_of K.state draft.old) result }
    ensures calls { Calls K.state 0 (ended result) draft.old draft.new }
{
    call_laws::<K>();
    let id = item.id;
    let apart = level_apart(alloc, &sight.rights.sharer, &sight.own, item)?;
    if is_settled(asked, apart) {
        return Ok(apart);
    }
    let shares = shares_on(alloc, draft, org, sight.shared, &id)?;
    Ok(level_with(&sight.rights.sharer, &sight.own, apart, shares.as_slice()))
}

// The level on a record, as far as it is asked for, by the steps to its topmost master.
fn level_through<K: Keeper>(
    alloc: Global,
    draft: &mut Draft<'_, K>,
    org: u32,
    sight: &UserSight<'_>,
    asked: Level,
    steps: &[Step],
    item: Record,
) -> Result<Level, StoreFail>
    ensures finds { DraftTells K.state draft.old draft.new
        → TellsWhere org (MayClimb sight.now org steps.now item) (IsLevelWithin asked (length steps.now) item)
        (tables_of K.state draft.old) result }
    ensures calls { Calls K.state (length steps.now) (ended result) draft.old draft.new }
{
    draft_laws::<K>();
    call_laws::<K>();
    let Some((step, rest)) = steps.split_first() else {
        return own_level(alloc, draft, org, sight, asked, item);
    };
    match master_of(alloc, draft, step, &item) {
        Ok(Some(master)) => full_of(level_through(alloc, draft, org, sight, asked, rest, master)),
        Ok(None) => Ok(Level::Nothing),
        Err(fail) => Err(fail),
    }
}

/// The level on a record by the layout of its object, as far as it is asked for, of a user who sees so.
///
/// # Errors
///
/// `Keeper` if the keeper failed, `Memory` if out of memory, `Damaged` never if the organisation's rows stand for a tenant whose
/// layout and whose record it is, and of whose user this is the sight.
pub(crate) fn level_in<K: Keeper>(
    alloc: Global,
    draft: &mut Draft<'_, K>,
    sight: &UserSight<'_>,
    asked: Level,
    layout: &Layout,
    item: Record,
) -> Result<Level, StoreFail>
    ensures finds { DraftTells K.state draft.old draft.new
        → TellsWhere layout.now.org (MaySee sight.now layout.now item) (IsLevel asked item) (tables_of K.state draft.old) result }
    ensures calls { Calls K.state 3 (ended result) draft.old draft.new }
{
    draft_laws::<K>();
    call_laws::<K>();
    match steps_from(alloc, draft, layout, MOST_MASTERS) {
        Ok(steps) => level_through(
            alloc,
            draft,
            layout.org,
            sight,
            asked,
            steps.as_slice(),
            item,
        ),
        Err(fail) => Err(fail),
    }
}

/// The level on a record by the layout of its object.
///
/// # Errors
///
/// `Keeper` if the keeper failed, `Memory` if out of memory, `Damaged` never if the organisation's rows stand for a tenant whose
/// layout and whose record it is, and of whose user the rights are.
pub(crate) fn level_of<K: Keeper>(
    alloc: Global,
    draft: &mut Draft<'_, K>,
    rights: &UserRights,
    layout: &Layout,
    item: Record,
) -> Result<Level, StoreFail>
    ensures finds { DraftTells K.state draft.old draft.new
        → TellsWhere layout.now.org (MayJudge rights.now layout.now item) (IsLevel Full item) (tables_of K.state draft.old) result }
    ensures calls { Calls K.state (most_above 3 layout.now) (ended result) draft.old draft.new }
{
    draft_laws::<K>();
    call_laws::<K>();
    match steps_from(alloc, draft, layout, MOST_MASTERS) {
        Ok(steps) => match own_at_end(alloc, rights, layout, steps.as_slice()) {
            Ok(own) => {
                // Whether there are shares is asked for one record alone.
                let shared = true;
                let sight = UserSight {
                    rights,
                    own,
                    shared,
                };
                level_through(
                    alloc,
                    draft,
                    layout.org,
                    &sight,
                    Level::Full,
                    steps.as_slice(),
                    item,
                )
            }
            Err(fail) => Err(StoreFail::from(fail)),
        },
        Err(fail) => Err(fail),
    }
}

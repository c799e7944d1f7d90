//! Refusals by the level of who asks: on the master of a new detail, and on a record that gets another owner.

ghost use Rattle.std.specs.Prelude.{◌≡◌};
ghost use Rattle.store_kv.specs.Draft.{DraftTells, tables_of};
ghost use Rattle.record_save.specs.inner.Levels.{below_master, below_owner, below_there, master_named};
ghost use Rattle.access_traits.specs.Rights.{FindsFor, level_shown};
ghost use Rattle.store_abstraction.specs.Calls.{Calls, ended};

use crate::staying::master_among;
use access_traits::{Rights, below};
use base_value::{Id, Level};
use model::{Record, Refusal};
use record_constraints::named_at;
use std::alloc::Global;
use store_abstraction::{Layout, call_laws};
use store_kv::{Draft, Keeper, draft_laws};
use store_rows::StoreFail;

// The refusal of whose level is below this on the record of an object that has this id, as it is where there is none.
fn refused_below<K: Keeper, R: Rights>(
    alloc: Global,
    draft: &mut Draft<'_, K>,
    rights: &R,
    org: u32,
    object: u16,
    id: &Id,
    least: Level,
) -> Result<Option<Refusal>, StoreFail>
    ensures finds { DraftTells K.state draft.old draft.new
        → FindsFor org (R.whose rights.now) (below_there least object id.now) (tables_of K.state draft.old) result }
    ensures calls { Calls K.state level_shown (ended result) draft.old draft.new }
{
    match rights.level_at(alloc, draft, org, object, id) {
        Ok(level) => Ok(below(least, level)),
        Err(fail) => Err(fail),
    }
}

// The object and the id of the master that a record names, if it names one.
fn named_master(layout: &Layout, new: &Record) -> Option<(u16, Id)>
    ensures { result ≡ master_named layout.now new.now }
{
    let (position, field) = master_among(layout.fields.as_slice(), 1)?;
    named_at(&field.kind, position, new)
}

/// The refusal of a new detail, if who makes it hasn't Edit on its master.
///
/// # Errors
///
/// `Keeper` if the keeper failed, `Memory` if out of memory, `Damaged` never if the organisation's rows stand for a tenant of whose
/// user the rights are.
pub(crate) fn refused_by_master<K: Keeper, R: Rights>(
    alloc: Global,
    draft: &mut Draft<'_, K>,
    rights: &R,
    layout: &Layout,
    new: &Record,
) -> Result<Option<Refusal>, StoreFail>
    ensures finds { DraftTells K.state draft.old draft.new
        → FindsFor layout.now.org (R.whose rights.now) (below_master layout.now new.now) (tables_of K.state draft.old) result }
    ensures calls { Calls K.state level_shown (ended result) draft.old draft.new }
{
    draft_laws::<K>();
    call_laws::<K>();
    match named_master(layout, new) {
        None => Ok(None),
        Some((object, id)) => {
            refused_below(alloc, draft, rights, layout.org, object, &id, Level::Edit)
        }
    }
}

/// The refusal of another owner, if who gives the record one hasn't Full on it.
///
/// # Errors
///
/// `Keeper` if the keeper failed, `Memory` if out of memory, `Damaged` never if the organisation's rows stand for a tenant of whose
/// user the rights are.
pub(crate) fn refused_owner<K: Keeper, R: Rights>(
    alloc: Global,
    draft: &mut Draft<'_, K>,
    rights: &R,
    layout: &Layout,
    old: &Record,
    new: &Record,
) -> Result<Option<Refusal>, StoreFail>
    ensures finds { DraftTells K.state draft.old draft.new
        → FindsFor layout.now.org (R.whose rights.now) (below_owner layout.now old.now new.now) (tables_of K.state draft.old) result }
    ensures calls { Calls K.state level_shown (ended result) draft.old draft.new }
{
    draft_laws::<K>();
    call_laws::<K>();
    if old.owner == new.owner {
        Ok(None)
    } else {
        refused_below(
            alloc,
            draft,
            rights,
            layout.org,
            layout.object,
            &old.id,
            Level::Full,
        )
    }
}

//! What a user who doesn't administer sees of the records of one object, and the levels on records by their ids.

ghost use Rattle.std.specs.Prelude.{◌≡◌, Some, suc, true};
ghost use Rattle.access_user.specs.Granting.{IsUserRights};
ghost use Rattle.access_user.specs.Sights.{FindsSight, IsSight, OwnAt, topmost};
ghost use Rattle.access_user.specs.inner.Judging.{MayLook, is_readable};
ghost use Rattle.access_user.specs.inner.Steps.{TellsWhere, most_above};
ghost use Rattle.store_kv.specs.Draft.{DraftTells, tables_of};
ghost use Rattle.model.specs.declared.record.Record.{Record};
ghost use Rattle.model.specs.Levels.{own_level, owns};
ghost use Rattle.model.specs.Membership.{Has};
ghost use Rattle.model.specs.Objects.{records_of};
ghost use Rattle.model.specs.Tenant.{Tenant, User};
ghost use Rattle.store_codec.specs.Gives.{Gives};
ghost use Rattle.access_traits.specs.Rights.{kept_record, level_there};
ghost use Rattle.store_abstraction.specs.Calls.{Calls, ended};
ghost use Rattle.store_abstraction.specs.declared.layout.Layout.{Layout};
ghost use Rattle.base_value.specs.declared.sharing.Level.TheVariants.{Full};

use crate::climbing::{MOST_MASTERS, level_in, level_of, own_at_end};
use crate::level::{OwnLevels, is_readable_by_all, owns};
use crate::rights::UserRights;
use crate::shares::has_shares;
use crate::steps::steps_from;
use access_traits::{Rights, Sight, at_least};
use base_value::{Id, Level};
use model::Record;
use record_read::{load_record, record_of};
use std::alloc::Global;
use store_abstraction::{Layout, call_laws, layout_at};
use store_codec::CodecFail;
use store_kv::{Draft, Keeper, KeptRow, draft_laws};
use store_rows::{DataRow, RowForm, StoreFail};
use store_view::RowView;

/// What a user who doesn't administer sees of the records of one object.
#[derive(Drop)]
pub struct UserSight<'a> {
    /// The user's rights.
    pub rights: &'a UserRights,
    /// What is so of all records of the object of the topmost masters.
    pub own: OwnLevels,
    /// Whether the organisation may have manual shares: else no record's are read.
    pub shared: bool,
}

// What is so of all records of the object of the topmost masters.
fn own_top<K: Keeper>(
    alloc: Global,
    draft: &mut Draft<'_, K>,
    rights: &UserRights,
    layout: &Layout,
) -> Result<OwnLevels, StoreFail>
    ensures finds { DraftTells K.state draft.old draft.new
        → TellsWhere layout.now.org (MayLook rights.now layout.now)
        (λ own q t u. OwnAt rights.now.sharer.people t u (topmost 3 t.objects layout.now.object) own)
        (tables_of K.state draft.old) result }
    ensures calls { Calls K.state 0 (ended result) draft.old draft.new }
{
    draft_laws::<K>();
    call_laws::<K>();
    match steps_from(alloc, draft, layout, MOST_MASTERS) {
        Ok(steps) => match own_at_end(alloc, rights, layout, steps.as_slice()) {
            Ok(own) => Ok(own),
            Err(fail) => Err(StoreFail::from(fail)),
        },
        Err(fail) => Err(fail),
    }
}

/// What the user with these rights sees of the records of an object.
///
/// # Errors
///
/// `Keeper` if the keeper failed, `Memory` if out of memory, `Damaged` never if the organisation's rows stand for a tenant whose
/// layout it is and of whose user the rights are.
pub fn sight_of<'a, K: Keeper>(
    alloc: Global,
    draft: &mut Draft<'_, K>,
    rights: &'a UserRights,
    layout: &Layout,
) -> Result<UserSight<'a>, StoreFail>
    ensures finds { DraftTells K.state draft.old draft.new
        → FindsSight rights.now layout.now (tables_of K.state draft.old) result }
    ensures calls { Calls K.state 0 (ended result) draft.old draft.new }
{
    draft_laws::<K>();
    call_laws::<K>();
    match own_top(alloc, draft, rights, layout) {
        Ok(own) => match has_shares(alloc, draft, layout.org) {
            Ok(shared) => Ok(UserSight {
                rights,
                own,
                shared,
            }),
            Err(fail) => Err(fail),
        },
        Err(fail) => Err(fail),
    }
}

// The record of a row, by the layout of its object.
fn item_of(alloc: Global, layout: &Layout, row: &KeptRow) -> Result<Record, CodecFail>
    ensures { Gives result (kept_record layout.now row.now) }
{
    match DataRow::of_parts(alloc, row.key.as_slice(), row.row.as_slice()) {
        Ok(row) => record_of(alloc, layout, &row),
        Err(fail) => Err(fail),
    }
}

// Whether the record of a row is the user's, or, where the role hierarchy counts, of a user below, by its owner alone. A record with an
// owner is no detail, so that the object of which the sight knows is its own.
fn is_owned(sight: &UserSight<'_>, row: &KeptRow) -> bool
    ensures value { (l : Layout) (r : Record) (t : Tenant) (u : User) → kept_record l row.now ≡ Some r → IsSight t u l.object sight.now
        → Has (records_of t l.object) r → result ≡ owns t u r }
    ensures full { (l : Layout) (r : Record) (t : Tenant) (u : User) → kept_record l row.now ≡ Some r → IsSight t u l.object sight.now
        → Has (records_of t l.object) r → result ≡ true → own_level t u r ≡ Full }
{
    match RowView::of(row.key.as_slice(), row.row.as_slice()) {
        Some(view) => owns(
            &sight.rights.sharer,
            sight.own.members.as_ref(),
            view.owner(),
        ),
        None => false,
    }
}

// Whether who has this level may read.
fn is_readable(level: Result<Level, StoreFail>) -> Result<bool, StoreFail>
    ensures { result ≡ is_readable level }
{
    match level {
        Ok(level) => Ok(at_least(Level::Read, level)),
        Err(fail) => Err(fail),
    }
}

impl Sight for UserSight<'_> {
    ghost sees = { λ s l t u. IsSight t u l.object s };

    ghost shown = { 3 };

    fn may_read<K: Keeper>(
        &self,
        alloc: Global,
        draft: &mut Draft<'_, K>,
        layout: &Layout,
        row: &KeptRow,
    ) -> Result<bool, StoreFail> {
        draft_laws::<K>();
        call_laws::<K>();
        if is_readable_by_all(&self.own) {
            return Ok(true);
        }
        if is_owned(self, row) {
            return Ok(true);
        }
        match item_of(alloc, layout, row) {
            Ok(item) => is_readable(level_in(alloc, draft, self, Level::Read, layout, item)),
            Err(fail) => Err(StoreFail::from(fail)),
        }
    }
}

// The level on the record of a layout's object that has this id.
fn level_by<K: Keeper>(
    alloc: Global,
    draft: &mut Draft<'_, K>,
    rights: &UserRights,
    layout: &Layout,
    id: &Id,
) -> Result<Level, StoreFail>
    ensures finds { DraftTells K.state draft.old draft.new
        → TellsWhere layout.now.org (MayLook rights.now layout.now) (λ x q t u. x ≡ level_there t u layout.now.object id.now)
        (tables_of K.state draft.old) result }
    ensures calls { Calls K.state (suc (most_above 3 layout.now)) (ended result) draft.old draft.new }
{
    draft_laws::<K>();
    call_laws::<K>();
    match load_record(alloc, draft, layout, id) {
        Ok(Some(item)) => level_of(alloc, draft, rights, layout, item),
        Ok(None) => Ok(Level::Nothing),
        Err(fail) => Err(fail),
    }
}

impl Rights for UserRights {
    ghost whose = { λ s t u. IsUserRights t u s };

    fn level_at<K: Keeper>(
        &self,
        alloc: Global,
        draft: &mut Draft<'_, K>,
        org: u32,
        object: u16,
        id: &Id,
    ) -> Result<Level, StoreFail> {
        draft_laws::<K>();
        call_laws::<K>();
        match layout_at(alloc, draft, org, object) {
            Ok(Some(layout)) => level_by(alloc, draft, self, &layout, id),
            Ok(None) => Ok(Level::Nothing),
            Err(fail) => Err(fail),
        }
    }
}

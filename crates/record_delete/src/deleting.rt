//! Deletions, judged and made.

ghost use Rattle.std.specs.Prelude.{◌≡◌, ◌+◌, ◌*◌, ◌++◌, ◌<◌, ◌≤◌, ◌&&◌, ◌==◌, ℤ, IfOk, List, OnOk, Some, length, nat_le};
ghost use Rattle.std.specs.List.{list_all};
ghost use Rattle.record_cascade.specs.Deletion.{cleared_ids, gone_ids};
ghost use Rattle.record_read.specs.Decoding.{has_types};
ghost use Rattle.record_delete.specs.Deleting.{IsDeleting, PlansKept, counts_less, deleted_changes, shares_ended};
ghost use Rattle.record_delete.specs.inner.Adding.{Adds, AddsThese, AreReady};
ghost use Rattle.record_delete.specs.inner.Doomed.{AreAll, Dooms, FindsTarget, FitsDoomed};
ghost use Rattle.store_kv.specs.Draft.{DraftTells, tables_of};
ghost use Rattle.model.specs.declared.record.Record.{Record};
ghost use Rattle.model.specs.Deletes.{delete, without};
ghost use Rattle.model.specs.Limits.{deletion_limit};
ghost use Rattle.model.specs.Membership.{Has};
ghost use Rattle.model.specs.Paths.{Asked};
ghost use Rattle.model.specs.Tenant.{Tenant};
ghost use Rattle.model.specs.Verdict.{done};
ghost use Rattle.record_index.specs.Turned.{converts};
ghost use Rattle.store_abstraction.specs.Calls.{Calls, ended, ended_edit};
ghost use Rattle.store_abstraction.specs.Layouts.{own_layouts};
ghost use Rattle.store_abstraction.specs.Local.{StandsIn};
ghost use Rattle.store_abstraction.specs.Plan.{OrgPlan};
ghost use Rattle.record_index.specs.diff.Touched.{touched_changes};

use crate::clearing::clear_records;
use crate::counts::count_less;
use crate::delete::Delete;
use crate::ending::end_shares;
use crate::laws::delete_laws;
use crate::removing::remove_records;
use access_traits::Rights;
use base_value::{Id, Items, Level, Text};
use record_cascade::{Deletion, deletion_of};
use record_index::{pivot_laws, touched_laws};
use record_read::data_laws;
use record_target::{Named, find_permitted, is_ready};
use std::alloc::Global;
use store_abstraction::{EditFail, Layout, call_laws, layouts};
use store_edit::{Decided, Edit};
use store_kv::{Change, Draft, Keeper, draft_laws};
use store_rows::StoreFail;

// The most objects of an organisation.
const MOST_OBJECTS: usize = 100;

/// What goes and what loses a lookup, and the layouts of all objects.
#[derive(Drop)]
pub(crate) struct Doomed {
    pub layouts: Items<Layout>,
    pub deletion: Deletion,
}

// ---- judging

// Whether these are all layouts of this organisation, and can be used.
fn all_ready(org: u32, layouts: &[Layout]) -> bool
    ensures { result ≡ list_all (λ l. (l.org == org) && ((nat_le (length l.fields) 40 && has_types l) && converts l)) layouts.now }
{
    layouts
        .iter()
        .all(|layout| layout.org == org && is_ready(layout))
}

// Whether these are as few as an organisation may have, all of this one, and can be used.
fn are_ready(org: u32, layouts: &[Layout]) -> bool
    ensures { result ≡ (nat_le (length layouts.now) 100
        && list_all (λ l. (l.org == org) && ((nat_le (length l.fields) 40 && has_types l) && converts l)) layouts.now) }
{
    layouts.len() <= MOST_OBJECTS && all_ready(org, layouts)
}

// The layouts of all objects, which can be used.
fn ready_layouts<K: Keeper>(
    alloc: Global,
    draft: &mut Draft<'_, K>,
    org: u32,
) -> Result<Items<Layout>, StoreFail>
    ensures finds { DraftTells K.state draft.old draft.new
        → (q : OrgPlan) (t : Tenant) → StandsIn org q (tables_of K.state draft.old) (Some t) → AreAll org q t result }
    ensures ready { IfOk result (λ ls. AreReady org ls × length ls ≤ 100) }
    ensures calls { Calls K.state 0 (ended result) draft.old draft.new }
{
    call_laws::<K>();
    data_laws();
    pivot_laws();
    let all = layouts(alloc, draft, org)?;
    if are_ready(org, all.as_slice()) {
        Ok(all)
    } else {
        Err(StoreFail::Damaged)
    }
}

fn id_of(named: &Named) -> Id
    ensures { result ≡ named.now.kept.item.id }
{
    named.kept.item.id
}

// The id of the record of an object that a text names, which the user may delete.
fn target<K: Keeper, R: Rights>(
    alloc: Global,
    draft: &mut Draft<'_, K>,
    rights: &R,
    org: u32,
    name: &Text,
    key: &Text,
) -> Result<Id, EditFail>
    ensures finds { DraftTells K.state draft.old draft.new
        → (q : OrgPlan) (a : Asked) → StandsIn org q (tables_of K.state draft.old) (Some a.tenant) → R.whose rights.now a.tenant a.user
        → FindsTarget a name.now key.now result }
    ensures calls { Calls K.state 5 (ended_edit result) draft.old draft.new }
{
    call_laws::<K>();
    let named = find_permitted(alloc, draft, rights, org, name, key, Level::Full)?;
    Ok(id_of(&named))
}

// What goes with the record that a text names, if the user may delete it and no rule refuses it.
fn accept_delete<K: Keeper, R: Rights>(
    alloc: Global,
    draft: &mut Draft<'_, K>,
    rights: &R,
    org: u32,
    name: &Text,
    key: &Text,
) -> Result<Doomed, EditFail>
    ensures accepts { DraftTells K.state draft.old draft.new
        → (q : OrgPlan) (a : Asked) → StandsIn org q (tables_of K.state draft.old) (Some a.tenant) → R.whose rights.now a.tenant a.user
        → Dooms org q a name.now key.now result }
    ensures fits { IfOk result (FitsDoomed org) }
    ensures calls { Calls K.state 5 (ended_edit result) draft.old draft.new }
{
    draft_laws::<K>();
    call_laws::<K>();
    let id = target(alloc, draft, rights, org, name, key)?;
    let layouts = ready_layouts(alloc, draft, org)?;
    let deletion = deletion_of(alloc, draft, org, layouts.as_slice(), &id)?;
    Ok(Doomed { layouts, deletion })
}

// ---- changes

// The changes of all rows of what goes, and of the rows that count it and share it.
fn take_records<K: Keeper>(
    alloc: Global,
    draft: &mut Draft<'_, K>,
    org: u32,
    doomed: &Doomed,
    changes: &mut Vec<Change>,
) -> Result<(), StoreFail>
    requires { FitsDoomed org doomed.now }
    ensures adds { DraftTells K.state draft.old draft.new
        → (q : OrgPlan) (t : Tenant) (now : ℤ) (rs : List Record) → StandsIn org q (tables_of K.state draft.old) (Some t)
        → own_layouts org q (Some t) ≡ doomed.now.layouts → doomed.now.deletion.gone ≡ gone_ids t rs
        → AddsThese ((counts_less org t (gone_ids t rs) ++ shares_ended org t (gone_ids t rs))
        ++ touched_changes org q q t (without now rs t) (gone_ids t rs)) changes.old.items changes.new.items result }
    ensures own { OnOk result ((0 < length changes.new.items)
        × Adds org (101 + 245 * length doomed.now.deletion.gone) (length doomed.now.deletion.gone) changes.old.items changes.new.items) }
    ensures calls { Calls K.state (length doomed.now.deletion.gone) (ended result) draft.old draft.new }
{
    draft_laws::<K>();
    call_laws::<K>();
    touched_laws();
    let layouts = doomed.layouts.as_slice();
    let gone = doomed.deletion.gone.as_slice();
    count_less(alloc, draft, org, layouts, gone, changes)?;
    end_shares(alloc, draft, org, gone, changes)?;
    remove_records(alloc, draft, org, layouts, gone, changes)
}

// All changes of a deletion.
fn add_changes<K: Keeper>(
    alloc: Global,
    draft: &mut Draft<'_, K>,
    org: u32,
    now: i64,
    doomed: &Doomed,
    changes: &mut Vec<Change>,
) -> Result<(), StoreFail>
    requires { FitsDoomed org doomed.now }
    ensures adds { DraftTells K.state draft.old draft.new
        → (q : OrgPlan) (t : Tenant) (rs : List Record) → StandsIn org q (tables_of K.state draft.old) (Some t)
        → own_layouts org q (Some t) ≡ doomed.now.layouts → doomed.now.deletion.gone ≡ gone_ids t rs
        → doomed.now.deletion.cleared ≡ cleared_ids t rs → ((r : Record) → Has rs r → Has t.records r)
        → AddsThese (deleted_changes org q now t rs) changes.old.items changes.new.items result }
    ensures own { OnOk result ((0 < length changes.new.items)
        × Adds org 245101 (length doomed.now.deletion.gone) changes.old.items changes.new.items) }
    ensures calls { Calls K.state deletion_limit (ended result) draft.old draft.new }
{
    draft_laws::<K>();
    call_laws::<K>();
    touched_laws();
    take_records(alloc, draft, org, doomed, changes)?;
    let layouts = doomed.layouts.as_slice();
    let gone = doomed.deletion.gone.as_slice();
    let cleared = doomed.deletion.cleared.as_slice();
    clear_records(alloc, draft, org, layouts, now, gone, cleared, changes)
}

impl<R: Rights> Edit for Delete<'_, R> {
    type Answer = ();

    ghost verdict = { λ e a. delete a e.object.now e.key.now };

    ghost answered = { λ _. done };

    ghost planned = { λ e q t next. PlansKept q t next };

    ghost fits = { λ e a. IsDeleting (R.whose e.rights.now) e.now a };

    ghost most = { 245101 };

    ghost gone = { 1000 };

    ghost shown = { 1005 };

    fn judge<K: Keeper>(
        &self,
        alloc: Global,
        draft: &mut Draft<'_, K>,
        org: u32,
    ) -> Result<Decided<()>, EditFail> {
        draft_laws::<K>();
        call_laws::<K>();
        delete_laws();
        let doomed = accept_delete(alloc, draft, self.rights, org, self.object, self.key)?;
        let mut changes = Vec::new(alloc);
        add_changes(alloc, draft, org, self.now, &doomed, &mut changes)?;
        Ok(Decided {
            answer: (),
            changes,
        })
    }
}

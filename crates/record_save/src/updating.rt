//! Other values for records.

ghost use Rattle.std.specs.Prelude.{◌≡◌, ◌≤◌, IfErr, IfOk, IsTrue, List, OnOk, Some, length, ℕ};
ghost use Rattle.record_read.specs.Decoding.{kinds_in};
ghost use Rattle.store_edit.specs.Rows.{AreFew, AreSpelled};
ghost use Rattle.record_input.specs.Given.{FindsAll, IsPlain, all_given, key_of};
ghost use Rattle.store_kv.specs.Draft.{DraftTells, tables_of};
ghost use Rattle.store_rows.specs.declared.fail.StoreFail.TheVariants.{Memory};
ghost use Rattle.model.specs.Objects.{Numbered};
ghost use Rattle.model.specs.Paths.{Asked};
ghost use Rattle.model.specs.Rights.{record_of_object};
ghost use Rattle.model.specs.SoundRecords.{all_valid};
ghost use Rattle.model.specs.Updates.{update};
ghost use Rattle.model.specs.Verdict.{done};
ghost use Rattle.record_target.specs.Kept.{FitsKept, IsKept};
ghost use Rattle.record_target.specs.Usable.{IsReady, IsUsable};
ghost use Rattle.record_index.specs.Turned.{converts};
ghost use Rattle.record_save.specs.Creating.{IsGiving, IsObject};
ghost use Rattle.record_save.specs.inner.Altered.{AdmitsAltered};
ghost use Rattle.record_save.specs.inner.Giving.{Changes};
ghost use Rattle.record_save.specs.inner.Judged.{HaveKeys};
ghost use Rattle.record_save.specs.inner.Updated.{FitsAltered, Updates, altered_changes};
ghost use Rattle.record_save.specs.Updating.{DecidesChanged, PlansSame};
ghost use Rattle.access_traits.specs.Rights.{level_shown};
ghost use Rattle.schema_rules.specs.Objects.{object_of_layout};
ghost use Rattle.model_invariant.specs.Fit.{ReadsWell};
ghost use Rattle.store_abstraction.specs.Calls.{Calls, ended_edit};
ghost use Rattle.store_abstraction.specs.Fails.{of_store};
ghost use Rattle.store_abstraction.specs.Layouts.{IsLayout};
ghost use Rattle.store_abstraction.specs.Local.{StandsIn};
ghost use Rattle.store_abstraction.specs.Plan.{OrgPlan};

use crate::altering::refused_altered;
use crate::giving::{given_record, unless_missing};
use crate::laws::update_laws;
use crate::levels::refused_owner;
use crate::shares::ended_shares;
use crate::update::Update;
use access_traits::Rights;
use base_value::{Items, Level, Value, value_laws};
use model::{Record, Refusal, object_laws};
use model_invariant::records_sound;
use record_index::{changed_record_changes, pivot_laws};
use record_input::{AllGiven, given_laws};
use record_target::{KeptRecord, find_permitted, remove_shares};
use std::alloc::{AllocError, Global};
use store_abstraction::{EditFail, Layout, call_laws};
use store_edit::{Decided, Edit};
use store_kv::{Draft, Keeper, draft_laws};
use store_rows::ShareRow;

/// A record with other values that no rule refuses, and the rows of its shares that end.
#[derive(Drop)]
pub(crate) struct Altered {
    pub new: Record,
    pub shares: Items<ShareRow>,
}

// ---- copies

// Copies of values.
fn copies(alloc: Global, values: &[Value]) -> Result<Items<Value>, AllocError>
    ensures { IfOk result (λ copies. copies ≡ values.now) }
{
    let mut copies = Items::new(alloc);
    for value in values {
        copies.push(value.copy(alloc)?)?;
    }
    Ok(copies)
}

// A copy of a record.
fn record_copy(alloc: Global, item: &Record) -> Result<Record, AllocError>
    ensures { IfOk result (λ copy. copy ≡ item.now) }
{
    let values = copies(alloc, item.values.as_slice())?;
    Ok(Record {
        id: item.id,
        owner: item.owner,
        created: item.created,
        modified: item.modified,
        values,
    })
}

// ---- rules

// The record with other values, unless a name or a value that is given is refused, another owner by who hasn't the record in full,
// or a required field that is null then.
fn changed_record<K: Keeper, R: Rights>(
    alloc: Global,
    draft: &mut Draft<'_, K>,
    rights: &R,
    layout: &Layout,
    old: &Record,
    now: i64,
    given: &AllGiven<'_>,
) -> Result<Record, EditFail>
    requires usable { IsUsable layout.now }
    requires plain { IsPlain given.now }
    requires values { IsTrue (all_valid (kinds_in layout.now.fields) old.now.values) }
    ensures changes { DraftTells K.state draft.old draft.new
        → (q : OrgPlan) (a : Asked) → StandsIn layout.now.org q (tables_of K.state draft.old) (Some a.tenant)
        → R.whose rights.now a.tenant a.user → record_of_object a.tenant layout.now.object old.now.id ≡ Some old.now → a.now ≡ now
        → ReadsWell a (object_of_layout layout.now) (all_given given.now) → FindsAll a.tenant (object_of_layout layout.now) given.now
        → Changes a (object_of_layout layout.now) (key_of given.now) given.now.body.now old.now result }
    ensures valid { IfOk result (λ r. IsTrue (all_valid (kinds_in layout.now.fields) r.values)) }
    ensures calls { Calls K.state level_shown (ended_edit result) draft.old draft.new }
{
    draft_laws::<K>();
    call_laws::<K>();
    let copy = record_copy(alloc, old)?;
    let new = given_record(alloc, layout, copy, now, given)?;
    match refused_owner(alloc, draft, rights, layout, old, &new)? {
        None => unless_missing(alloc, layout, new),
        Some(refusal) => Err(EditFail::Refused(refusal)),
    }
}

// Refuses other values of a record by what it refers to, by what it keeps, by the object's own rules and by unique values; and
// the rows of the shares that end where none of them does.
fn admit<K: Keeper, R: Rights>(
    alloc: Global,
    draft: &mut Draft<'_, K>,
    rights: &R,
    layout: &Layout,
    old: &Record,
    new: &Record,
) -> Result<Items<ShareRow>, EditFail>
    requires usable { IsUsable layout.now }
    requires converts { IsTrue (converts layout.now) }
    requires values { IsTrue (all_valid (kinds_in layout.now.fields) new.now.values) }
    ensures admits { DraftTells K.state draft.old draft.new
        → (q : OrgPlan) (a : Asked) → StandsIn layout.now.org q (tables_of K.state draft.old) (Some a.tenant)
        → IsLayout q a.tenant layout.now → R.whose rights.now a.tenant a.user → AdmitsAltered a layout.now old.now new.now result }
    ensures few { IfOk result (λ rows. length rows ≤ 100) }
    ensures calls { Calls K.state 164 (ended_edit result) draft.old draft.new }
{
    call_laws::<K>();
    let refused = refused_altered(alloc, draft, rights, layout, old, new)?;
    match refused {
        None => Ok(ended_shares(alloc, draft, layout.org, old, new)?),
        Some(refusal) => Err(EditFail::Refused(refusal)),
    }
}

// The record with other values, if no rule refuses it.
fn accept_update<K: Keeper, R: Rights>(
    alloc: Global,
    draft: &mut Draft<'_, K>,
    rights: &R,
    layout: &Layout,
    kept: &KeptRecord,
    now: i64,
    given: &AllGiven<'_>,
) -> Result<Altered, EditFail>
    requires ready { IsReady layout.now.org layout.now }
    requires kept { FitsKept layout.now kept.now }
    requires plain { IsPlain given.now }
    ensures accepts { DraftTells K.state draft.old draft.new
        → (q : OrgPlan) (a : Asked) (o : Numbered) (id : List ℕ)
        → StandsIn layout.now.org q (tables_of K.state draft.old) (Some a.tenant) → IsObject layout.now.org q a.tenant o layout.now
        → IsKept q a.tenant layout.now id kept.now → R.whose rights.now a.tenant a.user → a.now ≡ now
        → ReadsWell a o.object (all_given given.now) → FindsAll a.tenant o.object given.now
        → Updates layout.now.org a o (key_of given.now) given.now.body.now kept.now.item result }
    ensures form { IfOk result (FitsAltered layout.now) }
    ensures calls { Calls K.state 168 (ended_edit result) draft.old draft.new }
{
    draft_laws::<K>();
    call_laws::<K>();
    let new = changed_record(alloc, draft, rights, layout, &kept.item, now, given)?;
    let shares = admit(alloc, draft, rights, layout, &kept.item, &new)?;
    Ok(Altered { new, shares })
}

// The edit, decided: it removes the rows of the shares that end, and turns those of the record.
fn decided_update(
    alloc: Global,
    layout: &Layout,
    kept: &KeptRecord,
    altered: Altered,
) -> Result<Decided<()>, EditFail>
    requires ready { IsReady layout.now.org layout.now }
    requires kept { FitsKept layout.now kept.now }
    requires fits { FitsAltered layout.now altered }
    ensures made { IfOk result (λ x. AreSpelled (altered_changes layout.now kept.now altered) x.changes.items) }
    ensures keys { OnOk result (HaveKeys (altered_changes layout.now kept.now altered)) }
    ensures cause { IfErr result (λ e. e ≡ of_store Memory) }
{
    let new = altered.new;
    let mut changes = Vec::new(alloc);
    remove_shares(
        alloc,
        layout.org,
        &new.id,
        altered.shares.as_slice(),
        &mut changes,
    )?;
    changed_record_changes(alloc, layout, &kept.row, &kept.item, &new, &mut changes)?;
    Ok(Decided {
        answer: (),
        changes,
    })
}

/// Judges other values for a record of an object, given at this moment by who may edit it and whose rights these are: the changes
/// that make them.
///
/// # Errors
///
/// `Refused` as the verdict of an update says, or of an upsert with a key that the record has. `Store` with `Keeper` if the keeper
/// failed, `Memory` if out of memory, `Damaged` never if the organisation's rows stand for a tenant whose layout and record these are
/// and of whose user the rights are.
pub fn decide_update<K: Keeper, R: Rights>(
    alloc: Global,
    draft: &mut Draft<'_, K>,
    rights: &R,
    layout: &Layout,
    kept: KeptRecord,
    now: i64,
    given: &AllGiven<'_>,
) -> Result<Decided<()>, EditFail>
    requires ready { IsReady layout.now.org layout.now }
    requires kept { FitsKept layout.now kept }
    requires plain { IsPlain given.now }
    ensures what { DraftTells K.state draft.old draft.new
        → DecidesChanged layout.now (R.whose rights.now) now given.now kept (tables_of K.state draft.old) result }
    ensures few { IfOk result (λ x. AreFew 389 0 x.changes.items) }
    ensures calls { Calls K.state 168 (ended_edit result) draft.old draft.new }
{
    call_laws::<K>();
    value_laws();
    pivot_laws();
    update_laws();
    let altered = accept_update(alloc, draft, rights, layout, &kept, now, given)?;
    decided_update(alloc, layout, &kept, altered)
}

impl<R: Rights> Edit for Update<'_, R> {
    type Answer = ();

    ghost verdict = { λ e a. update a e.object.now e.key.now e.given.now };

    ghost answered = { λ _. done };

    ghost planned = { λ e q t next. PlansSame q t next };

    ghost fits = { λ e a. IsGiving (R.whose e.rights.now) e.user e.now (λ b o. ReadsWell b o e.given.now) a };

    ghost most = { 389 };

    ghost gone = { 0 };

    ghost shown = { 173 };

    fn judge<K: Keeper>(
        &self,
        alloc: Global,
        draft: &mut Draft<'_, K>,
        org: u32,
    ) -> Result<Decided<()>, EditFail> {
        draft_laws::<K>();
        call_laws::<K>();
        object_laws();
        given_laws();
        records_sound();
        let named = find_permitted(
            alloc,
            draft,
            self.rights,
            org,
            self.object,
            self.key,
            Level::Edit,
        )?;
        let layout = named.layout;
        let given = AllGiven {
            body: self.given,
            key: None,
            found: &[],
        };
        decide_update(
            alloc,
            draft,
            self.rights,
            &layout,
            named.kept,
            self.now,
            &given,
        )
    }
}

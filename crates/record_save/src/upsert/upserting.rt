//! Upserts, judged and made.

ghost use Rattle.std.specs.Prelude.{◌≡◌, ◌<◌, IfOk, IfSome, length};
ghost use Rattle.store_edit.specs.Rows.{AreFew};
ghost use Rattle.record_input.specs.Given.{IsPlain};
ghost use Rattle.store_kv.specs.Draft.{DraftTells, tables_of};
ghost use Rattle.model.specs.Upserts.{upsert};
ghost use Rattle.model.specs.Verdict.{upserted};
ghost use Rattle.record_target.specs.Kept.{FitsKept};
ghost use Rattle.record_target.specs.Usable.{IsReady};
ghost use Rattle.record_constraints.specs.Uniques.{HasUnique};
ghost use Rattle.record_save.specs.Creating.{IsGiving};
ghost use Rattle.store_abstraction.specs.Calls.{Calls, ended_edit};
ghost use Rattle.record_save.specs.upsert.Upserting.{PlansEither, ReadsFoundByKey};
ghost use Rattle.record_save.specs.upsert.inner.Deciding.{Allows, DecidesByKey, DecidesEdited, DecidesGiven, changed, made, may_edit};

use crate::creating::decide_create;
use crate::updating::decide_update;
use crate::upsert::finding::{FoundKey, found_key, found_record};
use crate::upsert::upsert::{Upsert, Upserted};
use access_traits::{Rights, below};
use base_value::{Id, Level};
use model::{Assignment, object_laws};
use model_invariant::records_sound;
use record_input::{AllGiven, Found, UpsertKey, given_laws};
use record_target::{KeptRecord, ready_layout};
use std::alloc::Global;
use store_abstraction::{EditFail, Layout, call_laws};
use store_edit::{Decided, Edit};
use store_kv::{Draft, Keeper, draft_laws};
use store_rows::StoreFail;

// What an upsert comes to that makes a record.
fn made(decided: Result<Decided<Id>, EditFail>) -> Result<Decided<Upserted>, EditFail>
    ensures { result ≡ made decided }
{
    let Decided {
        answer: id,
        changes,
    } = decided?;
    let created = true;
    Ok(Decided {
        answer: Upserted { id, created },
        changes,
    })
}

// What an upsert comes to that changes the record with this id.
fn changed(id: Id, decided: Result<Decided<()>, EditFail>) -> Result<Decided<Upserted>, EditFail>
    ensures { result ≡ changed id decided }
{
    let changes = decided?.changes;
    let created = false;
    Ok(Decided {
        answer: Upserted { id, created },
        changes,
    })
}

fn id_of(kept: &KeptRecord) -> Id
    ensures { result ≡ kept.now.item.id }
{
    kept.item.id
}

// Nothing, if the level is enough to edit a record.
fn may_edit(level: Result<Level, StoreFail>) -> Result<(), EditFail>
    ensures { result ≡ may_edit level }
{
    match level {
        Ok(level) => match below(Level::Edit, level) {
            None => Ok(()),
            Some(refusal) => Err(EditFail::Refused(refusal)),
        },
        Err(fail) => Err(EditFail::Store(fail)),
    }
}

// Nothing, if the user may edit this record.
fn allowed<K: Keeper, R: Rights>(
    alloc: Global,
    draft: &mut Draft<'_, K>,
    rights: &R,
    layout: &Layout,
    kept: &KeptRecord,
) -> Result<(), EditFail>
    ensures allows { DraftTells K.state draft.old draft.new
        → Allows layout.now (R.whose rights.now) kept.now (tables_of K.state draft.old) result }
    ensures calls { Calls K.state 4 (ended_edit result) draft.old draft.new }
{
    let level = rights.level_at(alloc, draft, layout.org, layout.object, &kept.item.id);
    may_edit(level)
}

// Judges what is given to this record, if the user may edit it.
fn decide_change<K: Keeper, R: Rights>(
    alloc: Global,
    draft: &mut Draft<'_, K>,
    rights: &R,
    layout: &Layout,
    kept: KeptRecord,
    now: i64,
    given: &AllGiven<'_>,
) -> Result<Decided<Upserted>, EditFail>
    requires ready { IsReady layout.now.org layout.now }
    requires kept { FitsKept layout.now kept }
    requires plain { IsPlain given.now }
    ensures what { DraftTells K.state draft.old draft.new
        → DecidesEdited layout.now (R.whose rights.now) now given.now kept (tables_of K.state draft.old) result }
    ensures few { IfOk result (λ x. AreFew 389 0 x.changes.items) }
    ensures calls { Calls K.state 172 (ended_edit result) draft.old draft.new }
{
    draft_laws::<K>();
    call_laws::<K>();
    match allowed(alloc, draft, rights, layout, &kept) {
        Ok(()) => {
            let id = id_of(&kept);
            let decided = decide_update(alloc, draft, rights, layout, kept, now, given);
            changed(id, decided)
        }
        Err(fail) => Err(fail),
    }
}

// Judges what is given to the record that has the key's value, if there is one, and else to a new one.
fn decide_given<K: Keeper, R: Rights>(
    alloc: Global,
    draft: &mut Draft<'_, K>,
    rights: &R,
    layout: &Layout,
    kept: Option<KeptRecord>,
    user: Id,
    now: i64,
    given: &AllGiven<'_>,
) -> Result<Decided<Upserted>, EditFail>
    requires ready { IsReady layout.now.org layout.now }
    requires kept { IfSome kept (FitsKept layout.now) }
    requires plain { IsPlain given.now }
    ensures what { DraftTells K.state draft.old draft.new
        → DecidesGiven layout.now (R.whose rights.now) user now given.now kept (tables_of K.state draft.old) result }
    ensures few { IfOk result (λ x. AreFew 389 0 x.changes.items) }
    ensures calls { Calls K.state 172 (ended_edit result) draft.old draft.new }
{
    draft_laws::<K>();
    match kept {
        None => made(decide_create(alloc, draft, rights, layout, user, now, given)),
        Some(kept) => decide_change(alloc, draft, rights, layout, kept, now, given),
    }
}

// Judges an upsert by its object, its unique field and the value.
fn decide_by_key<'x, K: Keeper, R: Rights>(
    alloc: Global,
    draft: &mut Draft<'_, K>,
    rights: &R,
    layout: &'x Layout,
    user: Id,
    now: i64,
    body: &'x [Assignment],
    found: &'x [Found<'x>],
    key: &'x FoundKey,
) -> Result<Decided<Upserted>, EditFail>
    requires ready { IsReady layout.now.org layout.now }
    requires field { key.now.number < length layout.now.fields }
    requires unique { HasUnique layout.now key.now.number key.now.value }
    ensures what { DraftTells K.state draft.old draft.new
        → DecidesByKey layout.now (R.whose rights.now) user now body.now found.now key.now (tables_of K.state draft.old) result }
    ensures few { IfOk result (λ x. AreFew 389 0 x.changes.items) }
    ensures calls { Calls K.state 173 (ended_edit result) draft.old draft.new }
{
    draft_laws::<K>();
    call_laws::<K>();
    let kept = found_record(alloc, draft, layout, key)?;
    let number = key.number;
    let value = &key.value;
    let fields = layout.fields.as_slice();
    let field = &fields[number];
    let key = UpsertKey {
        number,
        field,
        value,
    };
    let given = AllGiven {
        body,
        key: Some(key),
        found,
    };
    decide_given(alloc, draft, rights, layout, kept, user, now, &given)
}

impl<R: Rights> Edit for Upsert<'_, R> {
    type Answer = Upserted;

    ghost verdict = { λ e a. upsert a e.object.now e.key.now e.text e.given.now };

    ghost answered = { λ x. upserted x.id x.created };

    ghost planned = { λ e q t next. PlansEither q t next };

    ghost fits = { λ e a. IsGiving (R.whose e.rights.now) e.user e.now (ReadsFoundByKey e.object.now e.key.now e.text e.found.now e.given.now) a };

    ghost most = { 389 };

    ghost gone = { 0 };

    ghost shown = { 173 };

    fn judge<K: Keeper>(
        &self,
        alloc: Global,
        draft: &mut Draft<'_, K>,
        org: u32,
    ) -> Result<Decided<Upserted>, EditFail> {
        draft_laws::<K>();
        call_laws::<K>();
        object_laws();
        given_laws();
        records_sound();
        let layout = ready_layout(alloc, draft, org, self.object)?;
        let key = found_key(alloc, &layout, self.key, self.text.as_ref())?;
        decide_by_key(
            alloc,
            draft,
            self.rights,
            &layout,
            self.user,
            self.now,
            self.given,
            self.found,
            &key,
        )
    }
}

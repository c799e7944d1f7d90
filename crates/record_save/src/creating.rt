//! New records.

ghost use Rattle.std.specs.Prelude.{◌≡◌, ◌≢◌, ◌^◌, ◌<◌, IfErr, IfOk, IsTrue, OnOk, Some};
ghost use Rattle.record_read.specs.Decoding.{kinds_in};
ghost use Rattle.store_edit.specs.Rows.{AreFew, AreSpelled};
ghost use Rattle.record_input.specs.Given.{FindsAll, IsPlain, all_given, key_of};
ghost use Rattle.store_kv.specs.Draft.{DraftTells, tables_of};
ghost use Rattle.store_rows.specs.declared.fail.StoreFail.TheVariants.{Keeper, Memory};
ghost use Rattle.model.specs.Creates.{create, empty_record};
ghost use Rattle.model.specs.Objects.{Numbered, record_prefix};
ghost use Rattle.model.specs.Paths.{Asked};
ghost use Rattle.model.specs.SoundRecords.{all_valid};
ghost use Rattle.model.specs.Verdict.{made_new};
ghost use Rattle.record_target.specs.Usable.{IsReady, IsUsable};
ghost use Rattle.record_save.specs.Creating.{DecidesNew, IsAsker, IsGiving, IsObject, PlansNew, ReadsFound};
ghost use Rattle.record_save.specs.inner.Giving.{Alters};
ghost use Rattle.record_save.specs.inner.Judged.{Accepts, Admits, FitsRows, HaveKeys, changes_of, limit_rule};
ghost use Rattle.record_save.specs.inner.Object.{HasForms, HasRoom, counted};
ghost use Rattle.schema_rules.specs.Objects.{numbered_in, object_of_layout};
ghost use Rattle.model_invariant.specs.Fit.{ReadsWell};
ghost use Rattle.store_abstraction.specs.Calls.{Calls, ended_edit};
ghost use Rattle.store_abstraction.specs.Fails.{of_store};
ghost use Rattle.store_abstraction.specs.Layouts.{IsLayout};
ghost use Rattle.store_abstraction.specs.Local.{StandsIn};
ghost use Rattle.store_abstraction.specs.Plan.{OrgPlan};
ghost use Rattle.base_value.specs.Id.{made};

use crate::create::Create;
use crate::giving::altered_record;
use crate::laws::create_laws;
use crate::object::{Counts, read_counts};
use crate::others::refused_by_others;
use access_traits::Rights;
use base_value::{Id, id_laws, value_laws};
use model::{Limit, Record, Refusal, object_laws};
use model_invariant::{number_laws, records_sound};
use record_index::{new_record_changes, pivot_laws};
use record_input::{AllGiven, empty_record, numbered_id};
use record_target::ready_layout;
use std::alloc::Global;
use store_abstraction::{EditFail, Layout, call_laws};
use store_edit::{Decided, Edit, over_limit, put_row};
use store_kv::{Draft, Keeper, draft_laws};
use store_rows::StoreFail;

// A new record, and the rows that count it.
#[derive(Drop)]
pub(crate) struct Accepted {
    pub counts: Counts,
    pub new: Record,
}

// The record with this id, unless what is given is refused.
fn made_record(
    alloc: Global,
    layout: &Layout,
    id: Id,
    user: Id,
    now: i64,
    given: &AllGiven<'_>,
) -> Result<Record, EditFail>
    requires usable { IsUsable layout.now }
    requires plain { IsPlain given.now }
    ensures proposes { (a : Asked) → a.user.id ≡ user → a.now ≡ now → id ≡ made (record_prefix layout.now.object) a.tenant.counter
        → ReadsWell a (object_of_layout layout.now) (all_given given.now) → FindsAll a.tenant (object_of_layout layout.now) given.now
        → Alters a (object_of_layout layout.now) (key_of given.now) given.now.body.now
        (empty_record a (numbered_in layout.now)) result }
    ensures valid { IfOk result (λ r. IsTrue (all_valid (kinds_in layout.now.fields) r.values)) }
    ensures cause { IfErr result (λ e. e ≢ of_store Keeper) }
{
    let empty = empty_record(alloc, layout, id, user, now)?;
    altered_record(alloc, layout, empty, now, given)
}

// The record of the object with this number, unless what is given is refused.
fn proposed(
    alloc: Global,
    layout: &Layout,
    number: u64,
    user: Id,
    now: i64,
    given: &AllGiven<'_>,
) -> Result<Record, EditFail>
    requires usable { IsUsable layout.now }
    requires plain { IsPlain given.now }
    ensures proposes { (a : Asked) → a.user.id ≡ user → a.now ≡ now → number ≡ a.tenant.counter → a.tenant.counter < 10 ^ 15
        → ReadsWell a (object_of_layout layout.now) (all_given given.now) → FindsAll a.tenant (object_of_layout layout.now) given.now
        → Alters a (object_of_layout layout.now) (key_of given.now) given.now.body.now
        (empty_record a (numbered_in layout.now)) result }
    ensures made { IfOk result (λ r. (number < 10 ^ 15) × IsTrue (all_valid (kinds_in layout.now.fields) r.values)) }
    ensures cause { IfErr result (λ e. e ≢ of_store Keeper) }
{
    match numbered_id(layout.object, number) {
        Some(id) => made_record(alloc, layout, id, user, now, given),
        None => Err(EditFail::Store(StoreFail::Damaged)),
    }
}

// That there may be no record more, or that no number is left for it.
fn over_limits(counts: &Counts) -> Option<Refusal>
    requires { counts.now.row.counter < 10 ^ 15 }
    ensures { result ≡ limit_rule counts.now.row counts.now.object }
{
    over_limit(
        Limit::RecordsPerObject,
        u64::from(counts.object.records) + 1,
    )
    .or(over_limit(Limit::Records, u64::from(counts.row.records) + 1))
    .or(over_limit(Limit::Ids, counts.row.counter + 1))
}

// Refuses a new record by what it refers to, by its master, by the object's own rules, by unique values and by limits.
fn admit<K: Keeper, R: Rights>(
    alloc: Global,
    draft: &mut Draft<'_, K>,
    rights: &R,
    layout: &Layout,
    counts: &Counts,
    new: &Record,
    user: Id,
    now: i64,
) -> Result<(), EditFail>
    requires usable { IsUsable layout.now }
    requires number { counts.now.row.counter < 10 ^ 15 }
    requires values { IsTrue (all_valid (kinds_in layout.now.fields) new.now.values) }
    ensures admits { DraftTells K.state draft.old draft.new
        → (q : OrgPlan) (a : Asked) → StandsIn layout.now.org q (tables_of K.state draft.old) (Some a.tenant)
        → IsLayout q a.tenant layout.now → R.whose rights.now a.tenant a.user → a.user.id ≡ user → a.now ≡ now
        → new.now.id ≡ made (record_prefix layout.now.object) a.tenant.counter → Admits a layout.now counts.now new.now result }
    ensures room { OnOk result (HasRoom counts.now) }
    ensures calls { Calls K.state 168 (ended_edit result) draft.old draft.new }
{
    call_laws::<K>();
    let empty = empty_record(alloc, layout, new.id, user, now)?;
    let others = refused_by_others(alloc, draft, rights, layout, &empty, new)?;
    match others.or(over_limits(counts)) {
        None => Ok(()),
        Some(refusal) => Err(EditFail::Refused(refusal)),
    }
}

// The record that is to be, if no rule refuses it.
fn accept<K: Keeper, R: Rights>(
    alloc: Global,
    draft: &mut Draft<'_, K>,
    rights: &R,
    layout: &Layout,
    user: Id,
    now: i64,
    given: &AllGiven<'_>,
) -> Result<Accepted, EditFail>
    requires ready { IsReady layout.now.org layout.now }
    requires plain { IsPlain given.now }
    ensures accepts { DraftTells K.state draft.old draft.new
        → (q : OrgPlan) (a : Asked) (o : Numbered) → StandsIn layout.now.org q (tables_of K.state draft.old) (Some a.tenant)
        → IsObject layout.now.org q a.tenant o layout.now → IsAsker (R.whose rights.now) user now a
        → ReadsWell a o.object (all_given given.now) → FindsAll a.tenant o.object given.now
        → Accepts layout.now.org a o (key_of given.now) given.now.body.now result }
    ensures form { IfOk result (FitsRows layout.now) }
    ensures calls { Calls K.state 168 (ended_edit result) draft.old draft.new }
{
    draft_laws::<K>();
    call_laws::<K>();
    let counts = read_counts(alloc, draft, layout)?;
    let new = proposed(alloc, layout, counts.row.counter, user, now, given)?;
    admit(alloc, draft, rights, layout, &counts, &new, user, now)?;
    Ok(Accepted { counts, new })
}

// The rows that count one record more.
fn counted(counts: Counts) -> Counts
    requires forms { HasForms counts }
    requires room { HasRoom counts }
    ensures same { result ≡ counted counts }
    ensures forms { HasForms result }
{
    let mut counts = counts;
    counts.row.counter += 1;
    counts.row.records += 1;
    counts.object.records += 1;
    counts
}

// The edit, decided: it puts the rows of a new record.
fn decided(alloc: Global, layout: &Layout, accepted: Accepted) -> Result<Decided<Id>, EditFail>
    requires usable { IsUsable layout.now }
    requires fits { FitsRows layout.now accepted }
    ensures answers { IfOk result (λ x. x.answer ≡ accepted.new.id) }
    ensures made { IfOk result (λ x. AreSpelled (changes_of layout.now accepted) x.changes.items) }
    ensures keys { OnOk result (HaveKeys (changes_of layout.now accepted)) }
    ensures cause { IfErr result (λ e. e ≡ of_store Memory) }
{
    let counts = counted(accepted.counts);
    let new = accepted.new;
    let mut changes = Vec::new(alloc);
    put_row(alloc, &mut changes, &counts.row)?;
    put_row(alloc, &mut changes, &counts.object)?;
    new_record_changes(alloc, layout, &new, &mut changes)?;
    Ok(Decided {
        answer: new.id,
        changes,
    })
}

/// Judges a new record of an object, made by this user, whose rights these are, at this moment: its id and the changes that make it.
///
/// # Errors
///
/// `Refused` as the verdict of a create says, or of an upsert with a key that no record has. `Store` with `Keeper` if the keeper
/// failed, `Memory` if out of memory, `Damaged` never if the organisation's rows stand for a tenant whose layout it is and of whose
/// user the rights are.
pub fn decide_create<K: Keeper, R: Rights>(
    alloc: Global,
    draft: &mut Draft<'_, K>,
    rights: &R,
    layout: &Layout,
    user: Id,
    now: i64,
    given: &AllGiven<'_>,
) -> Result<Decided<Id>, EditFail>
    requires ready { IsReady layout.now.org layout.now }
    requires plain { IsPlain given.now }
    ensures what { DraftTells K.state draft.old draft.new
        → DecidesNew layout.now (R.whose rights.now) user now given.now (tables_of K.state draft.old) result }
    ensures few { IfOk result (λ x. AreFew 147 0 x.changes.items) }
    ensures calls { Calls K.state 168 (ended_edit result) draft.old draft.new }
{
    call_laws::<K>();
    number_laws();
    id_laws();
    value_laws();
    pivot_laws();
    create_laws();
    let accepted = accept(alloc, draft, rights, layout, user, now, given)?;
    decided(alloc, layout, accepted)
}

impl<R: Rights> Edit for Create<'_, R> {
    type Answer = Id;

    ghost verdict = { λ e a. create a e.object.now e.given.now };

    ghost answered = { λ id. made_new id };

    ghost planned = { λ e q t next. PlansNew q t next };

    ghost fits = { λ e a. IsGiving (R.whose e.rights.now) e.user e.now (ReadsFound e.object.now e.found.now e.given.now) a };

    ghost most = { 147 };

    ghost gone = { 0 };

    ghost shown = { 168 };

    fn judge<K: Keeper>(
        &self,
        alloc: Global,
        draft: &mut Draft<'_, K>,
        org: u32,
    ) -> Result<Decided<Id>, EditFail> {
        draft_laws::<K>();
        call_laws::<K>();
        object_laws();
        records_sound();
        let layout = ready_layout(alloc, draft, org, self.object)?;
        let given = AllGiven {
            body: self.given,
            key: None,
            found: self.found,
        };
        decide_create(
            alloc,
            draft,
            self.rights,
            &layout,
            self.user,
            self.now,
            &given,
        )
    }
}

//! One request: who calls, what is answered, and the keeper after it.

ghost use Rattle.std.specs.Prelude.{◌≡◌, ◌⊎◌, IsTrue, false, pos, true};
ghost use Rattle.store_kv.specs.Draft.{DraftTells, count_of, removals_of, tables_of};
ghost use Rattle.store_kv.specs.State.{KeeperCause, Quiet, Shows, Steps, Tells, TrustedAfter, data_table};
ghost use Rattle.store_kv.specs.Tables.{Tables};
ghost use Rattle.model.specs.Step.{key_in, org_named};
ghost use Rattle.model.specs.World.{World};
ghost use Rattle.people_edit.specs.People.{FindsCaller};
ghost use Rattle.store_abstraction.specs.Calls.{Calls, ended};
ghost use Rattle.store_abstraction.specs.Operations.{Drafts};
ghost use Rattle.store_abstraction.specs.Stands.{Stands};
ghost use Rattle.model.specs.Bounds.{request_changes, request_gone};
ghost use Rattle.model_requests.specs.Step.{step};
ghost use Rattle.base_value.specs.Dates.{is_moment};
ghost use Rattle.server.specs.Leads.{LeadsFrom};
ghost use Rattle.server.specs.Own.{Asks, AsksFirst, DoesMessage, IsMoving, IsStepped, JudgesCaller, JudgesMessage, JudgesReply, JudgesUnnamed, Replies, after_step, asked_shown, message_changes, message_shown_beside};
ghost use Rattle.server.specs.Requests.{message_in};
ghost use Rattle.server.specs.Senses.{Sense, StandsAs, is_apart};
ghost use Rattle.server.specs.inner.Steps.{IsInForm, JudgesRequest};

use crate::replies::{damaged_bytes, judged_bytes, refusal_bytes_to};
use api::{Routes, respond};
use base_value::Bytes;
use model::{Caller, Refusal, tenant_laws};
use model_requests::step_laws;
use people_edit::caller;
use server_http::HttpMessage;
use std::alloc::Global;
use store_abstraction::{Judged, call_laws, ended_laws, finish, local_laws};
use store_kv::{Draft, Keeper, draft_laws, key_laws};
use store_rows::StoreFail;

/// The reply to a request.
#[derive(Drop)]
pub enum Answer {
    /// Made for this request, by the definition of a step.
    Made(Bytes),
    /// The store is damaged: 500.
    Damaged(Bytes),
    /// The store failed: 503.
    Unavailable {
        /// Whether the reply closes the connection.
        close: bool,
    },
    /// Out of memory: 507.
    OutOfMemory {
        /// Whether the reply closes the connection.
        close: bool,
    },
}

ghost use Rattle.server.specs.Answers.{Answers, IsDamaged, IsFixed, IsMade, IsUnavailable, bytes_in, is_made, outcome_of};

impl Answer {
    /// Whether it was made by the definition of a step: then the keeper is trusted still.
    pub fn is_made(&self) -> bool
        ensures { result ≡ is_made self.now }
    {
        matches!(self, Answer::Made(_))
    }
}

// The caller whom a message's key names, if its secret is right.
fn caller_of<K: Keeper>(
    alloc: Global,
    draft: &mut Draft<'_, K>,
    message: &HttpMessage,
) -> Result<Option<Caller>, StoreFail>
    ensures finds { DraftTells K.state draft.old draft.new
        → FindsCaller (key_in (message_in message.now)) (tables_of K.state draft.old) result }
    ensures calls { Calls K.state 0 (ended result) draft.old draft.new }
{
    call_laws::<K>();
    match &message.bearer {
        Some(key) => caller(alloc, draft, key.as_str()),
        None => Ok(None),
    }
}

// Judges what a caller's message asks for, where no step is to be made before, and makes the bytes of its reply.
fn judge_request<K: Keeper>(
    alloc: Global,
    routes: &Routes,
    draft: &mut Draft<'_, K>,
    caller: &Caller,
    message: &HttpMessage,
    now: u64,
) -> Result<Judged<Bytes>, StoreFail>
    requires { IsTrue (is_moment (pos now)) }
    ensures what { DraftTells K.state draft.old draft.new
        → JudgesRequest caller.now (message_in message.now) message.now.close now (tables_of K.state draft.old)
        (tables_of K.state draft.new) result }
    ensures form { IsInForm (message_in message.now) message.now.close result }
    ensures drafts { Drafts K.state request_changes request_gone (asked_shown (message_in message.now) (removals_of K.state data_table draft.old)) result draft.old
        draft.new }
{
    call_laws::<K>();
    match respond(
        alloc,
        routes,
        draft,
        caller,
        now,
        &message.method,
        message.target.as_str(),
        message.body.as_slice(),
    ) {
        Ok(judged) => judged_bytes(alloc, message, &judged),
        Err(fail) => Err(fail),
    }
}

// What a request comes to behind a step: what the step changed is to be made, whatever the request itself changes.
fn after_step(
    made: bool,
    judged: Result<Judged<Bytes>, StoreFail>,
) -> Result<Judged<Bytes>, StoreFail>
    ensures { result ≡ after_step made judged }
{
    if !made {
        return judged;
    }
    match judged {
        Ok(Judged::Same(bytes) | Judged::Changed(bytes)) => Ok(Judged::Changed(bytes)),
        Err(fail) => Err(fail),
    }
}

// Makes the step of a change of a type that is under way in the caller's organisation, and then judges what the caller's message
// asks for, over the same draft: so both are done, or neither.
fn judge_called<K: Keeper>(
    alloc: Global,
    routes: &Routes,
    draft: &mut Draft<'_, K>,
    caller: &Caller,
    message: &HttpMessage,
    now: u64,
) -> Result<Judged<Bytes>, StoreFail>
    requires { IsTrue (is_moment (pos now)) }
    ensures what { DraftTells K.state draft.old draft.new
        → JudgesCaller caller.now (message_in message.now) message.now.close now (tables_of K.state draft.old)
        (tables_of K.state draft.new) result }
    ensures form { JudgesReply (message_in message.now) message.now.close
        (DraftTells K.state draft.old draft.new → IsMoving caller.now.org (tables_of K.state draft.old))
        (count_of draft.old) (count_of draft.new) result }
    ensures drafts { Drafts K.state message_changes request_gone
        (message_shown_beside (message_in message.now) (removals_of K.state data_table draft.old)) result draft.old draft.new }
{
    draft_laws::<K>();
    call_laws::<K>();
    tenant_laws();
    match retype_step::step(alloc, draft, caller.org) {
        Ok(made) => {
            let judged = judge_request(alloc, routes, draft, caller, message, now);
            after_step(made, judged)
        }
        Err(fail) => Err(fail),
    }
}

// Refuses a message of no caller.
fn refuse_uncalled(alloc: Global, message: &HttpMessage) -> Result<Judged<Bytes>, StoreFail>
    ensures what { JudgesUnnamed (message_in message.now) message.now.close result }
    ensures form { IsInForm (message_in message.now) message.now.close result }
{
    match refusal_bytes_to(alloc, message, &Refusal::InvalidSession) {
        Ok(bytes) => Ok(Judged::Same(bytes)),
        Err(_) => Err(StoreFail::Memory),
    }
}

// Judges a message: a caller's by what it asks, and one of no caller is refused.
fn judge<K: Keeper>(
    alloc: Global,
    routes: &Routes,
    draft: &mut Draft<'_, K>,
    message: &HttpMessage,
    now: u64,
) -> Result<Judged<Bytes>, StoreFail>
    requires { IsTrue (is_moment (pos now)) }
    ensures what { DraftTells K.state draft.old draft.new
        → JudgesMessage message.now now (tables_of K.state draft.old) (tables_of K.state draft.new) result }
    ensures form { JudgesReply (message_in message.now) message.now.close
        (DraftTells K.state draft.old draft.new → IsStepped (message_in message.now) (tables_of K.state draft.old))
        (count_of draft.old) (count_of draft.new) result }
    ensures drafts { Drafts K.state message_changes request_gone
        (message_shown_beside (message_in message.now) (removals_of K.state data_table draft.old)) result draft.old draft.new }
{
    draft_laws::<K>();
    call_laws::<K>();
    match caller_of(alloc, draft, message) {
        Ok(Some(caller)) => judge_called(alloc, routes, draft, &caller, message, now),
        Ok(None) => refuse_uncalled(alloc, message),
        Err(fail) => Err(fail),
    }
}

// A request done whole, or not at all, over a keeper that is asked by a draft alone.
fn answer_drafted<K: Keeper>(
    alloc: Global,
    routes: &Routes,
    keeper: &mut K,
    message: &HttpMessage,
    now: u64,
) -> Result<Bytes, StoreFail>
    requires { IsTrue (is_moment (pos now)) }
    ensures does { DoesMessage message.now now (K.state keeper.old) (K.state keeper.new) result }
    ensures form { Replies (message_in message.now) message.now.close (K.state keeper.old) (K.state keeper.new) result }
    ensures asks { TrustedAfter true (K.state keeper.old) → Asks (message_in message.now) (K.state keeper.old) (K.state keeper.new) result }
{
    draft_laws::<K>();
    ended_laws::<Judged<Bytes>, K>();
    let mut draft = Draft::new(alloc, keeper);
    let judged = judge(alloc, routes, &mut draft, message, now);
    finish(alloc, draft, judged)
}

// Asks the keeper itself, for the row of the version: one that isn't trusted any more fails. One that is known to be trusted
// isn't asked.
fn ask_first<K: Keeper>(alloc: Global, keeper: &mut K, is_sure: bool) -> Result<(), StoreFail>
    requires { IsTrue is_sure → TrustedAfter true (K.state keeper.now) }
    ensures { AsksFirst (K.state keeper.old) (K.state keeper.new) result }
{
    if is_sure {
        return Ok(());
    }
    let asked = keeper.get(alloc, 0, &[]);
    match asked {
        Ok(_row) => Ok(()),
        Err(fail) => Err(StoreFail::from(fail)),
    }
}

// A request done whole, or not at all. The draft may need nothing of the keeper, so one that isn't known to be trusted is asked
// first.
fn answer_within<K: Keeper>(
    alloc: Global,
    routes: &Routes,
    keeper: &mut K,
    message: &HttpMessage,
    now: u64,
    is_sure: bool,
) -> Result<Bytes, StoreFail>
    requires sure { IsTrue is_sure → TrustedAfter true (K.state keeper.now) }
    requires moment { IsTrue (is_moment (pos now)) }
    ensures does { DoesMessage message.now now (K.state keeper.old) (K.state keeper.new) result }
    ensures form { Replies (message_in message.now) message.now.close (K.state keeper.old) (K.state keeper.new) result }
    ensures asks { Asks (message_in message.now) (K.state keeper.old) (K.state keeper.new) result }
{
    match ask_first(alloc, keeper, is_sure) {
        Ok(()) => answer_drafted(alloc, routes, keeper, message, now),
        Err(fail) => Err(fail),
    }
}

// The answer to one request, by what it comes to over any tables.
fn answer_own<K: Keeper>(
    alloc: Global,
    routes: &Routes,
    keeper: &mut K,
    message: &HttpMessage,
    now: u64,
    is_sure: bool,
) -> Answer
    requires sure { IsTrue is_sure → TrustedAfter true (K.state keeper.now) }
    requires moment { IsTrue (is_moment (pos now)) }
    ensures does { DoesMessage message.now now (K.state keeper.old) (K.state keeper.new) (outcome_of result) }
    ensures form { IsFixed message.now result
        × Replies (message_in message.now) message.now.close (K.state keeper.old) (K.state keeper.new) (outcome_of result) }
    ensures asks { Asks (message_in message.now) (K.state keeper.old) (K.state keeper.new) (outcome_of result) }
{
    match answer_within(alloc, routes, keeper, message, now, is_sure) {
        Ok(reply) => Answer::Made(reply),
        Err(StoreFail::Keeper) => Answer::Unavailable {
            close: message.close,
        },
        Err(StoreFail::Memory) => Answer::OutOfMemory {
            close: message.close,
        },
        Err(StoreFail::Damaged) => match damaged_bytes(alloc, message) {
            Ok(bytes) => Answer::Damaged(bytes),
            Err(_) => Answer::OutOfMemory {
                close: message.close,
            },
        },
    }
}

/// Answers one request. A failure of the store, damaged tables and being out of memory are answered too: nothing is
/// changed then, though after a failure of the store a crash may still leave the request done whole.
///
/// A keeper that isn't known to be trusted is asked for a row first. `is_sure` says that it is known.
pub fn answer_message<K: Keeper>(
    alloc: Global,
    routes: &Routes,
    keeper: &mut K,
    message: &HttpMessage,
    now: u64,
    is_sure: bool,
) -> Answer
    requires sure { IsTrue is_sure → TrustedAfter true (K.state keeper.now) }
    requires moment { IsTrue (is_moment (pos now)) }
    // Whatever the rows of other organisations are: what the message comes to in the organisation that its key names. Of others no
    // row changes.
    ensures does { DoesMessage message.now now (K.state keeper.old) (K.state keeper.new) (outcome_of result) }

    // Over any tables: the reply is of the form of its route. A refusal and a read write at most the rows of a step before them,
    // and none if there is no caller. Few rows are written, and few are shown.
    ensures form { IsFixed message.now result
        × Replies (message_in message.now) message.now.close (K.state keeper.old) (K.state keeper.new) (outcome_of result) }
    ensures asks { Asks (message_in message.now) (K.state keeper.old) (K.state keeper.new) (outcome_of result) }
    ensures kept { Tells (K.state keeper.old) (K.state keeper.new) → (IsMade result → ⊥)
        → Shows (K.state keeper.new) (K.state keeper.old).tables }

    // Over tables that stand for a world, or for all of it but the organisations that are apart: the reply of the step of the
    // world, or 503 or 507; or any, to a message of an organisation apart.
    ensures answers { Tells (K.state keeper.old) (K.state keeper.new)
        → (sense : Sense) (w : World) → StandsAs sense (K.state keeper.old).tables w
        → Answers sense w message.now now (K.state keeper.old) (K.state keeper.new) (bytes_in message.now.method result) }
    ensures undamaged { Tells (K.state keeper.old) (K.state keeper.new)
        → (sense : Sense) (w : World) → StandsAs sense (K.state keeper.old).tables w
        → is_apart sense (org_named (message_in message.now)) ≡ false
        → IsDamaged result → ⊥ }
    ensures leads { LeadsFrom (K.state keeper.old) (K.state keeper.new) }

    // Also if the keeper is trusted no more: a crash leaves what it might have left before, or this request done whole.
    ensures crash { (K.state keeper.old).tells → IsTrue (K.state keeper.old).trusted → IsTrue (K.state keeper.new).is_clean
        → (w : World) → Stands (K.state keeper.old).tables w → (m : Tables) → (K.state keeper.new).may_leave m
        → (K.state keeper.old).may_leave m ⊎ Stands m (step w (message_in message.now) now).1 }

    // A reply that the definition of a step makes is given by a keeper that is still trusted, and by none that fell before.
    ensures acknowledged { IsMade result → TrustedAfter true (K.state keeper.new) }
    ensures steps { Steps (K.state keeper.old) (K.state keeper.new) }

    // 503 is answered exactly if the keeper counted a fault, unless its count is at its last value.
    ensures cause { KeeperCause (K.state keeper.old) (K.state keeper.new) (IsUnavailable result) }
    ensures quiet { Quiet (K.state keeper.old) (K.state keeper.new) (IsUnavailable result) }
{
    local_laws();
    step_laws();
    key_laws();
    tenant_laws();
    answer_own(alloc, routes, keeper, message, now, is_sure)
}

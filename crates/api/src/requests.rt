//! What a caller's request is answered.

ghost use Rattle.std.specs.Prelude.{◌≡◌, ◌&&◌, ◌+◌, IfOk, IsTrue, not, pos, true};
ghost use Rattle.std.specs.Str.{chars};
ghost use Rattle.api_edit.specs.Administration.{IsEditReply, is_edit};
ghost use Rattle.store_kv.specs.Draft.{DraftTells, removals_of, tables_of};
ghost use Rattle.store_kv.specs.State.{data_table};
ghost use Rattle.model_requests.specs.declared.routed.Routed.TheVariants.{Reads, To};
ghost use Rattle.model_requests.specs.RequestOf.{request_of, verdict_at, verdict_or};
ghost use Rattle.model_requests.specs.Routing.{is_administration, routed};
ghost use Rattle.api.specs.Forms.{IsRequestReply};
ghost use Rattle.store_abstraction.specs.Operations.{Drafts, Responds};
ghost use Rattle.model.specs.Asker.{IsAsking};
ghost use Rattle.model.specs.Bounds.{edit_shown, request_changes, request_gone};
ghost use Rattle.model_reads.specs.Reads.{read_shown};
ghost use Rattle.model_requests.specs.FurtherShown.{further_shown, routed_shown};
ghost use Rattle.model.specs.Shown.{shown_beside};
ghost use Rattle.base_value.specs.Dates.{is_moment};

use crate::asking::answer_query;
use crate::replies::unchanged;
use crate::retyping::answer_state;
use crate::routes::Routes;
use access_traits::Administrator;
use access_user::user_rights;
use api_edit::administer;
use api_read::answer_read;
use http::Method;
use model::{Caller, Refusal, Reply};
use model_reads::Read;
use model_requests::{Route, Routed};
use query_json::refuse;
use std::alloc::Global;
use store_abstraction::{Judged, call_laws};
use store_kv::{Draft, Keeper, draft_laws};
use store_rows::StoreFail;

// Whether a request that is for administrators or isn't may not be made, since its caller is none.
fn is_barred(caller: &Caller, for_administrators: bool) -> bool
    ensures { result ≡ (for_administrators && not caller.now.admin) }
{
    for_administrators && !caller.admin
}

// Answers a request for an edit, by the rights of who asks.
fn answer_edit<K: Keeper>(
    alloc: Global,
    draft: &mut Draft<'_, K>,
    caller: &Caller,
    now: u64,
    route: &Route,
    body: &[u8],
) -> Result<Judged<Reply>, StoreFail>
    requires moment { IsTrue (is_moment (pos now)) }
    requires asks { is_edit route.now ≡ true }
    ensures what { DraftTells K.state draft.old draft.new
        → Responds caller.now.org (IsAsking caller.now now) (λ a. verdict_or a (request_of route.now body.now))
        (tables_of K.state draft.old) (tables_of K.state draft.new) result }
    ensures form { IfOk result (IsEditReply route.now) }
    ensures drafts { Drafts K.state request_changes request_gone edit_shown result draft.old draft.new }
{
    draft_laws::<K>();
    call_laws::<K>();
    if caller.admin {
        return administer(alloc, draft, &Administrator, caller, now, route, body);
    }
    match user_rights(alloc, draft, caller.org, &caller.user) {
        Ok(rights) => administer(alloc, draft, &rights, caller, now, route, body),
        Err(fail) => Err(fail),
    }
}

// Answers a request.
fn answer<K: Keeper>(
    alloc: Global,
    draft: &mut Draft<'_, K>,
    caller: &Caller,
    now: u64,
    route: &Route,
    body: &[u8],
) -> Result<Judged<Reply>, StoreFail>
    requires { IsTrue (is_moment (pos now)) }
    ensures what { DraftTells K.state draft.old draft.new
        → Responds caller.now.org (IsAsking caller.now now) (λ a. verdict_at caller.now.org a body.now (To route.now)) (tables_of K.state draft.old)
        (tables_of K.state draft.new) result }
    ensures form { IfOk result (IsRequestReply (To route.now)) }
    ensures drafts { Drafts K.state request_changes request_gone (shown_beside (further_shown (To route.now)) (removals_of K.state data_table draft.old))
        result draft.old draft.new }
{
    call_laws::<K>();
    if is_barred(caller, route.is_administration()) {
        return unchanged(refuse(alloc, Refusal::AdminRequired));
    }
    match route {
        Route::Query { pairs } => unchanged(answer_query(alloc, draft, caller, now, pairs)),
        Route::GetRetype => unchanged(answer_state(alloc, draft, caller.org)),
        _ => answer_edit(alloc, draft, caller, now, route, body),
    }
}

// Answers a read, which its body doesn't matter to.
fn answer_reading<K: Keeper>(
    alloc: Global,
    draft: &mut Draft<'_, K>,
    caller: &Caller,
    now: u64,
    read: &Read,
    body: &[u8],
) -> Result<Judged<Reply>, StoreFail>
    ensures what { DraftTells K.state draft.old draft.new
        → Responds caller.now.org (IsAsking caller.now now) (λ a. verdict_at caller.now.org a body.now (Reads read.now))
        (tables_of K.state draft.old) (tables_of K.state draft.new) result }
    ensures form { IfOk result (IsRequestReply (Reads read.now)) }
    ensures drafts { Drafts K.state request_changes request_gone (read_shown read.now) result draft.old draft.new }
{
    call_laws::<K>();
    if is_barred(caller, read.for_administrators()) {
        return unchanged(refuse(alloc, Refusal::AdminRequired));
    }
    unchanged(answer_read(alloc, draft, caller, read))
}

/// Judges a caller's request at this moment over the draft, and makes its reply: if the draft holds the change that it asks for, 204
/// without a body, or 200 or 201 with one; rows, what is read, how far the change of a field's type is, or a refusal if it changes
/// nothing.
///
/// # Errors
///
/// `Keeper` if the keeper failed, `Memory` if out of memory, `Damaged` never if the rows of the caller's organisation stand for a
/// tenant of which the caller is a user.
pub fn respond<K: Keeper>(
    alloc: Global,
    routes: &Routes,
    draft: &mut Draft<'_, K>,
    caller: &Caller,
    now: u64,
    method: &Method,
    target: &str,
    body: &[u8],
) -> Result<Judged<Reply>, StoreFail>
    requires { IsTrue (is_moment (pos now)) }
    ensures what { DraftTells K.state draft.old draft.new
        → Responds caller.now.org (IsAsking caller.now now) (λ a. verdict_at caller.now.org a body.now (routed method.now (chars target.now)))
        (tables_of K.state draft.old) (tables_of K.state draft.new) result }
    ensures form { IfOk result (IsRequestReply (routed method.now (chars target.now))) }
    ensures drafts { Drafts K.state request_changes request_gone
        (routed_shown (routed method.now (chars target.now)) (removals_of K.state data_table draft.old)) result
        draft.old draft.new }
{
    call_laws::<K>();
    match routes.route(alloc, method, target) {
        Ok(Routed::To(route)) => answer(alloc, draft, caller, now, &route, body),
        Ok(Routed::Reads(read)) => answer_reading(alloc, draft, caller, now, &read, body),
        Ok(Routed::NotFound) => unchanged(refuse(alloc, Refusal::NotFound)),
        Ok(Routed::NotAllowed) => unchanged(refuse(alloc, Refusal::MethodNotAllowed)),
        Err(_) => Err(StoreFail::Memory),
    }
}

//! A request for an edit over a draft.

ghost use Rattle.std.specs.Prelude.{◌≡◌, IfOk, IsTrue, pos, true};
ghost use Rattle.api_edit.specs.Administration.{AsksWith, IsEditReply, is_edit};
ghost use Rattle.store_kv.specs.Draft.{DraftTells, tables_of};
ghost use Rattle.model_requests.specs.RequestOf.{request_of, verdict_or};
ghost use Rattle.store_abstraction.specs.Operations.{Drafts, Responds};
ghost use Rattle.model.specs.Bounds.{edit_shown, request_changes, request_gone};
ghost use Rattle.base_value.specs.Dates.{is_moment};

use crate::edits::edit;
use crate::replies::reply_to;
use access_traits::Rights;
use model::{Caller, Reply};
use model_requests::Route;
use std::alloc::Global;
use store_abstraction::Judged;
use store_kv::{Draft, Keeper};
use store_rows::StoreFail;

/// Judges a request at this moment by the rights of who asks, and makes its reply: if the draft holds the change that it asks for, 201 with
/// the id of a new record, of an upsert 201 or 200 with the record's id, or else 204; and a refusal if it changes nothing.
///
/// # Errors
///
/// `Keeper` if the keeper failed, `Memory` if out of memory, `Damaged` never if the rows of the caller's organisation stand for a
/// tenant of whose user, the caller, these are the rights.
pub fn administer<K: Keeper, R: Rights>(
    alloc: Global,
    draft: &mut Draft<'_, K>,
    rights: &R,
    caller: &Caller,
    now: u64,
    route: &Route,
    body: &[u8],
) -> Result<Judged<Reply>, StoreFail>
    requires moment { IsTrue (is_moment (pos now)) }
    requires asks { is_edit route.now ≡ true }
    ensures what { DraftTells K.state draft.old draft.new
        → Responds caller.now.org (AsksWith (R.whose rights.now) caller.now now) (λ a. verdict_or a (request_of route.now body.now))
        (tables_of K.state draft.old) (tables_of K.state draft.new) result }
    ensures form { IfOk result (IsEditReply route.now) }
    ensures drafts { Drafts K.state request_changes request_gone edit_shown result draft.old draft.new }
{
    let edited = edit(alloc, draft, rights, caller, now, route, body);
    reply_to(alloc, edited)
}

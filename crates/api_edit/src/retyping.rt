//! The edits of the change of a field's type that requests ask for.

ghost use Rattle.std.specs.Prelude.{IfOk, List, ℕ};
ghost use Rattle.api_edit.specs.inner.Edits.{Anyone, EditsFrom, IsAnswerTo};
ghost use Rattle.store_edit.specs.Edits.{DraftsEdit};
ghost use Rattle.store_kv.specs.Draft.{DraftTells, tables_of};
ghost use Rattle.model_requests.specs.RequestOf.{request_of, verdict_or};
ghost use Rattle.model_requests.specs.declared.route.Route.TheVariants as route;
ghost use Rattle.model.specs.Bounds.{edit_shown, request_changes, request_gone};

use crate::answer::{Answer, done};
use crate::bodies::retype_in;
use model_requests::{refusal_laws, requests_fit};
use retype_request::{BeginRetype, CancelRetype};
use std::alloc::Global;
use store_abstraction::{EditFail, call_laws};
use store_edit::make_edit;
use store_kv::{Draft, Keeper};

/// Begins the change of a field's type, by a body.
///
/// # Errors
///
/// `Refused` if the body isn't of its form, or as the edit is; nothing is then changed. `Store` with `Keeper` if the keeper failed,
/// `Memory` if out of memory.
pub(crate) fn begun_retype<K: Keeper>(
    alloc: Global,
    draft: &mut Draft<'_, K>,
    org: u32,
    body: &[u8],
) -> Result<Answer, EditFail>
    ensures what { DraftTells K.state draft.old draft.new
        → EditsFrom org Anyone (λ a. verdict_or a (request_of route.BeginRetype body.now)) (tables_of K.state draft.old)
        (tables_of K.state draft.new) result }
    ensures form { IfOk result (IsAnswerTo route.BeginRetype) }
    ensures makes { DraftsEdit K.state request_changes request_gone edit_shown result draft.old draft.new }
{
    call_laws::<K>();
    requests_fit();
    refusal_laws();
    let new = retype_in(alloc, body)?;
    let edit = BeginRetype {
        object: &new.object,
        field: &new.field,
        kind: &new.kind,
    };
    done(make_edit(alloc, draft, org, &edit))
}

/// Calls off the change of a field's type that is under way. Of the request no body is looked at.
///
/// # Errors
///
/// `Refused` as the edit is; nothing is then changed. `Store` with `Keeper` if the keeper failed, `Memory` if out of memory.
pub(crate) fn cancelled_retype<K: Keeper>(
    alloc: Global,
    draft: &mut Draft<'_, K>,
    org: u32,
) -> Result<Answer, EditFail>
    ensures what { DraftTells K.state draft.old draft.new
        → (body : List ℕ) → EditsFrom org Anyone (λ a. verdict_or a (request_of route.CancelRetype body))
        (tables_of K.state draft.old) (tables_of K.state draft.new) result }
    ensures form { IfOk result (IsAnswerTo route.CancelRetype) }
    ensures makes { DraftsEdit K.state request_changes request_gone edit_shown result draft.old draft.new }
{
    call_laws::<K>();
    refusal_laws();
    done(make_edit(alloc, draft, org, &CancelRetype))
}

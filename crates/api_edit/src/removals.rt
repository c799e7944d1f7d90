//! The ends of roles and groups that requests ask for.

ghost use Rattle.std.specs.Prelude.{IfOk, List, ℕ};
ghost use Rattle.api_edit.specs.inner.Edits.{Anyone, EditsFrom, IsAnswerTo};
ghost use Rattle.store_edit.specs.Edits.{DraftsEdit};
ghost use Rattle.store_kv.specs.Draft.{DraftTells, tables_of};
ghost use Rattle.model_requests.specs.RequestOf.{request_of, verdict_or};
ghost use Rattle.model_requests.specs.declared.route.Route.TheVariants as route;
ghost use Rattle.model.specs.Bounds.{edit_shown, request_changes, request_gone};

use crate::answer::{Answer, done};
use base_value::Text;
use model_requests::refusal_laws;
use people_removal::{RemoveGroup, RemoveRole};
use std::alloc::Global;
use store_abstraction::{EditFail, call_laws};
use store_edit::make_edit;
use store_kv::{Draft, Keeper};

/// Ends the role with this id. Of the request no body is looked at.
///
/// # Errors
///
/// `Refused` as the edit is; nothing is then changed. `Store` with `Keeper` if the keeper failed, `Memory` if out of memory.
pub(crate) fn removed_role<K: Keeper>(
    alloc: Global,
    draft: &mut Draft<'_, K>,
    org: u32,
    role: &Text,
) -> Result<Answer, EditFail>
    ensures what { DraftTells K.state draft.old draft.new
        → (body : List ℕ) → EditsFrom org Anyone (λ a. verdict_or a (request_of (route.RemoveRole role.now) body))
        (tables_of K.state draft.old) (tables_of K.state draft.new) result }
    ensures form { IfOk result (IsAnswerTo (route.RemoveRole role.now)) }
    ensures makes { DraftsEdit K.state request_changes request_gone edit_shown result draft.old draft.new }
{
    call_laws::<K>();
    refusal_laws();
    let edit = RemoveRole { role };
    done(make_edit(alloc, draft, org, &edit))
}

/// Ends the group with this id. Of the request no body is looked at.
///
/// # Errors
///
/// `Refused` as the edit is; nothing is then changed. `Store` with `Keeper` if the keeper failed, `Memory` if out of memory.
pub(crate) fn removed_group<K: Keeper>(
    alloc: Global,
    draft: &mut Draft<'_, K>,
    org: u32,
    group: &Text,
) -> Result<Answer, EditFail>
    ensures what { DraftTells K.state draft.old draft.new
        → (body : List ℕ) → EditsFrom org Anyone (λ a. verdict_or a (request_of (route.RemoveGroup group.now) body))
        (tables_of K.state draft.old) (tables_of K.state draft.new) result }
    ensures form { IfOk result (IsAnswerTo (route.RemoveGroup group.now)) }
    ensures makes { DraftsEdit K.state request_changes request_gone edit_shown result draft.old draft.new }
{
    call_laws::<K>();
    refusal_laws();
    let edit = RemoveGroup { group };
    done(make_edit(alloc, draft, org, &edit))
}

//! The end of a validation rule that a request asks for.

ghost use Rattle.std.specs.Prelude.{IfOk, List, ℕ};
ghost use Rattle.api_edit.specs.inner.Edits.{Anyone, EditsFrom, IsAnswerTo};
ghost use Rattle.store_edit.specs.Edits.{DraftsEdit};
ghost use Rattle.store_kv.specs.Draft.{DraftTells, tables_of};
ghost use Rattle.model_requests.specs.RequestOf.{request_of, verdict_or};
ghost use Rattle.model_requests.specs.declared.route.Route.TheVariants as route;
ghost use Rattle.model.specs.Bounds.{edit_shown, request_changes, request_gone};

use crate::answer::{Answer, done};
use base_value::Text;
use model_requests::refusal_laws;
use schema_edit::RemoveValidationRule;
use std::alloc::Global;
use store_abstraction::{EditFail, call_laws};
use store_edit::make_edit;
use store_kv::{Draft, Keeper};

/// Ends the validation rule of an object with this name. Of the request no body is looked at.
///
/// # Errors
///
/// `Refused` as the edit is; nothing is then changed. `Store` with `Keeper` if the keeper failed, `Memory` if out of memory.
pub(crate) fn removed_validation_rule<K: Keeper>(
    alloc: Global,
    draft: &mut Draft<'_, K>,
    org: u32,
    object: &Text,
    name: &Text,
) -> Result<Answer, EditFail>
    ensures what { DraftTells K.state draft.old draft.new
        → (body : List ℕ) → EditsFrom org Anyone (λ a. verdict_or a (request_of (route.RemoveValidationRule object.now name.now) body))
        (tables_of K.state draft.old) (tables_of K.state draft.new) result }
    ensures form { IfOk result (IsAnswerTo (route.RemoveValidationRule object.now name.now)) }
    ensures makes { DraftsEdit K.state request_changes request_gone edit_shown result draft.old draft.new }
{
    call_laws::<K>();
    refusal_laws();
    let edit = RemoveValidationRule { object, name };
    done(make_edit(alloc, draft, org, &edit))
}

//! The edits that requests ask for.

ghost use Rattle.std.specs.Prelude.{◌≡◌, IfOk, IsTrue, pos, true};
ghost use Rattle.api_edit.specs.Administration.{AsksWith, is_edit};
ghost use Rattle.api_edit.specs.inner.Edits.{EditsFrom, IsAnswerTo};
ghost use Rattle.store_edit.specs.Edits.{DraftsEdit};
ghost use Rattle.store_kv.specs.Draft.{DraftTells, tables_of};
ghost use Rattle.model_requests.specs.RequestOf.{request_of, verdict_or};
ghost use Rattle.model.specs.Bounds.{edit_shown, request_changes, request_gone};
ghost use Rattle.base_value.specs.Dates.{is_moment};

use crate::answer::{Answer, done};
use crate::bodies::{field_in, object_change_in, object_in, rule_in};
use crate::people::{
    changed_group, changed_organisation, changed_role, changed_user, new_group, new_role, new_user,
};
use crate::records::{changed_record, deleted_record, new_record, upserted_record};
use crate::removals::{removed_group, removed_role};
use crate::retyping::{begun_retype, cancelled_retype};
use crate::rules::removed_validation_rule;
use crate::sharing::{new_sharing_rule, removed_sharing_rule, shared_record, unshared_record};
use access_traits::Rights;
use model::Caller;
use model_requests::{Route, refusal_laws, requests_fit};
use schema_edit::{AddField, AddObject, AddValidationRule, SetObject};
use std::alloc::Global;
use store_abstraction::{EditFail, call_laws};
use store_edit::make_edit;
use store_kv::{Draft, Keeper};

/// The edit that a route and a body ask for, judged by the rights of who asks.
///
/// # Errors
///
/// `Refused` if the body isn't of its form, or as the edit is; nothing is then changed. `Store` with
/// `Keeper` if the keeper failed, `Memory` if out of memory.
pub(crate) fn edit<K: Keeper, R: Rights>(
    alloc: Global,
    draft: &mut Draft<'_, K>,
    rights: &R,
    caller: &Caller,
    now: u64,
    route: &Route,
    body: &[u8],
) -> Result<Answer, EditFail>
    requires moment { IsTrue (is_moment (pos now)) }
    requires asks { is_edit route.now ≡ true }
    ensures what { DraftTells K.state draft.old draft.new
        → EditsFrom caller.now.org (AsksWith (R.whose rights.now) caller.now now) (λ a. verdict_or a (request_of route.now body.now))
        (tables_of K.state draft.old) (tables_of K.state draft.new) result }
    ensures form { IfOk result (IsAnswerTo route.now) }
    ensures makes { DraftsEdit K.state request_changes request_gone edit_shown result draft.old draft.new }
{
    call_laws::<K>();
    requests_fit();
    refusal_laws();
    let org = caller.org;
    match route {
        Route::Create { object } => new_record(alloc, draft, rights, caller, now, object, body),
        Route::Update { object, key } => {
            changed_record(alloc, draft, rights, caller, now, object, key, body)
        }
        Route::Upsert { object, key, value } => {
            upserted_record(alloc, draft, rights, caller, now, object, key, value, body)
        }
        Route::Delete { object, key } => deleted_record(
            alloc, draft, rights, caller, now, object, key,
        ),
        Route::AddObject => {
            let new = object_in(alloc, body)?;
            done(make_edit(alloc, draft, org, &AddObject { new: &new }))
        }
        Route::SetObject { object } => {
            let change = object_change_in(alloc, body)?;
            let object = object.as_str();
            done(make_edit(alloc, draft, org, &SetObject { object, change }))
        }
        Route::AddField => {
            let new = field_in(alloc, body)?;
            done(make_edit(alloc, draft, org, &AddField { new: &new }))
        }
        Route::Share => shared_record(alloc, draft, rights, org, body),
        Route::Unshare { item, to } => unshared_record(alloc, draft, rights, org, item, to),
        Route::AddSharingRule => new_sharing_rule(alloc, draft, org, body),
        Route::RemoveSharingRule { name } => removed_sharing_rule(alloc, draft, org, name),
        Route::AddValidationRule => {
            let new = rule_in(alloc, body)?;
            done(make_edit(alloc, draft, org, &AddValidationRule { new: &new }))
        }
        Route::RemoveValidationRule { object, name } => {
            removed_validation_rule(alloc, draft, org, object, name)
        }
        Route::AddUser => new_user(alloc, draft, org, body),
        Route::SetUser { id } => changed_user(alloc, draft, org, id, body),
        Route::AddRole => new_role(alloc, draft, org, body),
        Route::SetRole { id } => changed_role(alloc, draft, org, id, body),
        Route::AddGroup => new_group(alloc, draft, org, body),
        Route::SetGroup { id } => changed_group(alloc, draft, org, id, body),
        Route::RemoveRole { id } => removed_role(alloc, draft, org, id),
        Route::RemoveGroup { id } => removed_group(alloc, draft, org, id),
        Route::SetOrganisation => changed_organisation(alloc, draft, org, body),
        Route::BeginRetype => begun_retype(alloc, draft, org, body),
        Route::CancelRetype => cancelled_retype(alloc, draft, org),
        Route::Query { .. } | Route::GetRetype => unreachable!(),
    }
}

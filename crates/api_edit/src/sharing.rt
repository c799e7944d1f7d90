//! The edits of manual shares and of sharing rules that requests ask for.

ghost use Rattle.std.specs.Prelude.{◌≡◌, IfOk, List, ℕ};
ghost use Rattle.std.specs.Option.{option_copied};
ghost use Rattle.api_edit.specs.inner.Edits.{Anyone, EditsFrom, HasRights, IsAnswerTo};
ghost use Rattle.store_edit.specs.Edits.{DraftsEdit};
ghost use Rattle.store_kv.specs.Draft.{DraftTells, tables_of};
ghost use Rattle.model_requests.specs.RequestOf.{request_of, verdict_or};
ghost use Rattle.model_requests.specs.declared.route.Route.TheVariants as route;
ghost use Rattle.model.specs.Bounds.{edit_shown, request_changes, request_gone};

use crate::answer::{Answer, done};
use crate::bodies::{share_in, sharing_rule_in};
use access_rules::{AddSharingRule, RemoveSharingRule};
use access_shares::{Share, Unshare};
use access_traits::Rights;
use api_input::spelled_principal;
use base_value::Text;
use model::Spelled;
use model_requests::{refusal_laws, requests_fit};
use std::alloc::Global;
use store_abstraction::{EditFail, call_laws};
use store_edit::make_edit;
use store_kv::{Draft, Keeper};

/// Shares a record with a principal, by a body, or gives the share another level.
///
/// # Errors
///
/// `Refused` if the body isn't of its form, or as the edit is; nothing is then changed. `Store` with `Keeper` if the keeper failed,
/// `Memory` if out of memory.
pub(crate) fn shared_record<K: Keeper, R: Rights>(
    alloc: Global,
    draft: &mut Draft<'_, K>,
    rights: &R,
    org: u32,
    body: &[u8],
) -> Result<Answer, EditFail>
    ensures what { DraftTells K.state draft.old draft.new
        → EditsFrom org (HasRights (R.whose rights.now)) (λ a. verdict_or a (request_of route.Share body.now))
        (tables_of K.state draft.old) (tables_of K.state draft.new) result }
    ensures form { IfOk result (IsAnswerTo route.Share) }
    ensures makes { DraftsEdit K.state request_changes request_gone edit_shown result draft.old draft.new }
{
    call_laws::<K>();
    requests_fit();
    refusal_laws();
    let new = share_in(alloc, body)?;
    let edit = Share { rights, new: &new };
    done(make_edit(alloc, draft, org, &edit))
}

// The edit that ends the share of a record with the principal that a part of a path spells.
fn share_end<'a, R: Rights>(
    rights: &'a R,
    item: &'a Text,
    part: &'a Text,
    to: &'a Option<Spelled>,
) -> Unshare<'a, R>
    ensures rights { result.rights.now ≡ rights.now }
    ensures item { result.item.now ≡ item.now }
    ensures part { result.part.now ≡ part.now }
    ensures to { option_copied result.to ≡ to.now }
{
    Unshare {
        rights,
        item,
        part,
        to: to.as_ref(),
    }
}

/// Ends the share of a record with a principal. Of the request no body is looked at.
///
/// # Errors
///
/// `Refused` as the edit is; nothing is then changed. `Store` with `Keeper` if the keeper failed, `Memory` if out of memory.
pub(crate) fn unshared_record<K: Keeper, R: Rights>(
    alloc: Global,
    draft: &mut Draft<'_, K>,
    rights: &R,
    org: u32,
    item: &Text,
    part: &Text,
) -> Result<Answer, EditFail>
    ensures what { DraftTells K.state draft.old draft.new
        → (body : List ℕ) → EditsFrom org (HasRights (R.whose rights.now))
        (λ a. verdict_or a (request_of (route.Unshare item.now part.now) body)) (tables_of K.state draft.old)
        (tables_of K.state draft.new) result }
    ensures form { IfOk result (IsAnswerTo (route.Unshare item.now part.now)) }
    ensures makes { DraftsEdit K.state request_changes request_gone edit_shown result draft.old draft.new }
{
    call_laws::<K>();
    refusal_laws();
    let to = spelled_principal(alloc, part)?;
    let edit = share_end(rights, item, part, &to);
    done(make_edit(alloc, draft, org, &edit))
}

/// Makes a sharing rule, by a body.
///
/// # Errors
///
/// `Refused` if the body isn't of its form, or as the edit is; nothing is then changed. `Store` with `Keeper` if the keeper failed,
/// `Memory` if out of memory.
pub(crate) fn new_sharing_rule<K: Keeper>(
    alloc: Global,
    draft: &mut Draft<'_, K>,
    org: u32,
    body: &[u8],
) -> Result<Answer, EditFail>
    ensures what { DraftTells K.state draft.old draft.new
        → EditsFrom org Anyone (λ a. verdict_or a (request_of route.AddSharingRule body.now)) (tables_of K.state draft.old)
        (tables_of K.state draft.new) result }
    ensures form { IfOk result (IsAnswerTo route.AddSharingRule) }
    ensures makes { DraftsEdit K.state request_changes request_gone edit_shown result draft.old draft.new }
{
    call_laws::<K>();
    requests_fit();
    refusal_laws();
    let new = sharing_rule_in(alloc, body)?;
    let edit = AddSharingRule { new: &new };
    done(make_edit(alloc, draft, org, &edit))
}

/// Ends the sharing rule with this name. Of the request no body is looked at.
///
/// # Errors
///
/// `Refused` as the edit is; nothing is then changed. `Store` with `Keeper` if the keeper failed, `Memory` if out of memory.
pub(crate) fn removed_sharing_rule<K: Keeper>(
    alloc: Global,
    draft: &mut Draft<'_, K>,
    org: u32,
    name: &Text,
) -> Result<Answer, EditFail>
    ensures what { DraftTells K.state draft.old draft.new
        → (body : List ℕ) → EditsFrom org Anyone (λ a. verdict_or a (request_of (route.RemoveSharingRule name.now) body))
        (tables_of K.state draft.old) (tables_of K.state draft.new) result }
    ensures form { IfOk result (IsAnswerTo (route.RemoveSharingRule name.now)) }
    ensures makes { DraftsEdit K.state request_changes request_gone edit_shown result draft.old draft.new }
{
    call_laws::<K>();
    refusal_laws();
    let edit = RemoveSharingRule { name };
    done(make_edit(alloc, draft, org, &edit))
}

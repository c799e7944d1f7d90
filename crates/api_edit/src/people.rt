//! The edits of users, roles, groups and the organisation that requests ask for.

ghost use Rattle.std.specs.Prelude.{IfOk};
ghost use Rattle.api_edit.specs.inner.Edits.{Anyone, EditsFrom, IsAnswerTo};
ghost use Rattle.store_edit.specs.Edits.{DraftsEdit};
ghost use Rattle.store_kv.specs.Draft.{DraftTells, tables_of};
ghost use Rattle.model_requests.specs.RequestOf.{request_of, verdict_or};
ghost use Rattle.model_requests.specs.declared.route.Route.TheVariants as route;
ghost use Rattle.model.specs.Bounds.{edit_shown, request_changes, request_gone};

use crate::answer::{Answer, done, made};
use crate::bodies::{
    group_change_in, group_in, organisation_in, role_change_in, role_in, user_change_in, user_in,
};
use base_value::Text;
use model_requests::refusal_laws;
use people_edit::{AddGroup, AddRole, AddUser, SetGroup, SetOrganisation, SetRole, SetUser};
use std::alloc::Global;
use store_abstraction::{EditFail, call_laws};
use store_edit::make_edit;
use store_kv::{Draft, Keeper};

/// Makes a user, by a body.
///
/// # Errors
///
/// `Refused` if the body isn't of its form, or as the edit is; nothing is then changed. `Store` with `Keeper` if the keeper failed,
/// `Memory` if out of memory.
pub(crate) fn new_user<K: Keeper>(
    alloc: Global,
    draft: &mut Draft<'_, K>,
    org: u32,
    body: &[u8],
) -> Result<Answer, EditFail>
    ensures what { DraftTells K.state draft.old draft.new
        → EditsFrom org Anyone (λ a. verdict_or a (request_of route.AddUser body.now)) (tables_of K.state draft.old)
        (tables_of K.state draft.new) result }
    ensures form { IfOk result (IsAnswerTo route.AddUser) }
    ensures makes { DraftsEdit K.state request_changes request_gone edit_shown result draft.old draft.new }
{
    call_laws::<K>();
    refusal_laws();
    let new = user_in(alloc, body)?;
    let edit = AddUser { new: &new };
    made(make_edit(alloc, draft, org, &edit))
}

/// Gives a user another role, name or secret, or other standing, by a body. The user is named by its id.
///
/// # Errors
///
/// `Refused` if the body isn't of its form, or as the edit is; nothing is then changed. `Store` with `Keeper` if the keeper failed,
/// `Memory` if out of memory.
pub(crate) fn changed_user<K: Keeper>(
    alloc: Global,
    draft: &mut Draft<'_, K>,
    org: u32,
    user: &Text,
    body: &[u8],
) -> Result<Answer, EditFail>
    ensures what { DraftTells K.state draft.old draft.new
        → EditsFrom org Anyone (λ a. verdict_or a (request_of (route.SetUser user.now) body.now)) (tables_of K.state draft.old)
        (tables_of K.state draft.new) result }
    ensures form { IfOk result (IsAnswerTo (route.SetUser user.now)) }
    ensures makes { DraftsEdit K.state request_changes request_gone edit_shown result draft.old draft.new }
{
    call_laws::<K>();
    refusal_laws();
    let change = user_change_in(alloc, body)?;
    let edit = SetUser {
        user,
        change: &change,
    };
    done(make_edit(alloc, draft, org, &edit))
}

/// Makes a role, by a body.
///
/// # Errors
///
/// `Refused` if the body isn't of its form, or as the edit is; nothing is then changed. `Store` with `Keeper` if the keeper failed,
/// `Memory` if out of memory.
pub(crate) fn new_role<K: Keeper>(
    alloc: Global,
    draft: &mut Draft<'_, K>,
    org: u32,
    body: &[u8],
) -> Result<Answer, EditFail>
    ensures what { DraftTells K.state draft.old draft.new
        → EditsFrom org Anyone (λ a. verdict_or a (request_of route.AddRole body.now)) (tables_of K.state draft.old)
        (tables_of K.state draft.new) result }
    ensures form { IfOk result (IsAnswerTo route.AddRole) }
    ensures makes { DraftsEdit K.state request_changes request_gone edit_shown result draft.old draft.new }
{
    call_laws::<K>();
    refusal_laws();
    let new = role_in(alloc, body)?;
    let edit = AddRole {
        name: &new.name,
        parent: new.parent.as_ref(),
    };
    made(make_edit(alloc, draft, org, &edit))
}

/// Gives a role another parent, or none, or another name, by a body. The role is named by its id.
///
/// # Errors
///
/// `Refused` if the body isn't of its form, or as the edit is; nothing is then changed. `Store` with `Keeper` if the keeper failed,
/// `Memory` if out of memory.
pub(crate) fn changed_role<K: Keeper>(
    alloc: Global,
    draft: &mut Draft<'_, K>,
    org: u32,
    role: &Text,
    body: &[u8],
) -> Result<Answer, EditFail>
    ensures what { DraftTells K.state draft.old draft.new
        → EditsFrom org Anyone (λ a. verdict_or a (request_of (route.SetRole role.now) body.now)) (tables_of K.state draft.old)
        (tables_of K.state draft.new) result }
    ensures form { IfOk result (IsAnswerTo (route.SetRole role.now)) }
    ensures makes { DraftsEdit K.state request_changes request_gone edit_shown result draft.old draft.new }
{
    call_laws::<K>();
    refusal_laws();
    let change = role_change_in(alloc, body)?;
    let edit = SetRole {
        role,
        change: &change,
    };
    done(make_edit(alloc, draft, org, &edit))
}

/// Makes a group, by a body.
///
/// # Errors
///
/// `Refused` if the body isn't of its form, or as the edit is; nothing is then changed. `Store` with `Keeper` if the keeper failed,
/// `Memory` if out of memory.
pub(crate) fn new_group<K: Keeper>(
    alloc: Global,
    draft: &mut Draft<'_, K>,
    org: u32,
    body: &[u8],
) -> Result<Answer, EditFail>
    ensures what { DraftTells K.state draft.old draft.new
        → EditsFrom org Anyone (λ a. verdict_or a (request_of route.AddGroup body.now)) (tables_of K.state draft.old)
        (tables_of K.state draft.new) result }
    ensures form { IfOk result (IsAnswerTo route.AddGroup) }
    ensures makes { DraftsEdit K.state request_changes request_gone edit_shown result draft.old draft.new }
{
    call_laws::<K>();
    refusal_laws();
    let name = group_in(alloc, body)?;
    let edit = AddGroup { name: &name };
    made(make_edit(alloc, draft, org, &edit))
}

/// Gives a group other members or another name, by a body. The group is named by its id.
///
/// # Errors
///
/// `Refused` if the body isn't of its form, or as the edit is; nothing is then changed. `Store` with `Keeper` if the keeper failed,
/// `Memory` if out of memory.
pub(crate) fn changed_group<K: Keeper>(
    alloc: Global,
    draft: &mut Draft<'_, K>,
    org: u32,
    group: &Text,
    body: &[u8],
) -> Result<Answer, EditFail>
    ensures what { DraftTells K.state draft.old draft.new
        → EditsFrom org Anyone (λ a. verdict_or a (request_of (route.SetGroup group.now) body.now)) (tables_of K.state draft.old)
        (tables_of K.state draft.new) result }
    ensures form { IfOk result (IsAnswerTo (route.SetGroup group.now)) }
    ensures makes { DraftsEdit K.state request_changes request_gone edit_shown result draft.old draft.new }
{
    call_laws::<K>();
    refusal_laws();
    let change = group_change_in(alloc, body)?;
    let edit = SetGroup {
        group,
        change: &change,
    };
    done(make_edit(alloc, draft, org, &edit))
}

/// Gives the organisation another name, by a body.
///
/// # Errors
///
/// `Refused` if the body isn't of its form, or as the edit is; nothing is then changed. `Store` with `Keeper` if the keeper failed,
/// `Memory` if out of memory.
pub(crate) fn changed_organisation<K: Keeper>(
    alloc: Global,
    draft: &mut Draft<'_, K>,
    org: u32,
    body: &[u8],
) -> Result<Answer, EditFail>
    ensures what { DraftTells K.state draft.old draft.new
        → EditsFrom org Anyone (λ a. verdict_or a (request_of route.SetOrganisation body.now)) (tables_of K.state draft.old)
        (tables_of K.state draft.new) result }
    ensures form { IfOk result (IsAnswerTo route.SetOrganisation) }
    ensures makes { DraftsEdit K.state request_changes request_gone edit_shown result draft.old draft.new }
{
    call_laws::<K>();
    refusal_laws();
    let name = organisation_in(alloc, body)?;
    let edit = SetOrganisation { name: &name };
    done(make_edit(alloc, draft, org, &edit))
}

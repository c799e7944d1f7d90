//! Who asks, which versions and resources there are, and limits.

ghost use Rattle.std.specs.Prelude.{◌≡◌, ◌-◌, [], ◌∷◌, ◌++◌, IfOk, Ok, OnOk, Some, codes};
ghost use Rattle.std.specs.Str.{chars};
ghost use Rattle.api_read.specs.Tells.{TellsOf, TellsTo};
ghost use Rattle.api_read.specs.inner.CallerParts.{told_caller, told_limits};
ghost use Rattle.base_json_tree.specs.Words.{member, number, object, text};
ghost use Rattle.model.specs.Limits.{limit_number};
ghost use Rattle.model.specs.World.{user_at};
ghost use Rattle.model_reads.specs.CallerJson.{base, caller_json, limit_member, limits_json, resources_json, versions_json};
ghost use Rattle.store_abstraction.specs.Calls.{Calls, ended_edit};
ghost use Rattle.store_kv.specs.Draft.{DraftTells, tables_of};

use base_json::Json;
use base_json_tree::{Members, or_null_id};
use base_value::{Id, Items};
use model::{Limit, org_id};
use std::alloc::{AllocError, Global};
use store_abstraction::{EditFail, call_laws, org_there};
use store_kv::{Draft, Keeper};
use store_rows::{OrgRow, StoreFail, UserRow};

// What is told of a user, from the user's row.
fn told_caller(alloc: Global, org: u32, row: &UserRow) -> Result<Json, AllocError>
    ensures { IfOk result (λ v. v ≡ told_caller org row.now) }
{
    let role = or_null_id(alloc, &row.role)?;
    let mut members = Members::new(alloc);
    members.id(alloc, "user_id", &row.id)?;
    members.id(alloc, "organization_id", &org_id(org))?;
    members.id(alloc, "preferred_username", &row.id)?;
    members.text(alloc, "name", row.name.as_str())?;
    members.truth(alloc, "active", row.active)?;
    members.truth(alloc, "is_admin", row.admin)?;
    members.put(alloc, "role", role)?;
    Ok(members.finish())
}

/// The user with this id.
pub(crate) fn user<K: Keeper>(
    alloc: Global,
    draft: &mut Draft<'_, K>,
    org: u32,
    user: &Id,
) -> Result<Json, EditFail>
    ensures tells { DraftTells K.state draft.old draft.new
        → TellsTo org (λ a. user_at a.tenant.users user.now ≡ Some a.user) (λ a. Ok (caller_json org a.user))
        (tables_of K.state draft.old) result }
    ensures calls { Calls K.state 0 (ended_edit result) draft.old draft.new }
{
    call_laws::<K>();
    let found = store_abstraction::user(alloc, draft, org, user)?;
    match found {
        Some(row) => Ok(told_caller(alloc, org, &row)?),
        None => Err(EditFail::Store(StoreFail::Damaged)),
    }
}

// How many there may be, and how many more where there are so many.
fn limit_json(alloc: Global, limit: Limit, count: u64) -> Result<Json, AllocError>
    ensures { IfOk result (λ v. v ≡ object (member (codes "Max") (number (limit_number limit))
        ∷ member (codes "Remaining") (number (limit_number limit - count)) ∷ [])) }
{
    let most = limit.number();
    let more = most.saturating_sub(count);
    let mut members = Members::new(alloc);
    members.number(alloc, "Max", most)?;
    members.number(alloc, "Remaining", more)?;
    Ok(members.finish())
}

// One more member, which tells that.
fn put_limit(
    alloc: Global,
    members: &mut Members,
    name: &str,
    limit: Limit,
    count: u64,
) -> Result<(), AllocError>
    ensures { OnOk result (members.new ≡ members.old ++ limit_member (chars name.now) limit count ∷ []) }
{
    let value = limit_json(alloc, limit, count)?;
    members.put(alloc, name, value)
}

// What is told of limits, from the organisation's row.
fn told_limits(alloc: Global, row: &OrgRow) -> Result<Json, AllocError>
    ensures { IfOk result (λ v. v ≡ told_limits row.now) }
{
    let mut members = Members::new(alloc);
    put_limit(
        alloc,
        &mut members,
        "Records",
        Limit::Records,
        row.records as u64,
    )?;
    put_limit(
        alloc,
        &mut members,
        "Objects",
        Limit::Objects,
        row.objects as u64,
    )?;
    put_limit(alloc, &mut members, "Users", Limit::Users, row.users as u64)?;
    put_limit(alloc, &mut members, "Roles", Limit::Roles, row.roles as u64)?;
    put_limit(
        alloc,
        &mut members,
        "Groups",
        Limit::Groups,
        row.groups as u64,
    )?;
    put_limit(
        alloc,
        &mut members,
        "SharingRules",
        Limit::SharingRules,
        row.sharing_rules as u64,
    )?;
    Ok(members.finish())
}

/// How many there may be of each thing, and how many more.
pub(crate) fn limits<K: Keeper>(
    alloc: Global,
    draft: &mut Draft<'_, K>,
    org: u32,
) -> Result<Json, EditFail>
    ensures tells { DraftTells K.state draft.old draft.new
        → TellsOf org (λ t. Ok (limits_json t)) (tables_of K.state draft.old) result }
    ensures calls { Calls K.state 0 (ended_edit result) draft.old draft.new }
{
    call_laws::<K>();
    let row = org_there(alloc, draft, org)?;
    Ok(told_limits(alloc, &row)?)
}

// The one version of the API.
fn version_json(alloc: Global) -> Result<Json, AllocError>
    ensures { IfOk result (λ v. v ≡ object (member (codes "label") (text (codes "v59.0")) ∷ member (codes "url") (text base)
        ∷ member (codes "version") (text (codes "59.0")) ∷ [])) }
{
    let mut members = Members::new(alloc);
    members.text(alloc, "label", "v59.0")?;
    members.text(alloc, "url", "/services/data/v59.0")?;
    members.text(alloc, "version", "59.0")?;
    Ok(members.finish())
}

/// The versions of the API.
pub(crate) fn versions(alloc: Global) -> Result<Json, AllocError>
    ensures { IfOk result (λ v. v ≡ versions_json) }
{
    let version = version_json(alloc)?;
    let mut versions = Items::new(alloc);
    versions.push(version)?;
    Ok(Json::List(versions))
}

/// What there is below a version.
pub(crate) fn resources(alloc: Global) -> Result<Json, AllocError>
    ensures { IfOk result (λ v. v ≡ resources_json) }
{
    let mut members = Members::new(alloc);
    members.text(alloc, "sobjects", "/services/data/v59.0/sobjects")?;
    members.text(alloc, "query", "/services/data/v59.0/query")?;
    members.text(alloc, "limits", "/services/data/v59.0/limits")?;
    Ok(members.finish())
}

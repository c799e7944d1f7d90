//! Users, roles and groups.

ghost use Rattle.std.specs.Prelude.{◌≡◌, [], ◌∷◌, IfOk, Ok, codes, map};
ghost use Rattle.std.specs.Str.{chars};
ghost use Rattle.api_read.specs.Tells.{TellsOf};
ghost use Rattle.api_read.specs.inner.People.{short_people};
ghost use Rattle.base_json_tree.specs.Words.{list, member, object};
ghost use Rattle.model_reads.specs.PeopleJson.{group_json, kind_word, listed, named_members, people_json, principal_json, principal_text, role_json, user_json};
ghost use Rattle.store_abstraction.specs.Calls.{Calls, ended_edit};
ghost use Rattle.store_kv.specs.Draft.{DraftTells, tables_of};

use base_json::Json;
use base_json_tree::{Members, or_null_id};
use base_value::{Id, Items, Principal, Text, Value, print_value};
use people_rows::{groups_of, roles_of, users_of};
use std::alloc::{AllocError, Global};
use store_abstraction::{EditFail, call_laws};
use store_kv::{Draft, Keeper};
use store_rows::{GroupRow, RoleRow, UserRow};

// A row of people.
trait PeopleRow {
    ghost use Rattle.base_json.specs.declared.tree.Json.{Json};

    // Its id and its name.
    ghost short: { Self → Json };

    // All that is told of it.
    ghost whole: { Self → Json };

    fn tell_short(&self, alloc: Global) -> Result<Json, AllocError>
        ensures { IfOk result (λ v. v ≡ short self.now) };

    fn tell_whole(&self, alloc: Global) -> Result<Json, AllocError>
        ensures { IfOk result (λ v. v ≡ whole self.now) };
}

// The word before an id, by what the id is of.
fn kind_word(principal: &Principal) -> &'static str
    ensures { chars result.now ≡ kind_word principal.now }
{
    match principal {
        Principal::User(_) => "user:",
        Principal::Role(_) => "role:",
        Principal::Subordinates(_) => "subordinates:",
        Principal::Group(_) => "group:",
    }
}

// A principal as bodies spell it.
fn principal_text(alloc: Global, principal: &Principal) -> Result<Text, AllocError>
    ensures { IfOk result (λ text. text ≡ principal_text principal.now) }
{
    let id = print_value(alloc, &Value::Ref(*principal.id()))?;
    let mut text = String::from_str(alloc, kind_word(principal))?;
    text.push_str(id.as_str())?;
    Ok(Text::from_string(text))
}

/// A principal in JSON.
pub(crate) fn principal_json(alloc: Global, principal: &Principal) -> Result<Json, AllocError>
    ensures { IfOk result (λ v. v ≡ principal_json principal.now) }
{
    let text = principal_text(alloc, principal)?;
    Ok(Json::Text(text))
}

// Principals in JSON, in their order.
fn principals_json(alloc: Global, principals: &[Principal]) -> Result<Json, AllocError>
    ensures { IfOk result (λ v. v ≡ list (map principal_json principals.now)) }
{
    let mut told = Items::new(alloc);
    for principal in principals {
        told.push(principal_json(alloc, principal)?)?;
    }
    Ok(Json::List(told))
}

// The members that tell an id and a name.
fn named_members(alloc: Global, id: &Id, name: &Text) -> Result<Members, AllocError>
    ensures { IfOk result (λ members. members ≡ named_members id.now name.now) }
{
    let mut members = Members::new(alloc);
    members.id(alloc, "id", id)?;
    members.text(alloc, "name", name.as_str())?;
    Ok(members)
}

impl PeopleRow for UserRow {
    ghost use Rattle.api_read.specs.inner.People.{short_user, whole_user};

    ghost short = { short_user };

    ghost whole = { whole_user };

    fn tell_short(&self, alloc: Global) -> Result<Json, AllocError> {
        let members = named_members(alloc, &self.id, &self.name)?;
        Ok(members.finish())
    }

    fn tell_whole(&self, alloc: Global) -> Result<Json, AllocError> {
        let role = or_null_id(alloc, &self.role)?;
        let mut members = named_members(alloc, &self.id, &self.name)?;
        members.put(alloc, "role", role)?;
        members.truth(alloc, "admin", self.admin)?;
        members.truth(alloc, "active", self.active)?;
        Ok(members.finish())
    }
}

impl PeopleRow for RoleRow {
    ghost use Rattle.api_read.specs.inner.People.{short_role, whole_role};

    ghost short = { short_role };

    ghost whole = { whole_role };

    fn tell_short(&self, alloc: Global) -> Result<Json, AllocError> {
        let members = named_members(alloc, &self.id, &self.name)?;
        Ok(members.finish())
    }

    fn tell_whole(&self, alloc: Global) -> Result<Json, AllocError> {
        let parent = or_null_id(alloc, &self.parent)?;
        let mut members = named_members(alloc, &self.id, &self.name)?;
        members.put(alloc, "parent", parent)?;
        Ok(members.finish())
    }
}

impl PeopleRow for GroupRow {
    ghost use Rattle.api_read.specs.inner.People.{short_group, whole_group};

    ghost short = { short_group };

    ghost whole = { whole_group };

    fn tell_short(&self, alloc: Global) -> Result<Json, AllocError> {
        let members = named_members(alloc, &self.id, &self.name)?;
        Ok(members.finish())
    }

    fn tell_whole(&self, alloc: Global) -> Result<Json, AllocError> {
        let principals = principals_json(alloc, self.members.as_slice())?;
        let mut members = named_members(alloc, &self.id, &self.name)?;
        members.put(alloc, "members", principals)?;
        Ok(members.finish())
    }
}

// The ids and names of rows, in their order.
fn short_list<R: PeopleRow>(alloc: Global, rows: &[R]) -> Result<Json, AllocError>
    ensures { IfOk result (λ v. v ≡ list (map R.short rows.now)) }
{
    let mut told = Items::new(alloc);
    for row in rows {
        told.push(row.tell_short(alloc)?)?;
    }
    Ok(Json::List(told))
}

// All that is told of rows, in their order.
fn whole_list<R: PeopleRow>(alloc: Global, rows: &[R]) -> Result<Json, AllocError>
    ensures { IfOk result (λ v. v ≡ list (map R.whole rows.now)) }
{
    let mut told = Items::new(alloc);
    for row in rows {
        told.push(row.tell_whole(alloc)?)?;
    }
    Ok(Json::List(told))
}

/// An object whose one member is a list.
pub(crate) fn listed(alloc: Global, name: &str, items: Json) -> Result<Json, AllocError>
    ensures { IfOk result (λ v. v ≡ object (member (chars name.now) items ∷ [])) }
{
    let mut members = Members::new(alloc);
    members.put(alloc, name, items)?;
    Ok(members.finish())
}

// All that is told of rows, as an object whose one member is their list.
fn listed_rows<R: PeopleRow>(alloc: Global, name: &str, rows: &[R]) -> Result<Json, AllocError>
    ensures { IfOk result (λ v. v ≡ listed (chars name.now) (map R.whole rows.now)) }
{
    let items = whole_list(alloc, rows)?;
    listed(alloc, name, items)
}

// The ids and names of all people.
fn short_people(
    alloc: Global,
    users: &[UserRow],
    roles: &[RoleRow],
    groups: &[GroupRow],
) -> Result<Json, AllocError>
    ensures { IfOk result (λ v. v ≡ short_people users.now roles.now groups.now) }
{
    let users = short_list(alloc, users)?;
    let roles = short_list(alloc, roles)?;
    let groups = short_list(alloc, groups)?;
    let mut members = Members::new(alloc);
    members.put(alloc, "users", users)?;
    members.put(alloc, "roles", roles)?;
    members.put(alloc, "groups", groups)?;
    Ok(members.finish())
}

/// The ids and names of users, roles and groups.
pub(crate) fn people<K: Keeper>(
    alloc: Global,
    draft: &mut Draft<'_, K>,
    org: u32,
) -> Result<Json, EditFail>
    ensures tells { DraftTells K.state draft.old draft.new
        → TellsOf org (λ t. Ok (people_json t)) (tables_of K.state draft.old) result }
    ensures calls { Calls K.state 0 (ended_edit result) draft.old draft.new }
{
    call_laws::<K>();
    let users = users_of(alloc, draft, org)?;
    let roles = roles_of(alloc, draft, org)?;
    let groups = groups_of(alloc, draft, org)?;
    Ok(short_people(alloc, users.as_slice(), roles.as_slice(), groups.as_slice())?)
}

/// All users.
pub(crate) fn users<K: Keeper>(
    alloc: Global,
    draft: &mut Draft<'_, K>,
    org: u32,
) -> Result<Json, EditFail>
    ensures tells { DraftTells K.state draft.old draft.new
        → TellsOf org (λ t. Ok (listed (codes "users") (map user_json t.users))) (tables_of K.state draft.old) result }
    ensures calls { Calls K.state 0 (ended_edit result) draft.old draft.new }
{
    call_laws::<K>();
    let rows = users_of(alloc, draft, org)?;
    Ok(listed_rows(alloc, "users", rows.as_slice())?)
}

/// All roles.
pub(crate) fn roles<K: Keeper>(
    alloc: Global,
    draft: &mut Draft<'_, K>,
    org: u32,
) -> Result<Json, EditFail>
    ensures tells { DraftTells K.state draft.old draft.new
        → TellsOf org (λ t. Ok (listed (codes "roles") (map role_json t.roles))) (tables_of K.state draft.old) result }
    ensures calls { Calls K.state 0 (ended_edit result) draft.old draft.new }
{
    call_laws::<K>();
    let rows = roles_of(alloc, draft, org)?;
    Ok(listed_rows(alloc, "roles", rows.as_slice())?)
}

/// All groups, with their members.
pub(crate) fn groups<K: Keeper>(
    alloc: Global,
    draft: &mut Draft<'_, K>,
    org: u32,
) -> Result<Json, EditFail>
    ensures tells { DraftTells K.state draft.old draft.new
        → TellsOf org (λ t. Ok (listed (codes "groups") (map group_json t.groups))) (tables_of K.state draft.old) result }
    ensures calls { Calls K.state 0 (ended_edit result) draft.old draft.new }
{
    call_laws::<K>();
    let rows = groups_of(alloc, draft, org)?;
    Ok(listed_rows(alloc, "groups", rows.as_slice())?)
}

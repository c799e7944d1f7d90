//! All users, roles and groups of an organisation.

ghost use Rattle.store_kv.specs.Draft.{DraftTells, tables_of};
ghost use Rattle.people_rows.specs.Roster.{ListsIn, group_rows, role_rows, user_rows};
ghost use Rattle.store_abstraction.specs.Calls.{Calls, ended};

use base_value::id_laws;
use model::name_laws;
use std::alloc::Global;
use store_abstraction::local_laws;
use store_codec::shape_laws;
use store_kv::{Draft, Keeper};
use store_rows::{
    GroupRow, Mark, RoleRow, StoreFail, UserRow, listing_laws, page_under, table_laws,
};

// The most users of an organisation, by the limits of `model`.
const MOST_USERS: usize = 2000;

// The most roles of an organisation.
const MOST_ROLES: usize = 500;

// The most groups of an organisation.
const MOST_GROUPS: usize = 500;

/// The users of an organisation as rows, in the order of their ids.
///
/// # Errors
///
/// `Keeper` if the keeper failed, `Memory` if out of memory, `Damaged` never if the organisation's rows stand for a tenant or
/// for none.
pub fn users_of<K: Keeper>(
    alloc: Global,
    draft: &mut Draft<'_, K>,
    org: u32,
) -> Result<Vec<UserRow>, StoreFail>
    ensures finds { DraftTells K.state draft.old draft.new
        → ListsIn org (λ q t. user_rows org t) (tables_of K.state draft.old) result }
    ensures calls { Calls K.state 0 (ended result) draft.old draft.new }
{
    local_laws();
    listing_laws::<UserRow>();
    table_laws();
    shape_laws();
    id_laws();
    name_laws();
    page_under(alloc, draft, &(org, Mark::<0>), None, MOST_USERS + 1)
}

/// The roles of an organisation as rows, in the order of their ids.
///
/// # Errors
///
/// `Keeper` if the keeper failed, `Memory` if out of memory, `Damaged` never if the organisation's rows stand for a tenant or
/// for none.
pub fn roles_of<K: Keeper>(
    alloc: Global,
    draft: &mut Draft<'_, K>,
    org: u32,
) -> Result<Vec<RoleRow>, StoreFail>
    ensures finds { DraftTells K.state draft.old draft.new
        → ListsIn org (λ q t. role_rows org t) (tables_of K.state draft.old) result }
    ensures calls { Calls K.state 0 (ended result) draft.old draft.new }
{
    local_laws();
    listing_laws::<RoleRow>();
    table_laws();
    shape_laws();
    id_laws();
    name_laws();
    page_under(alloc, draft, &(org, Mark::<1>), None, MOST_ROLES + 1)
}

/// The groups of an organisation as rows, in the order of their ids.
///
/// # Errors
///
/// `Keeper` if the keeper failed, `Memory` if out of memory, `Damaged` never if the organisation's rows stand for a tenant or
/// for none.
pub fn groups_of<K: Keeper>(
    alloc: Global,
    draft: &mut Draft<'_, K>,
    org: u32,
) -> Result<Vec<GroupRow>, StoreFail>
    ensures finds { DraftTells K.state draft.old draft.new
        → ListsIn org (λ q t. group_rows org t) (tables_of K.state draft.old) result }
    ensures calls { Calls K.state 0 (ended result) draft.old draft.new }
{
    local_laws();
    listing_laws::<GroupRow>();
    table_laws();
    shape_laws();
    id_laws();
    name_laws();
    page_under(alloc, draft, &(org, Mark::<2>), None, MOST_GROUPS + 1)
}

//! Reads of one role and of one group.

ghost use Rattle.std.specs.Option.{option_map};
ghost use Rattle.store_kv.specs.Draft.{DraftTells, tables_of};
ghost use Rattle.people_rows.specs.Roster.{group_in, role_in};
ghost use Rattle.store_abstraction.specs.Calls.{Calls, ended};
ghost use Rattle.store_abstraction.specs.Local.{FindsIn};
ghost use Rattle.store_abstraction.specs.Metadata.{group_of, role_of};

use base_value::{Id, id_laws};
use model::name_laws;
use std::alloc::Global;
use store_kv::{Draft, Keeper, key_laws};
use store_rows::{GroupRow, Mark, RoleRow, StoreFail, row_at, row_laws, table_laws};

/// The role of an organisation that has this id, as a row.
///
/// # Errors
///
/// `Keeper` if the keeper failed, `Memory` if out of memory, `Damaged` never if the organisation's rows stand for a tenant or
/// for none.
pub fn role<K: Keeper>(
    alloc: Global,
    draft: &mut Draft<'_, K>,
    org: u32,
    id: &Id,
) -> Result<Option<RoleRow>, StoreFail>
    ensures finds { DraftTells K.state draft.old draft.new
        → FindsIn org (λ q t. option_map (role_of org) (role_in t id.now)) (tables_of K.state draft.old) result }
    ensures calls { Calls K.state 0 (ended result) draft.old draft.new }
{
    key_laws();
    table_laws();
    row_laws::<RoleRow>();
    id_laws();
    name_laws();
    let _ = id.as_bytes();
    row_at(alloc, draft, &(org, (Mark::<1>, *id)))
}

/// The group of an organisation that has this id, as a row.
///
/// # Errors
///
/// `Keeper` if the keeper failed, `Memory` if out of memory, `Damaged` never if the organisation's rows stand for a tenant or
/// for none.
pub fn group<K: Keeper>(
    alloc: Global,
    draft: &mut Draft<'_, K>,
    org: u32,
    id: &Id,
) -> Result<Option<GroupRow>, StoreFail>
    ensures finds { DraftTells K.state draft.old draft.new
        → FindsIn org (λ q t. option_map (group_of org) (group_in t id.now)) (tables_of K.state draft.old) result }
    ensures calls { Calls K.state 0 (ended result) draft.old draft.new }
{
    key_laws();
    table_laws();
    row_laws::<GroupRow>();
    id_laws();
    name_laws();
    let _ = id.as_bytes();
    row_at(alloc, draft, &(org, (Mark::<2>, *id)))
}

//! The rows of the user, the role or the group that is to change.

ghost use Rattle.std.specs.Prelude.{◌≡◌, IfOk, Some, is_none};
ghost use Rattle.store_kv.specs.Draft.{DraftTells, tables_of};
ghost use Rattle.store_rows.specs.Forms.{FitsForm};
ghost use Rattle.store_rows.specs.Rows.{group_form, role_form, user_form};
ghost use Rattle.model.specs.declared.refusal.Refusal.TheVariants.{NotFound};
ghost use Rattle.model.specs.Principals.{group_at, role_at};
ghost use Rattle.model.specs.Rules.{refuse_if};
ghost use Rattle.model.specs.Tenant.{Tenant};
ghost use Rattle.model.specs.World.{user_at};
ghost use Rattle.people_edit.specs.inner.Changing.{IsRowAs, found};
ghost use Rattle.store_edit.specs.Judging.{Passes};
ghost use Rattle.store_abstraction.specs.Calls.{Calls, ended_edit};
ghost use Rattle.store_abstraction.specs.Local.{StandsIn};
ghost use Rattle.store_abstraction.specs.Metadata.{group_of, role_of, user_of};
ghost use Rattle.store_abstraction.specs.Plan.{OrgPlan};

use base_value::{Id, id_laws};
use model::{Refusal, name_laws};
use std::alloc::Global;
use store_abstraction::EditFail;
use store_kv::{Draft, Keeper, key_laws};
use store_rows::{GroupRow, Mark, RoleRow, StoreFail, UserRow, row_at, row_laws, table_laws};

// The row that was read, which is refused if there is none.
fn found<R: Drop>(row: Result<Option<R>, StoreFail>) -> Result<R, EditFail>
    ensures { result ≡ found row }
{
    match row {
        Ok(Some(row)) => Ok(row),
        Ok(None) => Err(EditFail::Refused(Refusal::NotFound)),
        Err(fail) => Err(EditFail::Store(fail)),
    }
}

/// The row of the user with this id.
///
/// # Errors
///
/// `Refused` with `NotFound` if there is none. `Store` with `Keeper` if the keeper failed, `Memory` if out of memory, `Damaged`
/// never if the organisation's rows stand for a tenant.
pub(crate) fn user_there<K: Keeper>(
    alloc: Global,
    draft: &mut Draft<'_, K>,
    org: u32,
    id: &Id,
) -> Result<UserRow, EditFail>
    ensures passes { DraftTells K.state draft.old draft.new
        → (q : OrgPlan) (t : Tenant) → StandsIn org q (tables_of K.state draft.old) (Some t)
        → Passes (refuse_if (is_none (user_at t.users id.now)) NotFound) (IsRowAs (user_of org) (user_at t.users id.now)) result }
    ensures own { DraftTells K.state draft.old draft.new → IfOk result (λ row. row.org ≡ org) }
    ensures fits { IfOk result (FitsForm user_form) }
    ensures calls { Calls K.state 0 (ended_edit result) draft.old draft.new }
{
    key_laws();
    table_laws();
    row_laws::<UserRow>();
    id_laws();
    name_laws();
    let _ = id.as_bytes();
    found(row_at(alloc, draft, &(org, (Mark::<0>, *id))))
}

/// The row of the role with this id.
///
/// # Errors
///
/// As of a user's.
pub(crate) fn role_there<K: Keeper>(
    alloc: Global,
    draft: &mut Draft<'_, K>,
    org: u32,
    id: &Id,
) -> Result<RoleRow, EditFail>
    ensures passes { DraftTells K.state draft.old draft.new
        → (q : OrgPlan) (t : Tenant) → StandsIn org q (tables_of K.state draft.old) (Some t)
        → Passes (refuse_if (is_none (role_at t id.now)) NotFound) (IsRowAs (role_of org) (role_at t id.now)) result }
    ensures own { DraftTells K.state draft.old draft.new → IfOk result (λ row. row.org ≡ org) }
    ensures fits { IfOk result (FitsForm role_form) }
    ensures calls { Calls K.state 0 (ended_edit result) draft.old draft.new }
{
    key_laws();
    table_laws();
    row_laws::<RoleRow>();
    id_laws();
    name_laws();
    let _ = id.as_bytes();
    found(row_at(alloc, draft, &(org, (Mark::<1>, *id))))
}

/// The row of the group with this id.
///
/// # Errors
///
/// As of a user's.
pub(crate) fn group_there<K: Keeper>(
    alloc: Global,
    draft: &mut Draft<'_, K>,
    org: u32,
    id: &Id,
) -> Result<GroupRow, EditFail>
    ensures passes { DraftTells K.state draft.old draft.new
        → (q : OrgPlan) (t : Tenant) → StandsIn org q (tables_of K.state draft.old) (Some t)
        → Passes (refuse_if (is_none (group_at t id.now)) NotFound) (IsRowAs (group_of org) (group_at t id.now)) result }
    ensures own { DraftTells K.state draft.old draft.new → IfOk result (λ row. row.org ≡ org) }
    ensures fits { IfOk result (FitsForm group_form) }
    ensures calls { Calls K.state 0 (ended_edit result) draft.old draft.new }
{
    key_laws();
    table_laws();
    row_laws::<GroupRow>();
    id_laws();
    name_laws();
    let _ = id.as_bytes();
    found(row_at(alloc, draft, &(org, (Mark::<2>, *id))))
}

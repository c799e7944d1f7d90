//! That somebody who is active administers the organisation.

ghost use Rattle.std.specs.Prelude.{◌≡◌, Some};
ghost use Rattle.std.specs.List.{list_any};
ghost use Rattle.store_kv.specs.Draft.{DraftTells, tables_of};
ghost use Rattle.model.specs.Tenant.{Tenant};
ghost use Rattle.people_edit.specs.inner.Changing.{is_another, none_administers, row_administers};
ghost use Rattle.store_edit.specs.Judging.{Passes};
ghost use Rattle.store_abstraction.specs.Calls.{Calls, ended_edit};
ghost use Rattle.store_abstraction.specs.Local.{StandsIn};
ghost use Rattle.store_abstraction.specs.Plan.{OrgPlan};

use base_value::Id;
use model::Refusal;
use people_rows::users_of;
use std::alloc::Global;
use store_abstraction::{EditFail, call_laws};
use store_kv::{Draft, Keeper};
use store_rows::UserRow;

/// Whether a row is of an active administrator.
pub(crate) fn administers(row: &UserRow) -> bool
    ensures { result ≡ row_administers row.now }
{
    row.active && row.admin
}

// Whether a row is of an active administrator other than the user with this id.
fn is_another(row: &UserRow, id: &Id) -> bool
    ensures { result ≡ is_another id.now row.now }
{
    administers(row) && row.id != *id
}

// Whether there is such a row among these.
fn has_another(rows: &[UserRow], id: &Id) -> bool
    ensures { result ≡ list_any (is_another id.now) rows.now }
{
    rows.iter().any(|row| is_another(row, id))
}

/// Looks whether somebody who is active administers the organisation where a user's row becomes this one, by whether the user was an
/// active administrator before. Where the user was none, somebody else is: so the users are read only where one ceases to be.
///
/// # Errors
///
/// `Refused` with `LastAdministrator` if nobody would. `Store` with `Keeper` if the keeper failed, `Memory` if out of memory,
/// `Damaged` never if the organisation's rows stand for a tenant.
pub(crate) fn check_administrators<K: Keeper>(
    alloc: Global,
    draft: &mut Draft<'_, K>,
    org: u32,
    administered: bool,
    row: &UserRow,
) -> Result<(), EditFail>
    ensures passes { DraftTells K.state draft.old draft.new
        → (q : OrgPlan) (t : Tenant) → StandsIn org q (tables_of K.state draft.old) (Some t)
        → Passes (none_administers org t administered row.now) (λ x. Unit {0}) result }
    ensures calls { Calls K.state 0 (ended_edit result) draft.old draft.new }
{
    call_laws::<K>();
    if !administered || administers(row) {
        return Ok(());
    }
    let users = users_of(alloc, draft, org)?;
    if has_another(users.as_slice(), &row.id) {
        Ok(())
    } else {
        Err(EditFail::Refused(Refusal::LastAdministrator))
    }
}

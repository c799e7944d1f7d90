//! What is to go, and the organisation's row without it.

ghost use Rattle.std.specs.Prelude.{◌≡◌, ◌++◌, ◌∷◌, [], IfErr, IfOk, IsTrue, None, OnOk, Some};
ghost use Rattle.store_edit.specs.Judging.{Passes};
ghost use Rattle.store_edit.specs.Rows.{AreSpelled, spelled};
ghost use Rattle.store_kv.specs.Draft.{DraftTells, tables_of};
ghost use Rattle.store_rows.specs.declared.fail.StoreFail.TheVariants.{Memory};
ghost use Rattle.store_rows.specs.Forms.{FitsForm};
ghost use Rattle.store_rows.specs.Rows.{org_form};
ghost use Rattle.model.specs.Principals.{bad_id, spelled_id};
ghost use Rattle.model.specs.Tenant.{Tenant};
ghost use Rattle.base_value.specs.Id.{is_id};
ghost use Rattle.people_removal.specs.inner.Removing.{changes_of, has_it, id_of, key_of, not_here, one_less, own_less, without};
ghost use Rattle.store_abstraction.specs.Calls.{Calls, ended, ended_edit, fell};
ghost use Rattle.store_abstraction.specs.Fails.{of_store};
ghost use Rattle.store_abstraction.specs.Local.{FindsIn, FindsThere, StandsIn};
ghost use Rattle.store_abstraction.specs.Metadata.{org_of};
ghost use Rattle.store_abstraction.specs.Plan.{OrgPlan};

use crate::named::Named;
use base_value::{Id, Text, id_in};
use model::Refusal;
use people_rows::{group, role};
use std::alloc::{AllocError, Global};
use store_abstraction::{EditFail, call_laws, org_there};
use store_edit::{Decided, put_row, remove_row};
use store_kv::{Change, Draft, Keeper};
use store_rows::{GroupRow, Mark, OrgRow, RoleRow, StoreFail};

/// The id that a text spells.
///
/// # Errors
///
/// `Refused` with `MalformedId` if it spells none, `Store` with `Memory` if out of memory.
pub(crate) fn id_spelled(alloc: Global, text: &Text) -> Result<Id, EditFail>
    ensures passes { Passes (bad_id text.now) (λ id. (id ≡ spelled_id text.now) × IsTrue (is_id id)) result }
    ensures cause { ended_edit result ≡ fell → ⊥ }
{
    match id_in(text.as_str()) {
        Some(id) => {
            // That these are an id's characters.
            let _ = id.as_bytes();
            Ok(id)
        }
        None => Err(EditFail::Refused(Refusal::MalformedId {
            text: text.copy(alloc)?,
        })),
    }
}

// Whether the organisation has it.
fn is_here<K: Keeper>(
    alloc: Global,
    draft: &mut Draft<'_, K>,
    org: u32,
    named: &Named,
) -> Result<bool, StoreFail>
    ensures finds { DraftTells K.state draft.old draft.new
        → FindsIn org (λ q t. has_it named.now t) (tables_of K.state draft.old) result }
    ensures calls { Calls K.state 0 (ended result) draft.old draft.new }
{
    match named {
        Named::Role(id) => Ok(role(alloc, draft, org, id)?.is_some()),
        Named::Group(id) => Ok(group(alloc, draft, org, id)?.is_some()),
    }
}

// The organisation's row with one less, if it counts one.
fn one_less(named: &Named, row: OrgRow) -> Option<OrgRow>
    ensures { result ≡ one_less named.now row }
{
    match named {
        Named::Role(_) => {
            let roles = row.roles.checked_sub(1)?;
            Some(OrgRow { roles, ..row })
        }
        Named::Group(_) => {
            let groups = row.groups.checked_sub(1)?;
            Some(OrgRow { groups, ..row })
        }
    }
}

// The organisation's row with one less, where it has it.
fn row_with_less<K: Keeper>(
    alloc: Global,
    draft: &mut Draft<'_, K>,
    org: u32,
    named: &Named,
) -> Result<OrgRow, StoreFail>
    ensures finds { DraftTells K.state draft.old draft.new
        → FindsThere org (λ q t. own_less org named.now t) (tables_of K.state draft.old) result }
    ensures own { DraftTells K.state draft.old draft.new → IfOk result (λ row. row.org ≡ org) }
    ensures fits { IfOk result (FitsForm org_form) }
    ensures calls { Calls K.state 0 (ended result) draft.old draft.new }
{
    let row = org_there(alloc, draft, org)?;
    match one_less(named, row) {
        Some(row) => Ok(row),
        // An organisation that has it counts it.
        None => Err(StoreFail::Damaged),
    }
}

/// The organisation's row without it, if it has it.
///
/// # Errors
///
/// `Refused` with `NotFound` if it hasn't. `Store` with `Keeper` if the keeper failed, `Memory` if out of memory, `Damaged` never if
/// the organisation's rows stand for a tenant.
pub(crate) fn row_without<K: Keeper>(
    alloc: Global,
    draft: &mut Draft<'_, K>,
    org: u32,
    named: &Named,
) -> Result<OrgRow, EditFail>
    ensures passes { DraftTells K.state draft.old draft.new
        → (q : OrgPlan) (t : Tenant) → StandsIn org q (tables_of K.state draft.old) (Some t)
        → Passes (not_here named.now t) (λ row. row ≡ org_of org (without named.now t)) result }
    ensures own { DraftTells K.state draft.old draft.new → IfOk result (λ row. row.org ≡ org) }
    ensures fits { IfOk result (FitsForm org_form) }
    ensures calls { Calls K.state 0 (ended_edit result) draft.old draft.new }
{
    call_laws::<K>();
    if !is_here(alloc, draft, org, named)? {
        return Err(EditFail::Refused(Refusal::NotFound));
    }
    Ok(row_with_less(alloc, draft, org, named)?)
}

// One change more: its row goes.
fn remove_named(
    alloc: Global,
    changes: &mut Vec<Change>,
    org: u32,
    named: &Named,
) -> Result<(), AllocError>
    requires { IsTrue (is_id (id_of named.now)) }
    ensures { OnOk result (changes.new.items ≡ changes.old.items ++ spelled (key_of org named.now, None) ∷ []) }
{
    match named {
        Named::Role(id) => { remove_row::<RoleRow>(alloc, changes, &(org, (Mark::<1>, *id))) }
        Named::Group(id) => { remove_row::<GroupRow>(alloc, changes, &(org, (Mark::<2>, *id))) }
    }
}

/// The edit, decided: it puts the organisation's row, and removes that of what goes.
///
/// # Errors
///
/// `Store` with `Memory` if out of memory.
pub(crate) fn decided(
    alloc: Global,
    org: u32,
    named: &Named,
    row: &OrgRow,
) -> Result<Decided<()>, EditFail>
    requires id { IsTrue (is_id (id_of named.now)) }
    requires row { FitsForm org_form row.now }
    ensures made { IfOk result (λ x. AreSpelled (changes_of org named.now row.now) x.changes.items) }
    ensures cause { IfErr result (λ e. e ≡ of_store Memory) }
{
    let mut changes = Vec::new(alloc);
    put_row(alloc, &mut changes, row)?;
    remove_named(alloc, &mut changes, org, named)?;
    Ok(Decided {
        answer: (),
        changes,
    })
}

//! A share among those of its record.

ghost use Rattle.std.specs.Prelude.{◌≡◌, ◌∷◌, ◌<◌, ◌≤◌, ◌+◌, ◌^◌, [], Some, codes, filter, length, not};
ghost use Rattle.std.specs.List.{list_any};
ghost use Rattle.std.specs.Ordering.{eq_by_cmp};
ghost use Rattle.store_kv.specs.Draft.{DraftTells, tables_of};
ghost use Rattle.model.specs.declared.limit.Limit.TheVariants as limits;
ghost use Rattle.model.specs.declared.refusal.Refusal.TheVariants.{InvalidReference};
ghost use Rattle.model.specs.Rules.{over_limit, refuse_if};
ghost use Rattle.model.specs.Shares.{same_share, shares_of, with_share};
ghost use Rattle.model.specs.Tenant.{Share, Tenant};
ghost use Rattle.store_edit.specs.Judging.{Passes};
ghost use Rattle.store_abstraction.specs.Calls.{Calls, ended_edit, fell};
ghost use Rattle.store_abstraction.specs.Local.{StandsIn};
ghost use Rattle.store_abstraction.specs.Plan.{OrgPlan};
ghost use Rattle.base_value.specs.Principals.{principal_cmp};

use crate::principals::bad_reference;
use base_value::{Id, Principal, principal_laws};
use model::Limit;
use record_target::shares_of;
use std::alloc::Global;
use store_abstraction::{EditFail, call_laws};
use store_edit::over_limit;
use store_kv::{Draft, Keeper};
use store_rows::ShareRow;

// How many of a record's shares are with others.
fn others(rows: &[ShareRow], to: &Principal) -> usize
    ensures is { result ≡ length (filter (λ row. not (eq_by_cmp principal_cmp row.to to.now)) rows.now) }
    ensures few { result ≤ length rows.now }
{
    rows.iter().filter(|row| row.to != *to).count()
}

// Whether one of a record's shares is with the principal.
fn is_shared(rows: &[ShareRow], to: &Principal) -> bool
    ensures { result ≡ list_any (λ row. eq_by_cmp principal_cmp row.to to.now) rows.now }
{
    rows.iter().any(|row| row.to == *to)
}

// Refuses one share more than these, if a record may have no more.
fn check_room(others: usize) -> Result<(), EditFail>
    requires { others < 2 ^ 32 }
    ensures passes { Passes (over_limit ((limits.SharesPerRecord, others + 1) ∷ [])) (λ x. Unit {0}) result }
    ensures cause { ended_edit result ≡ fell → ⊥ }
{
    match over_limit(Limit::SharesPerRecord, others as u64 + 1) {
        None => Ok(()),
        Some(refusal) => Err(EditFail::Refused(refusal)),
    }
}

/// Refuses a share of the record with the principal if the record then has more than it may. One with the principal, which it
/// replaces, doesn't count.
///
/// # Errors
///
/// `Refused` with `LimitExceeded`. `Store` with `Keeper` if the keeper failed, `Memory` if out of memory, `Damaged` never if the
/// organisation's rows stand for a tenant.
pub(crate) fn check_count<K: Keeper>(
    alloc: Global,
    draft: &mut Draft<'_, K>,
    org: u32,
    id: &Id,
    to: &Principal,
) -> Result<(), EditFail>
    ensures passes { DraftTells K.state draft.old draft.new
        → (q : OrgPlan) (t : Tenant) (s : Share) → StandsIn org q (tables_of K.state draft.old) (Some t)
        → s.item ≡ id.now → s.to ≡ to.now
        → Passes (over_limit ((limits.SharesPerRecord, length (shares_of s.item (with_share s t.shares))) ∷ [])) (λ x. Unit {0}) result }
    ensures calls { Calls K.state 0 (ended_edit result) draft.old draft.new }
{
    call_laws::<K>();
    principal_laws();
    match shares_of(alloc, draft, org, id) {
        Ok(rows) => check_room(others(rows.as_slice(), to)),
        Err(fail) => Err(EditFail::Store(fail)),
    }
}

/// Looks for the share of the record with the principal.
///
/// # Errors
///
/// `Refused` with `InvalidReference` if there is none. `Store` with `Keeper` if the keeper failed, `Memory` if out of memory,
/// `Damaged` never if the organisation's rows stand for a tenant.
pub(crate) fn find_share<K: Keeper>(
    alloc: Global,
    draft: &mut Draft<'_, K>,
    org: u32,
    id: &Id,
    to: &Principal,
) -> Result<(), EditFail>
    ensures passes { DraftTells K.state draft.old draft.new
        → (q : OrgPlan) (t : Tenant) (s : Share) → StandsIn org q (tables_of K.state draft.old) (Some t)
        → s.item ≡ id.now → s.to ≡ to.now
        → Passes (refuse_if (not (list_any (same_share s) t.shares)) (InvalidReference (codes "to"))) (λ x. Unit {0}) result }
    ensures calls { Calls K.state 0 (ended_edit result) draft.old draft.new }
{
    call_laws::<K>();
    principal_laws();
    match shares_of(alloc, draft, org, id) {
        Ok(rows) => {
            if is_shared(rows.as_slice(), to) {
                Ok(())
            } else {
                Err(EditFail::Refused(bad_reference(alloc)?))
            }
        }
        Err(fail) => Err(EditFail::Store(fail)),
    }
}

//! The rules on a new sharing rule, in their order.

ghost use Rattle.std.specs.Prelude.{◌≡◌, ◌≤◌, IfOk, OnOk, Some, length};
ghost use Rattle.std.specs.List.{list_any};
ghost use Rattle.store_kv.specs.Draft.{DraftTells, tables_of};
ghost use Rattle.model.specs.Fields.{is_master};
ghost use Rattle.model.specs.Names.{bad_name, is_stem};
ghost use Rattle.model.specs.Rules.{first_refusal};
ghost use Rattle.model.specs.Tenant.{Tenant};
ghost use Rattle.access_rules.specs.inner.Adding.{HasRoom, detail_rule, room_rule, rules_by, taken_rule};
ghost use Rattle.store_edit.specs.Judging.{Passes};
ghost use Rattle.store_abstraction.specs.Calls.{Calls, ended_edit, fell};
ghost use Rattle.store_abstraction.specs.Local.{StandsIn};
ghost use Rattle.store_abstraction.specs.Plan.{OrgPlan};

use crate::criteria::check_formula;
use crate::keys::{key_of, rule_at};
use crate::laws::sharing_laws;
use crate::members::{check_ids, find_principals};
use base_value::{FieldType, Text};
use model::{Limit, NewSharingRule, Refusal, is_stem};
use std::alloc::Global;
use store_abstraction::{EditFail, FieldPlace, Layout, call_laws};
use store_edit::invalid_type;
use store_kv::{Draft, Keeper, draft_laws};
use store_rows::OrgRow;

// Whether a field is a detail's reference to its master.
fn is_master(field: &FieldPlace) -> bool
    ensures { result ≡ is_master field.now.kind }
{
    matches!(field.kind, FieldType::Master { .. })
}

// Whether one of the fields is such.
fn has_master(fields: &[FieldPlace]) -> bool
    ensures { result ≡ list_any (λ f. is_master f.kind) fields.now }
{
    fields.iter().any(|field| is_master(field))
}

// Refuses an object whose records have masters.
fn check_object(alloc: Global, layout: &Layout) -> Result<(), EditFail>
    ensures passes { Passes (detail_rule layout.now) (λ x. Unit {0}) result }
    ensures cause { ended_edit result ≡ fell → ⊥ }
{
    if has_master(layout.fields.as_slice()) {
        Err(EditFail::Refused(invalid_type(alloc, &layout.name)?))
    } else {
        Ok(())
    }
}

// Refuses a name that isn't of its form.
fn check_name(alloc: Global, name: &Text) -> Result<(), EditFail>
    ensures passes { Passes (bad_name is_stem name.now) (λ x. Unit {0}) result }
    ensures cause { ended_edit result ≡ fell → ⊥ }
{
    if is_stem(name.as_str()) {
        Ok(())
    } else {
        Err(EditFail::Refused(Refusal::InvalidName {
            name: name.copy(alloc)?,
        }))
    }
}

// Refuses a name that another rule has.
fn check_free<K: Keeper>(
    alloc: Global,
    draft: &mut Draft<'_, K>,
    org: u32,
    name: &Text,
) -> Result<(), EditFail>
    ensures passes { DraftTells K.state draft.old draft.new
        → (q : OrgPlan) (t : Tenant) → StandsIn org q (tables_of K.state draft.old) (Some t)
        → Passes (taken_rule t name.now) (λ x. Unit {0}) result }
    ensures calls { Calls K.state 0 (ended_edit result) draft.old draft.new }
{
    call_laws::<K>();
    sharing_laws();
    let key = key_of(alloc, org, name)?;
    if rule_at(alloc, draft, &key)?.is_some() {
        Err(EditFail::Refused(Refusal::NameTaken {
            name: name.copy(alloc)?,
        }))
    } else {
        Ok(())
    }
}

// Refuses one rule more, or one number more.
fn check_room(row: &OrgRow) -> Result<(), EditFail>
    ensures passes { Passes (room_rule row.now) (λ x. HasRoom row.now) result }
    ensures cause { ended_edit result ≡ fell → ⊥ }
{
    if Limit::SharingRules.number() <= u64::from(row.sharing_rules) {
        Err(EditFail::Refused(Refusal::LimitExceeded {
            limit: Limit::SharingRules,
        }))
    } else if Limit::RuleNumbers.number() <= u64::from(row.rule_numbers) {
        Err(EditFail::Refused(Refusal::LimitExceeded {
            limit: Limit::RuleNumbers,
        }))
    } else {
        Ok(())
    }
}

/// Judges a new rule on the object with this layout, in the organisation with this row.
///
/// # Errors
///
/// `Refused` by the first rule that refuses it: on its object, its name, the texts of ids, whom they name, its formula, and what
/// there is room for. `Store` with `Keeper` if the keeper failed, `Memory` if out of memory, `Damaged` never if the organisation's
/// rows stand for a tenant.
pub(crate) fn judge_rule<K: Keeper>(
    alloc: Global,
    draft: &mut Draft<'_, K>,
    org: u32,
    layout: &Layout,
    row: &OrgRow,
    new: &NewSharingRule,
) -> Result<(), EditFail>
    ensures passes { DraftTells K.state draft.old draft.new
        → (q : OrgPlan) (t : Tenant) → StandsIn org q (tables_of K.state draft.old) (Some t) → length layout.now.fields ≤ 40
        → Passes (first_refusal (rules_by layout.now row.now t new.now)) (λ x. Unit {0}) result }
    ensures room { OnOk result (HasRoom row.now) }
    ensures calls { Calls K.state 0 (ended_edit result) draft.old draft.new }
{
    draft_laws::<K>();
    call_laws::<K>();
    let members = new.members.as_slice();
    check_object(alloc, layout)?;
    check_name(alloc, &new.name)?;
    check_free(alloc, draft, org, &new.name)?;
    check_ids(alloc, members, new)?;
    find_principals(alloc, draft, org, members, new)?;
    check_formula(alloc, layout, &new.source)?;
    check_room(row)?;
    Ok(())
}

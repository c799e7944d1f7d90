//! Whether a field may have another type.

ghost use Rattle.std.specs.Prelude.{◌≡◌, ◌≤◌, Some, length};
ghost use Rattle.store_kv.specs.Draft.{DraftTells, tables_of};
ghost use Rattle.model.specs.Retyping.{can_become, is_checkbox, job_is_done, under_way};
ghost use Rattle.model.specs.Tenant.{Tenant};
ghost use Rattle.retype_request.specs.inner.Beginning.{BeginsBy, IsPlace, column_rule, field_rule, place_in, type_rule};
ghost use Rattle.store_edit.specs.Judging.{Passes};
ghost use Rattle.retype_request.specs.inner.States.{busy_by};
ghost use Rattle.schema_rules.specs.Objects.{field_of_place};
ghost use Rattle.store_abstraction.specs.Calls.{Calls, ended_edit, fell};
ghost use Rattle.store_abstraction.specs.Layouts.{IsLayout};
ghost use Rattle.store_abstraction.specs.Local.{StandsIn};
ghost use Rattle.store_abstraction.specs.Plan.{OrgPlan};

use crate::columns::{NamedField, field_named};
use crate::rules::check_unused;
use base_value::{FieldType, Phase, Text, convertible};
use model::Refusal;
use std::alloc::Global;
use store_abstraction::{EditFail, FieldPlace, Layout, call_laws, change_row};
use store_edit::layout_there;
use store_kv::{Draft, Keeper};
use store_rows::{JobRow, StoreFail};

// The most custom fields of an object.
const MOST_FIELDS: usize = 40;

// Whether a change is done.
fn is_done(phase: Phase) -> bool
    ensures { result ≡ job_is_done phase }
{
    matches!(phase, Phase::Done)
}

// Whether there is a change that isn't done.
fn is_busy(row: &Option<JobRow>) -> bool
    ensures { result ≡ busy_by row.now }
{
    match row {
        None => false,
        Some(row) => !is_done(row.phase),
    }
}

// Refuses a change while another isn't done, whatever its object is.
fn check_idle<K: Keeper>(alloc: Global, draft: &mut Draft<'_, K>, org: u32) -> Result<(), EditFail>
    ensures passes { DraftTells K.state draft.old draft.new
        → (q : OrgPlan) (t : Tenant) → StandsIn org q (tables_of K.state draft.old) (Some t)
        → Passes (under_way t) (λ x. Unit {0}) result }
    ensures calls { Calls K.state 0 (ended_edit result) draft.old draft.new }
{
    call_laws::<K>();
    let row = change_row(alloc, draft, org)?;
    if is_busy(&row) {
        Err(EditFail::Refused(Refusal::JobBusy))
    } else {
        Ok(())
    }
}

// Whether it is the type of truth values, which can't be indexed.
fn is_checkbox(kind: &FieldType) -> bool
    ensures { result ≡ is_checkbox kind.now }
{
    matches!(kind, FieldType::Checkbox)
}

// Whether a field can have this type in place of its own.
fn can_become(to: &FieldType, field: &FieldPlace) -> bool
    ensures { result ≡ can_become to.now (field_of_place field.now) }
{
    !field.unique && convertible(&field.kind, to) && !(field.indexed && is_checkbox(to))
}

// The number of a custom field, if it can have this type in place of its own.
fn place_to_change(fields: &[FieldPlace], custom: Option<u8>, to: &FieldType) -> Option<u8>
    ensures { result ≡ place_in fields.now to.now custom }
{
    let Some(place) = custom else {
        return None;
    };
    match fields.get(usize::from(place)) {
        None => None,
        Some(field) => {
            if can_become(to, field) {
                Some(place)
            } else {
                None
            }
        }
    }
}

// Refuses a field that can't have this type in place of its own.
fn check_type(
    alloc: Global,
    layout: &Layout,
    field: &NamedField,
    to: &FieldType,
) -> Result<u8, EditFail>
    ensures passes { Passes (type_rule layout.now to.now field.now)
        (λ place. place_in layout.now.fields to.now field.now.custom ≡ Some place) result }
    ensures cause { ended_edit result ≡ fell → ⊥ }
{
    match place_to_change(layout.fields.as_slice(), field.custom, to) {
        Some(place) => Ok(place),
        None => Err(EditFail::Refused(Refusal::RetypeUnsupported {
            field: field.name.copy(alloc)?,
        })),
    }
}

// Judges a change of a field of the object with this layout, and returns the field's number.
fn judge_named<K: Keeper>(
    alloc: Global,
    draft: &mut Draft<'_, K>,
    layout: &Layout,
    field: &NamedField,
    to: &FieldType,
) -> Result<u8, EditFail>
    requires { length layout.now.fields ≤ 40 }
    ensures passes { DraftTells K.state draft.old draft.new
        → (q : OrgPlan) (t : Tenant) → StandsIn layout.now.org q (tables_of K.state draft.old) (Some t) → IsLayout q t layout.now
        → Passes (column_rule layout.now t to.now field.now)
        (λ place. place_in layout.now.fields to.now field.now.custom ≡ Some place) result }
    ensures calls { Calls K.state 0 (ended_edit result) draft.old draft.new }
{
    call_laws::<K>();
    check_idle(alloc, draft, layout.org)?;
    let place = check_type(alloc, layout, field, to)?;
    check_unused(alloc, draft, layout, place, &field.name)?;
    Ok(place)
}

// Judges a change of the field with this name, and returns the field's number.
fn judge_field<K: Keeper>(
    alloc: Global,
    draft: &mut Draft<'_, K>,
    layout: &Layout,
    name: &Text,
    to: &FieldType,
) -> Result<u8, EditFail>
    requires { length layout.now.fields ≤ 40 }
    ensures passes { DraftTells K.state draft.old draft.new
        → (q : OrgPlan) (t : Tenant) → StandsIn layout.now.org q (tables_of K.state draft.old) (Some t) → IsLayout q t layout.now
        → Passes (field_rule layout.now t to.now name.now) (IsPlace layout.now to.now name.now) result }
    ensures calls { Calls K.state 0 (ended_edit result) draft.old draft.new }
{
    call_laws::<K>();
    match field_named(alloc, layout, name)? {
        Some(field) => judge_named(alloc, draft, layout, &field, to),
        None => Err(EditFail::Refused(Refusal::InvalidField {
            name: name.copy(alloc)?,
        })),
    }
}

/// A field whose type is to be changed.
#[derive(Drop)]
pub(crate) struct Chosen {
    /// Its object's layout.
    pub layout: Layout,
    /// Its number among the custom fields.
    pub field: u8,
}

/// The field with this name of the object with this name, if it may have this type in place of its own.
///
/// # Errors
///
/// `Refused` with the first of: `InvalidType` where there is no such object, `InvalidField` where there is no such field, `JobBusy`
/// while another change isn't done, `RetypeUnsupported`, `FieldInUse`. `Store` with `Keeper` if the keeper failed, `Memory` if out
/// of memory, `Damaged` never if the organisation's rows stand for a tenant.
pub(crate) fn choose<K: Keeper>(
    alloc: Global,
    draft: &mut Draft<'_, K>,
    org: u32,
    object: &Text,
    field: &Text,
    to: &FieldType,
) -> Result<Chosen, EditFail>
    ensures begins { DraftTells K.state draft.old draft.new
        → (q : OrgPlan) (t : Tenant) → StandsIn org q (tables_of K.state draft.old) (Some t)
        → BeginsBy org q t object.now field.now to.now result }
    ensures calls { Calls K.state 0 (ended_edit result) draft.old draft.new }
{
    call_laws::<K>();
    let layout = layout_there(alloc, draft, org, object)?;
    if layout.fields.as_slice().len() > MOST_FIELDS {
        // An object has at most 40 custom fields.
        return Err(EditFail::Store(StoreFail::Damaged));
    }
    let field = judge_field(alloc, draft, &layout, field, to)?;
    Ok(Chosen { layout, field })
}

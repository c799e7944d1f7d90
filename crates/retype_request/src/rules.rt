//! The rules whose formulas name a field.

ghost use Rattle.std.specs.Prelude.{◌≡◌, ◌≤◌, IfOk, Some, length};
ghost use Rattle.std.specs.Str.{chars};
ghost use Rattle.people_rows.specs.sharing.SharingRules.{sharing_rows};
ghost use Rattle.store_kv.specs.Draft.{DraftTells, tables_of};
ghost use Rattle.model.specs.declared.refusal.Refusal.TheVariants.{FieldInUse};
ghost use Rattle.model.specs.Retyping.{uses};
ghost use Rattle.model.specs.Rules.{first_of};
ghost use Rattle.model.specs.Tenant.{Tenant};
ghost use Rattle.store_edit.specs.Judging.{Passes};
ghost use Rattle.retype_request.specs.inner.Rules.{part_uses, row_use, sharing_use, use_rule};
ghost use Rattle.schema_rules.specs.Objects.{object_of_layout};
ghost use Rattle.schema_rules.specs.Rows.{rule_rows};
ghost use Rattle.store_abstraction.specs.Calls.{Calls, ended_edit};
ghost use Rattle.store_abstraction.specs.Layouts.{IsLayout};
ghost use Rattle.store_abstraction.specs.Local.{StandsIn};
ghost use Rattle.store_abstraction.specs.Plan.{OrgPlan};

use base_grammar::ParseFail;
use base_value::{RuleSource, Text};
use model::Refusal;
use people_rows::sharing_rules_of;
use schema_rules::{names_field, read_formula, rules_of};
use std::alloc::{AllocError, Global};
use store_abstraction::{EditFail, Layout, call_laws};
use store_kv::{Draft, Keeper};
use store_rows::{SharingRow, ValidationRow};

// Whether the text of a rule spells a formula that names the custom field with this number.
fn text_uses(
    alloc: Global,
    layout: &Layout,
    criteria: bool,
    text: &str,
    place: u8,
) -> Result<bool, AllocError>
    requires { length layout.now.fields ≤ 40 }
    ensures { IfOk result (λ b. b ≡ uses (object_of_layout layout.now) criteria place (chars text.now)) }
{
    match read_formula(alloc, layout, criteria, text) {
        Ok(formula) => names_field(alloc, &formula, place),
        Err(ParseFail::Malformed(_)) => Ok(false),
        Err(ParseFail::Memory) => Err(AllocError),
    }
}

// That a rule names a field.
fn field_in_use(alloc: Global, field: &Text, rule: &Text) -> Result<Refusal, AllocError>
    ensures { IfOk result (λ refusal. refusal ≡ FieldInUse field.now rule.now) }
{
    let field = field.copy(alloc)?;
    Ok(Refusal::FieldInUse {
        field,
        rule: rule.copy(alloc)?,
    })
}

// The refusal of a validation rule, if it names the field.
fn rule_use(
    alloc: Global,
    layout: &Layout,
    rule: &ValidationRow,
    place: u8,
    field: &Text,
) -> Result<Option<Refusal>, AllocError>
    requires { length layout.now.fields ≤ 40 }
    ensures { IfOk result (λ refusal. refusal ≡ row_use (object_of_layout layout.now) place field.now rule.now) }
{
    if text_uses(alloc, layout, false, rule.formula.as_str(), place)? {
        Ok(Some(field_in_use(alloc, field, &rule.name)?))
    } else {
        Ok(None)
    }
}

// The refusal of the first of these rules that names the field.
fn first_rule_use(
    alloc: Global,
    layout: &Layout,
    rules: &[ValidationRow],
    place: u8,
    field: &Text,
) -> Result<Option<Refusal>, AllocError>
    requires { length layout.now.fields ≤ 40 }
    ensures { IfOk result (λ refusal. refusal ≡ first_of (row_use (object_of_layout layout.now) place field.now) rules.now) }
{
    let Some((rule, rules)) = rules.split_first() else {
        return Ok(None);
    };
    match rule_use(alloc, layout, rule, place, field) {
        Ok(None) => first_rule_use(alloc, layout, rules, place, field),
        used => used,
    }
}

// Whether the formula of a criteria rule names the field.
fn source_uses(
    alloc: Global,
    layout: &Layout,
    source: &RuleSource,
    place: u8,
) -> Result<bool, AllocError>
    requires { length layout.now.fields ≤ 40 }
    ensures { IfOk result (λ b. b ≡ part_uses (object_of_layout layout.now) place source.now) }
{
    match source {
        RuleSource::Owner(_) => Ok(false),
        RuleSource::Criteria(text) => text_uses(alloc, layout, true, text.as_str(), place),
    }
}

// The refusal of a sharing rule, if it is of the object and names the field.
fn sharing_use(
    alloc: Global,
    layout: &Layout,
    rule: &SharingRow,
    place: u8,
    field: &Text,
) -> Result<Option<Refusal>, AllocError>
    requires { length layout.now.fields ≤ 40 }
    ensures { IfOk result (λ refusal. refusal ≡ sharing_use layout.now place field.now rule.now) }
{
    let is_used = source_uses(alloc, layout, &rule.source, place)?;
    if rule.object == layout.object && is_used {
        Ok(Some(field_in_use(alloc, field, &rule.name)?))
    } else {
        Ok(None)
    }
}

// The refusal of the first of these rules that names the field.
fn first_sharing_use(
    alloc: Global,
    layout: &Layout,
    rules: &[SharingRow],
    place: u8,
    field: &Text,
) -> Result<Option<Refusal>, AllocError>
    requires { length layout.now.fields ≤ 40 }
    ensures { IfOk result (λ refusal. refusal ≡ first_of (sharing_use layout.now place field.now) rules.now) }
{
    let Some((rule, rules)) = rules.split_first() else {
        return Ok(None);
    };
    match sharing_use(alloc, layout, rule, place, field) {
        Ok(None) => first_sharing_use(alloc, layout, rules, place, field),
        used => used,
    }
}

// Refuses a field that a validation rule of its object names.
fn check_rules<K: Keeper>(
    alloc: Global,
    draft: &mut Draft<'_, K>,
    layout: &Layout,
    place: u8,
    field: &Text,
) -> Result<(), EditFail>
    requires { length layout.now.fields ≤ 40 }
    ensures passes { DraftTells K.state draft.old draft.new
        → (q : OrgPlan) (t : Tenant) → StandsIn layout.now.org q (tables_of K.state draft.old) (Some t) → IsLayout q t layout.now
        → Passes (first_of (row_use (object_of_layout layout.now) place field.now) (rule_rows layout.now.org layout.now.object t))
        (λ x. Unit {0}) result }
    ensures calls { Calls K.state 0 (ended_edit result) draft.old draft.new }
{
    call_laws::<K>();
    let rules = rules_of(alloc, draft, layout)?;
    match first_rule_use(alloc, layout, rules.as_slice(), place, field)? {
        None => Ok(()),
        Some(refusal) => Err(EditFail::Refused(refusal)),
    }
}

// Refuses a field that a criteria rule of its object names.
fn check_sharing<K: Keeper>(
    alloc: Global,
    draft: &mut Draft<'_, K>,
    layout: &Layout,
    place: u8,
    field: &Text,
) -> Result<(), EditFail>
    requires { length layout.now.fields ≤ 40 }
    ensures passes { DraftTells K.state draft.old draft.new
        → (q : OrgPlan) (t : Tenant) → StandsIn layout.now.org q (tables_of K.state draft.old) (Some t)
        → Passes (first_of (sharing_use layout.now place field.now) (sharing_rows layout.now.org (Some t))) (λ x. Unit {0}) result }
    ensures calls { Calls K.state 0 (ended_edit result) draft.old draft.new }
{
    call_laws::<K>();
    let rules = sharing_rules_of(alloc, draft, layout.org)?;
    match first_sharing_use(alloc, layout, rules.as_slice(), place, field)? {
        None => Ok(()),
        Some(refusal) => Err(EditFail::Refused(refusal)),
    }
}

/// Refuses a custom field, with this number and this name, that a rule names: by the first validation rule of its object, and else
/// by the first sharing rule on the object, each in the order of lower-case names.
///
/// # Errors
///
/// `Refused` with `FieldInUse`. `Store` with `Keeper` if the keeper failed, `Memory` if out of memory, `Damaged` never if the
/// organisation's rows stand for a tenant whose layout it is.
pub(crate) fn check_unused<K: Keeper>(
    alloc: Global,
    draft: &mut Draft<'_, K>,
    layout: &Layout,
    place: u8,
    field: &Text,
) -> Result<(), EditFail>
    requires { length layout.now.fields ≤ 40 }
    ensures passes { DraftTells K.state draft.old draft.new
        → (q : OrgPlan) (t : Tenant) → StandsIn layout.now.org q (tables_of K.state draft.old) (Some t) → IsLayout q t layout.now
        → Passes (use_rule layout.now t place field.now) (λ x. Unit {0}) result }
    ensures calls { Calls K.state 0 (ended_edit result) draft.old draft.new }
{
    call_laws::<K>();
    check_rules(alloc, draft, layout, place, field)?;
    check_sharing(alloc, draft, layout, place, field)
}

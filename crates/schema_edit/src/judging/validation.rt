//! New validation rules.

ghost use Rattle.std.specs.Prelude.{◌≡◌, ◌∷◌, [], ◌≢◌, ◌≤◌, IfErr, IfOk, Ok, false, length};
ghost use Rattle.std.specs.Str.{chars};
ghost use Rattle.store_rows.specs.declared.fail.StoreFail.TheVariants.{Keeper, Memory};
ghost use Rattle.schema_edit.specs.inner.RuleReads.{IsRuled};
ghost use Rattle.schema_edit.specs.inner.RuleRows.{busy_by};
ghost use Rattle.model.specs.Names.{bad_name, is_stem};
ghost use Rattle.model.specs.Objects.{Numbered};
ghost use Rattle.model.specs.RuleFormulas.{formula_of, is_copy, malformed};
ghost use Rattle.model.specs.Rules.{first_refusal, refuse_if};
ghost use Rattle.model.specs.declared.refusal.Refusal.TheVariants.{NameTaken};
ghost use Rattle.model.specs.Tenant.{Tenant};
ghost use Rattle.model.specs.ValidationRules.{new_validation_rule_rules};
ghost use Rattle.schema_rules.specs.Objects.{object_of_layout};

use crate::rules::{bad_name, name_taken};
use base_grammar::ParseFail;
use base_value::Phase;
use formula::Formula;
use model::{Limit, NewValidationRule, Refusal, is_stem};
use schema_rules::{names_field, read_formula};
use std::alloc::{AllocError, Global};
use store_abstraction::{JobPlace, Layout};
use store_edit::over_limit;
use store_rows::StoreFail;

// The most custom fields of an object.
const MOST_FIELDS: usize = 40;

// Why the name of a new rule is refused, if it is.
fn bad_rule_name(
    alloc: Global,
    is_taken: bool,
    new: &NewValidationRule,
) -> Result<Option<Refusal>, AllocError>
    ensures { IfOk result (λ rule. rule ≡ first_refusal (bad_name is_stem new.now.name ∷ refuse_if is_taken (NameTaken new.now.name) ∷ [])) }
{
    let is_good = is_stem(new.name.as_str());
    if let Some(refusal) = bad_name(alloc, is_good, &new.name)? {
        return Ok(Some(refusal));
    }
    name_taken(alloc, is_taken, &new.name)
}

// Whether values are being copied.
fn is_copy(phase: Phase) -> bool
    ensures { result ≡ is_copy phase }
{
    matches!(phase, Phase::Copy)
}

// That a formula names the field of a change of the object that copies.
fn busy(
    alloc: Global,
    job: &Option<JobPlace>,
    formula: &Formula,
) -> Result<Option<Refusal>, AllocError>
    ensures { IfOk result (λ rule. rule ≡ busy_by job.now (Ok formula.now)) }
{
    match job {
        None => Ok(None),
        Some(job) => {
            let is_named = names_field(alloc, formula, job.field)?;
            if is_copy(job.phase) && is_named {
                Ok(Some(Refusal::JobBusy))
            } else {
                Ok(None)
            }
        }
    }
}

// Why the formula of a new rule is refused, if it is.
fn bad_formula(alloc: Global, layout: &Layout, text: &str) -> Result<Option<Refusal>, AllocError>
    requires { length layout.now.fields ≤ 40 }
    ensures { IfOk result (λ rule. rule ≡ first_refusal (malformed (formula_of (object_of_layout layout.now) false (chars text.now))
        ∷ busy_by layout.now.job (formula_of (object_of_layout layout.now) false (chars text.now)) ∷ [])) }
{
    match read_formula(alloc, layout, false, text) {
        Ok(formula) => busy(alloc, &layout.job, &formula),
        Err(ParseFail::Malformed(place)) => Ok(Some(Refusal::MalformedFormula { place })),
        Err(ParseFail::Memory) => Err(AllocError),
    }
}

/// Why a new validation rule is refused, if it is: by the layout of its object, by whether a rule of the object has its name, and
/// by how many rules the object has.
///
/// # Errors
///
/// `Damaged` if the layout has more fields than an object may have, `Memory` if out of memory.
pub(crate) fn judge_rule(
    alloc: Global,
    layout: &Layout,
    is_taken: bool,
    rules: u8,
    new: &NewValidationRule,
) -> Result<Option<Refusal>, StoreFail>
    ensures judged { (t : Tenant) (o : Numbered) → IsRuled t o layout.now is_taken rules new.now.name
        → IfOk result (λ rule. rule ≡ first_refusal (new_validation_rule_rules t o new.now)) }
    ensures damaged { length layout.now.fields ≤ 40 → IfErr result (λ e. e ≡ Memory) }
    ensures cause { IfErr result (λ e. e ≢ Keeper) }
{
    if layout.fields.as_slice().len() > MOST_FIELDS {
        return Err(StoreFail::Damaged);
    }
    if let Some(refusal) = bad_rule_name(alloc, is_taken, new)? {
        return Ok(Some(refusal));
    }
    if let Some(refusal) = bad_formula(alloc, layout, new.formula.as_str())? {
        return Ok(Some(refusal));
    }
    Ok(over_limit(Limit::ValidationRulesPerObject, u64::from(rules) + 1))
}

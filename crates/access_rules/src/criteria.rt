//! The formula of a new criteria rule.

ghost use Rattle.std.specs.Prelude.{◌≡◌, ◌≤◌, ◌∷◌, [], IfOk, Ok, length, true};
ghost use Rattle.model.specs.RuleFormulas.{formula_of, is_copy, malformed};
ghost use Rattle.model.specs.Rules.{first_refusal};
ghost use Rattle.schema_rules.specs.Objects.{object_of_layout};
ghost use Rattle.access_rules.specs.inner.Adding.{busy_by, formula_rule};
ghost use Rattle.store_edit.specs.Judging.{Passes};
ghost use Rattle.store_abstraction.specs.Calls.{ended_edit, fell};

use base_grammar::ParseFail;
use base_value::{Phase, Text};
use formula::Formula;
use model::{Refusal, SpelledSource};
use schema_rules::{names_field, read_formula};
use std::alloc::{AllocError, Global};
use store_abstraction::{EditFail, JobPlace, Layout};
use store_rows::StoreFail;

// The most custom fields of an object.
const MOST_FIELDS: usize = 40;

// Whether values are being copied.
fn is_copy(phase: Phase) -> bool
    ensures { result ≡ is_copy phase }
{
    matches!(phase, Phase::Copy)
}

// That a formula names the field of a change of the object that copies.
fn busy(
    alloc: Global,
    job: &Option<JobPlace>,
    formula: &Formula,
) -> Result<Option<Refusal>, AllocError>
    ensures { IfOk result (λ rule. rule ≡ busy_by job.now (Ok formula.now)) }
{
    match job {
        None => Ok(None),
        Some(job) => {
            let is_named = names_field(alloc, formula, job.field)?;
            if is_copy(job.phase) && is_named {
                Ok(Some(Refusal::JobBusy))
            } else {
                Ok(None)
            }
        }
    }
}

// Refuses a formula that names the field of a change of the object that copies.
fn check_idle(alloc: Global, job: &Option<JobPlace>, formula: &Formula) -> Result<(), EditFail>
    ensures passes { Passes (busy_by job.now (Ok formula.now)) (λ x. Unit {0}) result }
    ensures cause { ended_edit result ≡ fell → ⊥ }
{
    match busy(alloc, job, formula)? {
        None => Ok(()),
        Some(refusal) => Err(EditFail::Refused(refusal)),
    }
}

// Refuses a text that spells no formula over the object of a layout, and one that names such a field.
fn check_text(alloc: Global, layout: &Layout, text: &Text) -> Result<(), EditFail>
    ensures passes { length layout.now.fields ≤ 40
        → Passes (first_refusal (malformed (formula_of (object_of_layout layout.now) true text.now)
        ∷ busy_by layout.now.job (formula_of (object_of_layout layout.now) true text.now) ∷ [])) (λ x. Unit {0}) result }
    ensures cause { ended_edit result ≡ fell → ⊥ }
{
    if layout.fields.as_slice().len() > MOST_FIELDS {
        return Err(EditFail::Store(StoreFail::Damaged));
    }
    match read_formula(alloc, layout, true, text.as_str()) {
        Ok(formula) => check_idle(alloc, &layout.job, &formula),
        Err(ParseFail::Malformed(place)) => {
            Err(EditFail::Refused(Refusal::MalformedFormula { place }))
        }
        Err(ParseFail::Memory) => Err(EditFail::Store(StoreFail::Memory)),
    }
}

/// Refuses a criteria rule on an object whose text spells no formula over the fields of its layout, or one that names the field of
/// a change that copies.
///
/// # Errors
///
/// `Refused` with `MalformedFormula` or `JobBusy`. `Store` with `Memory` if out of memory, `Damaged` if the layout has more fields
/// than an object may have.
pub(crate) fn check_formula(
    alloc: Global,
    layout: &Layout,
    source: &SpelledSource,
) -> Result<(), EditFail>
    ensures passes { length layout.now.fields ≤ 40 → Passes (formula_rule layout.now source.now) (λ x. Unit {0}) result }
    ensures cause { ended_edit result ≡ fell → ⊥ }
{
    match source {
        SpelledSource::Owner(_) => Ok(()),
        SpelledSource::Criteria(text) => check_text(alloc, layout, text),
    }
}

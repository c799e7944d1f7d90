//! New validation rules.

ghost use Rattle.std.specs.Prelude.{◌<◌, ◌≡◌, ◌≢◌, IfErr, IfOk, IsTrue};
ghost use Rattle.store_edit.specs.Rows.{AreSpelled};
ghost use Rattle.store_kv.specs.Draft.{DraftTells, tables_of};
ghost use Rattle.store_rows.specs.declared.fail.StoreFail.TheVariants.{Keeper, Memory};
ghost use Rattle.store_rows.specs.Forms.{FitsForm};
ghost use Rattle.store_rows.specs.Rows.{object_form};
ghost use Rattle.schema_edit.specs.inner.RuleReads.{AcceptsRow};
ghost use Rattle.schema_edit.specs.inner.RuleRows.{FitRuleRows, IsSpelledRule, changes_of, rows_by};
ghost use Rattle.model.specs.Tenant.{Tenant};
ghost use Rattle.model.specs.ValidationRules.{add_validation_rule};
ghost use Rattle.model.specs.Verdict.{done};
ghost use Rattle.model_invariant.specs.Fit.{is_fit_validation};
ghost use Rattle.store_abstraction.specs.Calls.{Calls, ended_edit};
ghost use Rattle.store_abstraction.specs.Fails.{of_store};
ghost use Rattle.store_abstraction.specs.Local.{StandsIn};
ghost use Rattle.store_abstraction.specs.Plan.{OrgPlan};

use crate::edits::copies::copy_of_text;
use crate::edits::reading::{lower_bytes, read_object};
use crate::judging::judge_rule;
use model::NewValidationRule;
use model_invariant::objects_sound;
use std::alloc::Global;
use store_abstraction::{EditFail, call_laws, metadata_laws, slot_laws};
use store_edit::{Decided, Edit, put_row};
use store_kv::{Draft, Keeper};
use store_rows::{ObjectRow, StoreFail, ValidationRow};

// The rows that a new validation rule changes.
#[derive(Drop)]
struct NewRuleRows {
    // The object's, with one rule more.
    object: ObjectRow,
    rule: ValidationRow,
}

// The row of the object that is to have the rule, if the rule isn't refused.
fn object_to_rule<K: Keeper>(
    alloc: Global,
    draft: &mut Draft<'_, K>,
    org: u32,
    new: &NewValidationRule,
) -> Result<ObjectRow, EditFail>
    ensures accepts { DraftTells K.state draft.old draft.new
        → (q : OrgPlan) (t : Tenant) → StandsIn org q (tables_of K.state draft.old) (Some t)
        → AcceptsRow org t new.now.object (add_validation_rule t new.now) result }
    ensures own { DraftTells K.state draft.old draft.new → IfOk result (λ row. row.org ≡ org) }
    ensures fits { IfOk result (FitsForm object_form) }
    ensures calls { Calls K.state 0 (ended_edit result) draft.old draft.new }
{
    call_laws::<K>();
    let object = read_object(alloc, draft, org, &new.object, &new.name)?;
    let rules = object.row.validation_rules;
    match judge_rule(alloc, &object.layout, object.has_rule, rules, new)? {
        None => Ok(object.row),
        Some(refusal) => Err(EditFail::Refused(refusal)),
    }
}

// The rows of a new rule of the object with this row.
fn rows_of(
    alloc: Global,
    object: ObjectRow,
    new: &NewValidationRule,
) -> Result<NewRuleRows, StoreFail>
    requires { FitsForm object_form object }
    ensures same { IfOk result (λ rows. rows ≡ rows_by object new.now) }
    ensures fits { IfOk result FitRuleRows }
    ensures damaged { IsSpelledRule new.now → object.validation_rules < 255 → IfErr result (λ e. e ≡ Memory) }
    ensures cause { IfErr result (λ e. e ≢ Keeper) }
{
    let Some(count) = object.validation_rules.checked_add(1) else {
        // An object has at most 50 rules.
        return Err(StoreFail::Damaged);
    };
    let lower_name = lower_bytes(alloc, new.name.as_str())?;
    let name = copy_of_text(alloc, &new.name)?;
    let formula = copy_of_text(alloc, &new.formula)?;
    let message = copy_of_text(alloc, &new.message)?;
    let mut object = object;
    object.validation_rules = count;
    let rule = ValidationRow {
        org: object.org,
        object: object.object,
        lower_name,
        name,
        formula,
        message,
    };
    Ok(NewRuleRows { object, rule })
}

// The edit, decided: it puts the rows of a new rule.
fn decided(alloc: Global, rows: &NewRuleRows) -> Result<Decided<()>, EditFail>
    requires { FitRuleRows rows.now }
    ensures made { IfOk result (λ x. AreSpelled (changes_of rows.now) x.changes.items) }
    ensures cause { IfErr result (λ e. e ≡ of_store Memory) }
{
    let mut changes = Vec::new(alloc);
    put_row(alloc, &mut changes, &rows.object)?;
    put_row(alloc, &mut changes, &rows.rule)?;
    Ok(Decided {
        answer: (),
        changes,
    })
}

/// Adds a validation rule to an object: from then on a record of which its formula holds is refused.
///
/// It is refused with the refusal of the first rule that refuses it: by its object, its name, its formula and the number of the
/// object's rules.
#[derive(Drop)]
pub struct AddValidationRule<'a> {
    pub new: &'a NewValidationRule,
}

impl Edit for AddValidationRule<'_> {
    type Answer = ();

    ghost verdict = { λ e a. add_validation_rule a.tenant e.new.now };

    ghost answered = { λ _. done };

    ghost planned = { λ e q t next. next ≡ q };

    ghost fits = { λ e a. IsTrue (is_fit_validation e.new.now) };

    ghost most = { 2 };

    ghost gone = { 0 };

    ghost shown = { 0 };

    fn judge<K: Keeper>(
        &self,
        alloc: Global,
        draft: &mut Draft<'_, K>,
        org: u32,
    ) -> Result<Decided<()>, EditFail> {
        call_laws::<K>();
        metadata_laws();
        slot_laws();
        objects_sound();
        let row = object_to_rule(alloc, draft, org, self.new)?;
        let rows = rows_of(alloc, row, self.new)?;
        decided(alloc, &rows)
    }
}

//! New sharing rules.

ghost use Rattle.std.specs.Prelude.{◌≡◌, ◌≢◌, IfErr, IfOk, IsTrue, Some};
ghost use Rattle.std.specs.Str.{IsUtf8};
ghost use Rattle.store_edit.specs.Rows.{AreSpelled};
ghost use Rattle.store_kv.specs.Draft.{DraftTells, tables_of};
ghost use Rattle.store_rows.specs.declared.fail.StoreFail.TheVariants.{Keeper, Memory};
ghost use Rattle.store_rows.specs.Forms.{FitsForm};
ghost use Rattle.store_rows.specs.Rows.{org_form, sharing_form};
ghost use Rattle.model.specs.SharingRules.{add_sharing_rule};
ghost use Rattle.model.specs.Tenant.{Tenant};
ghost use Rattle.model.specs.Verdict.{done};
ghost use Rattle.access_rules.specs.inner.Adding.{AddsTo, FitNewRows, HasRoom, IsSpelledRule, changes_of, rows_by};
ghost use Rattle.model_invariant.specs.Fit.{is_fit_rule};
ghost use Rattle.store_abstraction.specs.Calls.{Calls, ended_edit};
ghost use Rattle.store_abstraction.specs.Fails.{of_store};
ghost use Rattle.store_abstraction.specs.Local.{StandsIn};
ghost use Rattle.store_abstraction.specs.Metadata.{lower_bytes};
ghost use Rattle.store_abstraction.specs.Plan.{OrgPlan};

use crate::judging::judge_rule;
use crate::keys::key_of;
use crate::laws::sharing_laws;
use crate::spelled::{copy_of_text, is_grant, principal_in, source_in};
use base_value::RuleState;
use model::NewSharingRule;
use model_invariant::sharing_sound;
use people_rows::roster_laws;
use std::alloc::Global;
use store_abstraction::{EditFail, call_laws, org_there};
use store_edit::{Decided, Edit, layout_there, put_row};
use store_kv::{Draft, Keeper};
use store_rows::{OrgRow, SharingRow, StoreFail};

// The rows that a new rule changes.
#[derive(Drop)]
struct NewRows {
    // The organisation's, with one rule more and one number more.
    row: OrgRow,
    rule: SharingRow,
}

// The row of a new rule on the object with this number.
fn rule_of(
    alloc: Global,
    row: &OrgRow,
    object: u16,
    new: &NewSharingRule,
) -> Result<SharingRow, StoreFail>
    requires fits { FitsForm org_form row.now }
    requires room { HasRoom row.now }
    ensures same { IfOk result (λ rule. rule ≡ (rows_by row.now object new.now).rule) }
    ensures fits { IfOk result (FitsForm sharing_form) }
    ensures utf8 { IfOk result (λ rule. IsUtf8 (lower_bytes new.now.name)) }
    ensures damaged { IsSpelledRule new.now → IfErr result (λ e. e ≡ Memory) }
    ensures cause { IfErr result (λ e. e ≢ Keeper) }
{
    if !is_grant(new.level) {
        return Err(StoreFail::Damaged);
    }
    let Some(to) = principal_in(&new.to) else {
        return Err(StoreFail::Damaged);
    };
    let source = source_in(alloc, &new.source)?;
    let name = copy_of_text(alloc, &new.name)?;
    let (org, (_, lower_name)) = key_of(alloc, row.org, &new.name)?;
    Ok(SharingRow {
        org,
        lower_name,
        name,
        object,
        number: row.rule_numbers + 1,
        source,
        to,
        level: new.level,
        state: RuleState::Whole,
        cursor: None,
    })
}

// The rows of a new rule on the object with this number, in the organisation with this row.
fn rows_of(
    alloc: Global,
    row: OrgRow,
    object: u16,
    new: &NewSharingRule,
) -> Result<NewRows, StoreFail>
    requires fits { FitsForm org_form row }
    requires room { HasRoom row }
    ensures same { IfOk result (λ rows. rows ≡ rows_by row object new.now) }
    ensures fits { IfOk result (FitNewRows new.now.name) }
    ensures damaged { IsSpelledRule new.now → IfErr result (λ e. e ≡ Memory) }
    ensures cause { IfErr result (λ e. e ≢ Keeper) }
{
    let rule = rule_of(alloc, &row, object, new)?;
    Ok(NewRows {
        row: OrgRow {
            sharing_rules: row.sharing_rules + 1,
            rule_numbers: row.rule_numbers + 1,
            ..row
        },
        rule,
    })
}

// The rows of a new rule, unless it is refused.
fn rows_to_add<K: Keeper>(
    alloc: Global,
    draft: &mut Draft<'_, K>,
    org: u32,
    new: &NewSharingRule,
) -> Result<NewRows, EditFail>
    ensures adds { DraftTells K.state draft.old draft.new
        → (q : OrgPlan) (t : Tenant) → StandsIn org q (tables_of K.state draft.old) (Some t) → IsTrue (is_fit_rule new.now)
        → AddsTo org t new.now result }
    ensures own { DraftTells K.state draft.old draft.new → IfOk result (λ rows. (rows.row.org ≡ org) × (rows.rule.org ≡ org)) }
    ensures fits { IfOk result (FitNewRows new.now.name) }
    ensures calls { Calls K.state 0 (ended_edit result) draft.old draft.new }
{
    call_laws::<K>();
    let layout = layout_there(alloc, draft, org, &new.object)?;
    let row = org_there(alloc, draft, org)?;
    judge_rule(alloc, draft, org, &layout, &row, new)?;
    let rows = rows_of(alloc, row, layout.object, new)?;
    Ok(rows)
}

// The edit, decided: it puts the rows of a new rule.
fn decided(alloc: Global, rows: &NewRows) -> Result<Decided<()>, EditFail>
    requires row { FitsForm org_form rows.now.row }
    requires rule { FitsForm sharing_form rows.now.rule }
    ensures made { IfOk result (λ x. AreSpelled (changes_of rows.now) x.changes.items) }
    ensures cause { IfErr result (λ e. e ≡ of_store Memory) }
{
    let mut changes = Vec::new(alloc);
    put_row(alloc, &mut changes, &rows.row)?;
    put_row(alloc, &mut changes, &rows.rule)?;
    Ok(Decided {
        answer: (),
        changes,
    })
}

/// Adds a sharing rule to an object that is no detail: from then on it gives whom it names its level on the records that it covers.
///
/// It is refused with the refusal of the first rule that refuses it: by its object, its name, the texts of ids, whom they name, its
/// formula, and how many rules there are and were.
#[derive(Drop)]
pub struct AddSharingRule<'a> {
    pub new: &'a NewSharingRule,
}

impl Edit for AddSharingRule<'_> {
    type Answer = ();

    ghost verdict = { λ e a. add_sharing_rule a.tenant e.new.now };

    ghost answered = { λ _. done };

    ghost planned = { λ e q t next. next ≡ q };

    ghost fits = { λ e a. IsTrue (is_fit_rule e.new.now) };

    ghost most = { 2 };

    ghost gone = { 0 };

    ghost shown = { 0 };

    fn judge<K: Keeper>(
        &self,
        alloc: Global,
        draft: &mut Draft<'_, K>,
        org: u32,
    ) -> Result<Decided<()>, EditFail> {
        call_laws::<K>();
        sharing_laws();
        roster_laws();
        sharing_sound();
        let rows = rows_to_add(alloc, draft, org, self.new)?;
        decided(alloc, &rows)
    }
}

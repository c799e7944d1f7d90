//! The end of a sharing rule.

ghost use Rattle.std.specs.Prelude.{◌≡◌, IfErr, IfOk, Some};
ghost use Rattle.store_edit.specs.Rows.{AreSpelled};
ghost use Rattle.store_kv.specs.Draft.{DraftTells, tables_of};
ghost use Rattle.store_rows.specs.declared.fail.StoreFail.TheVariants.{Memory};
ghost use Rattle.store_rows.specs.Forms.{FitsForm};
ghost use Rattle.store_rows.specs.Rows.{org_form, sharing_form};
ghost use Rattle.model.specs.SharingRules.{remove_sharing_rule};
ghost use Rattle.model.specs.Tenant.{Tenant};
ghost use Rattle.model.specs.Verdict.{done};
ghost use Rattle.store_codec.specs.Shapes.{FitsIn};
ghost use Rattle.store_edit.specs.Judging.{Passes};
ghost use Rattle.access_rules.specs.inner.Removing.{FitsRemaining, IsRemaining, changes_of, no_such_rule};
ghost use Rattle.store_abstraction.specs.Calls.{Calls, ended_edit};
ghost use Rattle.store_abstraction.specs.Fails.{of_store};
ghost use Rattle.store_abstraction.specs.Local.{StandsIn};
ghost use Rattle.store_abstraction.specs.Plan.{OrgPlan};

use crate::keys::{RuleKey, key_of, rule_at};
use crate::laws::sharing_laws;
use base_value::Text;
use model::Refusal;
use model_invariant::sharing_sound;
use people_rows::roster_laws;
use std::alloc::Global;
use store_abstraction::{EditFail, call_laws, org_there};
use store_edit::{Decided, Edit, put_row, remove_row};
use store_kv::{Draft, Keeper};
use store_rows::{OrgRow, SharingRow, StoreFail};

// What is left without a rule.
#[derive(Drop)]
struct Remaining {
    // The organisation's row, with one rule less.
    row: OrgRow,
    // The key of the rule's row.
    key: RuleKey,
}

// What is left without the rule with this name, unless there is none.
fn rows_without<K: Keeper>(
    alloc: Global,
    draft: &mut Draft<'_, K>,
    org: u32,
    name: &Text,
) -> Result<Remaining, EditFail>
    ensures passes { DraftTells K.state draft.old draft.new
        → (q : OrgPlan) (t : Tenant) → StandsIn org q (tables_of K.state draft.old) (Some t)
        → Passes (no_such_rule t name.now) (IsRemaining org t name.now) result }
    ensures own { DraftTells K.state draft.old draft.new → IfOk result (λ x. x.row.org ≡ org) }
    ensures fits { IfOk result (FitsRemaining org name.now) }
    ensures calls { Calls K.state 0 (ended_edit result) draft.old draft.new }
{
    call_laws::<K>();
    sharing_laws();
    let key = key_of(alloc, org, name)?;
    if rule_at(alloc, draft, &key)?.is_none() {
        return Err(EditFail::Refused(Refusal::NotFound));
    }
    let row = org_there(alloc, draft, org)?;
    let Some(sharing_rules) = row.sharing_rules.checked_sub(1) else {
        // An organisation with a rule counts it.
        return Err(EditFail::Store(StoreFail::Damaged));
    };
    Ok(Remaining {
        row: OrgRow {
            sharing_rules,
            ..row
        },
        key,
    })
}

// The edit, decided: it puts the organisation's row, and removes the rule's.
fn decided(alloc: Global, left: &Remaining) -> Result<Decided<()>, EditFail>
    requires row { FitsForm org_form left.now.row }
    requires key { FitsIn sharing_form.key left.now.key }
    ensures made { IfOk result (λ x. AreSpelled (changes_of left.now) x.changes.items) }
    ensures cause { IfErr result (λ e. e ≡ of_store Memory) }
{
    let mut changes = Vec::new(alloc);
    put_row(alloc, &mut changes, &left.row)?;
    remove_row::<SharingRow>(alloc, &mut changes, &left.key)?;
    Ok(Decided {
        answer: (),
        changes,
    })
}

/// Removes the sharing rule with this name, whatever the case of its letters.
///
/// It is refused if there is none.
#[derive(Drop)]
pub struct RemoveSharingRule<'a> {
    pub name: &'a Text,
}

impl Edit for RemoveSharingRule<'_> {
    type Answer = ();

    ghost verdict = { λ e a. remove_sharing_rule a.tenant e.name.now };

    ghost answered = { λ _. done };

    ghost planned = { λ e q t next. next ≡ q };

    ghost fits = { λ e a. Unit {0} };

    ghost most = { 2 };

    ghost gone = { 0 };

    ghost shown = { 0 };

    fn judge<K: Keeper>(
        &self,
        alloc: Global,
        draft: &mut Draft<'_, K>,
        org: u32,
    ) -> Result<Decided<()>, EditFail> {
        call_laws::<K>();
        sharing_laws();
        roster_laws();
        sharing_sound();
        let left = rows_without(alloc, draft, org, self.name)?;
        decided(alloc, &left)
    }
}

//! The end of a validation rule.

ghost use Rattle.std.specs.Prelude.{◌<◌, ◌≡◌, ◌≢◌, IfErr, IfOk};
ghost use Rattle.store_edit.specs.Rows.{AreSpelled};
ghost use Rattle.store_kv.specs.Draft.{DraftTells, tables_of};
ghost use Rattle.store_rows.specs.declared.fail.StoreFail.TheVariants.{Keeper, Memory};
ghost use Rattle.store_rows.specs.Forms.{FitsForm};
ghost use Rattle.store_rows.specs.Rows.{object_form, validation_form};
ghost use Rattle.schema_edit.specs.inner.RuleReads.{AcceptsRow};
ghost use Rattle.schema_edit.specs.inner.RuleRemovals.{FitsRemoval, changes_of, removal_by};
ghost use Rattle.model.specs.Tenant.{Tenant};
ghost use Rattle.model.specs.ValidationRules.{remove_validation_rule};
ghost use Rattle.model.specs.Verdict.{done};
ghost use Rattle.store_codec.specs.Shapes.{FitsIn};
ghost use Rattle.store_abstraction.specs.Calls.{Calls, ended_edit};
ghost use Rattle.store_abstraction.specs.Fails.{of_store};
ghost use Rattle.store_abstraction.specs.Local.{StandsIn};
ghost use Rattle.store_abstraction.specs.Plan.{OrgPlan};

use crate::edits::reading::{lower_bytes, read_object};
use base_value::{Bytes, Text};
use model::Refusal;
use model_invariant::objects_sound;
use std::alloc::Global;
use store_abstraction::{EditFail, call_laws, metadata_laws, slot_laws};
use store_edit::{Decided, Edit, put_row, remove_row};
use store_kv::{Draft, Keeper};
use store_rows::{Mark, ObjectRow, StoreFail, ValidationRow};

// What the removal of a rule changes.
#[derive(Drop)]
struct RuleRemoval {
    // The object's row, with one rule less.
    object: ObjectRow,
    // The key of the rule's row: the numbers of the organisation and the object, and the rule's name in lower case.
    key: (u32, (Mark<0>, (u16, Bytes))),
}

// The row of the object with the first name, if one of its rules has the second.
fn object_with_rule<K: Keeper>(
    alloc: Global,
    draft: &mut Draft<'_, K>,
    org: u32,
    object: &Text,
    name: &Text,
) -> Result<ObjectRow, EditFail>
    ensures accepts { DraftTells K.state draft.old draft.new
        → (q : OrgPlan) (t : Tenant) → StandsIn org q (tables_of K.state draft.old) (Some t)
        → AcceptsRow org t object.now (remove_validation_rule t object.now name.now) result }
    ensures own { DraftTells K.state draft.old draft.new → IfOk result (λ row. row.org ≡ org) }
    ensures fits { IfOk result (FitsForm object_form) }
    ensures calls { Calls K.state 0 (ended_edit result) draft.old draft.new }
{
    call_laws::<K>();
    let read = read_object(alloc, draft, org, object, name)?;
    if !read.has_rule {
        return Err(EditFail::Refused(Refusal::NotFound));
    }
    Ok(read.row)
}

// What the removal of the rule with this name changes, by the row of its object.
fn removal_of(alloc: Global, object: ObjectRow, name: &Text) -> Result<RuleRemoval, StoreFail>
    requires { FitsForm object_form object }
    ensures same { IfOk result (λ removal. removal ≡ removal_by object name.now) }
    ensures fits { IfOk result FitsRemoval }
    ensures damaged { 0 < object.validation_rules → IfErr result (λ e. e ≡ Memory) }
    ensures cause { IfErr result (λ e. e ≢ Keeper) }
{
    let Some(validation_rules) = object.validation_rules.checked_sub(1) else {
        // An object with a rule counts it.
        return Err(StoreFail::Damaged);
    };
    let lower_name = lower_bytes(alloc, name.as_str())?;
    let key = (object.org, (Mark::<0>, (object.object, lower_name)));
    Ok(RuleRemoval {
        object: ObjectRow {
            validation_rules,
            ..object
        },
        key,
    })
}

// The edit, decided: it puts the object's row, and removes the rule's.
fn decided(alloc: Global, removal: &RuleRemoval) -> Result<Decided<()>, EditFail>
    requires object { FitsForm object_form removal.now.object }
    requires key { FitsIn validation_form.key removal.now.key }
    ensures made { IfOk result (λ x. AreSpelled (changes_of removal.now) x.changes.items) }
    ensures cause { IfErr result (λ e. e ≡ of_store Memory) }
{
    let mut changes = Vec::new(alloc);
    put_row(alloc, &mut changes, &removal.object)?;
    remove_row::<ValidationRow>(alloc, &mut changes, &removal.key)?;
    Ok(Decided {
        answer: (),
        changes,
    })
}

/// Removes the validation rule with this name from the object with that name, whatever the case of their letters: from then on
/// it refuses no record.
///
/// It is refused with `InvalidType` if there is no such object, and else with `NotFound` if it has no such rule.
#[derive(Drop)]
pub struct RemoveValidationRule<'a> {
    pub object: &'a Text,
    pub name: &'a Text,
}

impl Edit for RemoveValidationRule<'_> {
    type Answer = ();

    ghost verdict = { λ e a. remove_validation_rule a.tenant e.object.now e.name.now };

    ghost answered = { λ _. done };

    ghost planned = { λ e q t next. next ≡ q };

    ghost fits = { λ e a. Unit {0} };

    ghost most = { 2 };

    ghost gone = { 0 };

    ghost shown = { 0 };

    fn judge<K: Keeper>(
        &self,
        alloc: Global,
        draft: &mut Draft<'_, K>,
        org: u32,
    ) -> Result<Decided<()>, EditFail> {
        call_laws::<K>();
        metadata_laws();
        slot_laws();
        objects_sound();
        let row = object_with_rule(alloc, draft, org, self.object, self.name)?;
        let removal = removal_of(alloc, row, self.name)?;
        decided(alloc, &removal)
    }
}

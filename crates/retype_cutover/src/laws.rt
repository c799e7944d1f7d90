ghost use Rattle.std.specs.Prelude.{◌≡◌, ◌<◌, ◌^◌, ℕ, IsTrue, List, [], ◌∷◌, Option, Some, false, slice_get};
ghost use Rattle.store_edit.specs.Edits.{Takes};
ghost use Rattle.store_edit.specs.Rows.{change_to};
ghost use Rattle.store_rows.specs.Forms.{FitsForm};
ghost use Rattle.store_rows.specs.Rows.{job_form};
ghost use Rattle.model.specs.Jobs.{next_hundred, switched};
ghost use Rattle.model.specs.Objects.{object_numbered};
ghost use Rattle.model.specs.Retyping.{new_job, to_clear, with_job};
ghost use Rattle.model.specs.Sound.{IsSound};
ghost use Rattle.model.specs.Tenant.{Field, Job, Object, Tenant};
ghost use Rattle.model.specs.Verdict.{accept, done};
ghost use Rattle.store_abstraction.specs.Metadata.{job_of};
ghost use Rattle.store_abstraction.specs.Plan.{FitsPlan, OrgPlan, has_field, slot_count};
ghost use Rattle.retype_cutover.specs.Switch.{any_plan, stopped_plan, switch_changes, switched_plan};
ghost use Rattle.base_value.specs.declared.job.Outcome.{Outcome};
ghost use Rattle.base_value.specs.declared.job.Outcome.TheVariants as outcome;
ghost use Rattle.base_value.specs.declared.job.Phase.TheVariants as phase;
ghost use Rattle.base_value.specs.declared.value.FieldType.{FieldType};

use base_value::{id_laws, value_laws};
use store_rows::table_laws;

/// The laws of the change of a field's type where it begins, ends before its time, is switched, or is done. The call does nothing.
pub fn switch_laws()
    // A change of a type begins where none is under way, in a slot that is no field's of its object: its row alone comes.
    ensures begins { (org : ℕ) (q : OrgPlan) (t : Tenant) (n i s : ℕ) (to : FieldType)
        → org < 2 ^ 32 → IsSound t → FitsPlan q t → ((j : Job) → t.job ≡ Some j → j.phase ≡ phase.Done)
        → s < slot_count → ((f : ℕ) → IsTrue (has_field t n f) → q.slot n f ≡ s → ⊥) → IsSound (with_job (new_job n i to) t)
        → Takes org q t (accept done (with_job (new_job n i to) t)) done (λ q t next. next ≡ record q { other = s })
        (change_to job_form (job_of org (record q { other = s }) (new_job n i to)) ∷ []) }

    // One that copies ends before its time: its row alone changes.
    ensures stops { (org : ℕ) (q : OrgPlan) (t : Tenant) (j : Job) (x : Outcome) (failed : Option (List ℕ))
        → org < 2 ^ 32 → IsSound t → FitsPlan q t → t.job ≡ Some j → j.phase ≡ phase.Copy → (x ≡ outcome.Switched → ⊥)
        → IsSound (with_job (record (to_clear x j) { failed = failed }) t)
        → Takes org q t (accept done (with_job (record (to_clear x j) { failed = failed }) t)) done any_plan
        (change_to job_form (job_of org (stopped_plan q t j) (record (to_clear x j) { failed = failed })) ∷ []) }

    // The switch: the rows of the field and of the change, however many records there are.
    ensures switches { (org : ℕ) (q : OrgPlan) (t : Tenant) (j : Job) (o : Object) (f : Field)
        → org < 2 ^ 32 → IsSound t → FitsPlan q t → t.job ≡ Some j → j.phase ≡ phase.Copy → next_hundred t j ≡ []
        → object_numbered t j.object ≡ Some o → slice_get o.fields j.field ≡ Some f → IsSound (switched j t)
        → Takes org q t (accept done (switched j t)) done any_plan (switch_changes org (switched_plan q t j) j f) }

    // Nothing is left to clear: its row alone changes.
    ensures finishes { (org : ℕ) (q : OrgPlan) (t : Tenant) (j : Job)
        → org < 2 ^ 32 → IsSound t → FitsPlan q t → t.job ≡ Some j → j.phase ≡ phase.Clear → next_hundred t j ≡ []
        → IsSound (with_job (record j { phase = phase.Done }) t)
        → Takes org q t (accept done (with_job (record j { phase = phase.Done }) t)) done any_plan
        (change_to job_form (job_of org q (record j { phase = phase.Done })) ∷ []) }

    // The row of a change has a spelling.
    ensures fits { (org : ℕ) (q : OrgPlan) (t : Tenant) (j : Job) → org < 2 ^ 32 → IsSound t → FitsPlan q t → t.job ≡ Some j
        → FitsForm job_form (job_of org q j) }

    // The object and the field of a change are there, and the field isn't unique.
    ensures there { (t : Tenant) (j : Job) → IsSound t → t.job ≡ Some j
        → (o : Object) × (f : Field) × (object_numbered t j.object ≡ Some o) × (slice_get o.fields j.field ≡ Some f) × (f.unique ≡ false) }
{
    table_laws();
    id_laws();
    value_laws();
}

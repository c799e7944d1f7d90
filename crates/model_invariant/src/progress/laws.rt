ghost use Rattle.std.specs.Prelude.{◌≡◌, ◌<◌, ◌≤◌, ◌+◌, ◌*◌, ℕ, suc, length, None, Some};
ghost use Rattle.std.specs.List.{find};
ghost use Rattle.model_invariant.specs.progress.Course.{after_steps, field_type};
ghost use Rattle.model.specs.Jobs.{is_bad};
ghost use Rattle.model.specs.Limits.{step_records};
ghost use Rattle.model.specs.Objects.{records_of};
ghost use Rattle.model.specs.Sound.{IsSound};
ghost use Rattle.model.specs.Tenant.{Job, Tenant};
ghost use Rattle.base_value.specs.declared.job.Phase.TheVariants as phase;

/// When the field of a change that begins gets its new type: after as many steps as there are hundreds of records, begun ones too,
/// and one, if all records convert and nothing is done beside the steps. The call does nothing.
pub fn course_laws()
    // Up to the step with which the last records are copied the field has the type that it had.
    ensures copying { (t : Tenant) (j : Job) (steps : ℕ) → IsSound t → t.job ≡ Some j → j.phase ≡ phase.Copy → j.cursor ≡ None
        → find (is_bad t j) (records_of t j.object) ≡ None
        → step_records * steps < length (records_of t j.object) + step_records
        → field_type j (after_steps steps t) ≡ field_type j t }

    // The step after that one gives it the new type.
    ensures switch { (t : Tenant) (j : Job) (steps : ℕ) → IsSound t → t.job ≡ Some j → j.phase ≡ phase.Copy → j.cursor ≡ None
        → find (is_bad t j) (records_of t j.object) ≡ None
        → length (records_of t j.object) ≤ step_records * steps
        → step_records * steps < length (records_of t j.object) + step_records
        → field_type j (after_steps (suc steps) t) ≡ Some j.to }
{}

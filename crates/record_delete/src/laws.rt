ghost use Rattle.std.specs.Prelude.{◌≡◌, ◌<◌, ◌^◌, ◌++◌, ℕ, ℤ, List, None, Some};
ghost use Rattle.std.specs.List.{AllByRecursion};
ghost use Rattle.record_cascade.specs.Deletion.{cleared_ids, deletion_rules, gone_ids};
ghost use Rattle.record_delete.specs.Deleting.{PlansKept, counts_less, deleted_changes, shares_ended};
ghost use Rattle.store_edit.specs.Edits.{Takes};
ghost use Rattle.store_rows.specs.Keys.{FitsKey};
ghost use Rattle.model.specs.declared.record.Record.{Record};
ghost use Rattle.model.specs.Deletes.{cascade, delete, delete_record, without};
ghost use Rattle.model.specs.Objects.{record_at};
ghost use Rattle.model.specs.Paths.{Asked};
ghost use Rattle.model.specs.Rules.{first_refusal};
ghost use Rattle.model.specs.Sound.{IsSound};
ghost use Rattle.model.specs.Tenant.{Tenant};
ghost use Rattle.model.specs.Verdict.{done};
ghost use Rattle.model_invariant.specs.Fit.{IsCaller};
ghost use Rattle.store_abstraction.specs.Plan.{FitsPlan, OrgPlan};
ghost use Rattle.record_index.specs.diff.Touched.{AreCounts, touched_changes};

use base_value::principal_laws;
use model_invariant::deletes_sound;
use record_index::touched_laws;

/// The laws of the rows of records that go. The call does nothing.
pub fn delete_laws()
    // The rows of the organisation and of objects count what goes no more, the rows of its manual shares end, and no other row
    // counts it or shares it.
    ensures counted { (org : ℕ) (q : OrgPlan) (now : ℤ) (t : Tenant) (gone : List Record) → org < 2 ^ 32 → IsSound t
        → AllByRecursion (λ c. FitsKey c.0) (shares_ended org t (gone_ids t gone))
        → AreCounts org q q t (without now gone t) (counts_less org t (gone_ids t gone) ++ shares_ended org t (gone_ids t gone)) }

    // Where the key names the record and no rule refuses it, its changes take the organisation's rows to those of the tenant that
    // the deletion leaves.
    ensures takes { (org : ℕ) (q : OrgPlan) (a : Asked) (name key : List ℕ) (r : Record)
        → org < 2 ^ 32 → IsSound a.tenant → FitsPlan q a.tenant → IsCaller a → record_at a.tenant r.id ≡ Some r
        → delete a name key ≡ delete_record a r
        → None ≡ first_refusal (deletion_rules a.tenant (cascade a.tenant r))
        → AllByRecursion (λ c. FitsKey c.0) (shares_ended org a.tenant (gone_ids a.tenant (cascade a.tenant r)))
        → AllByRecursion (λ c. FitsKey c.0) (touched_changes org q q a.tenant (without a.now (cascade a.tenant r) a.tenant)
        (gone_ids a.tenant (cascade a.tenant r) ++ cleared_ids a.tenant (cascade a.tenant r)))
        → Takes org q a.tenant (delete a name key) done PlansKept (deleted_changes org q a.now a.tenant (cascade a.tenant r)) }
{
    touched_laws();
    deletes_sound();
    principal_laws();
}

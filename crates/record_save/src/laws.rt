//! The laws of the rows of a record that comes or changes.

ghost use Rattle.std.specs.Prelude.{◌≡◌, ◌<◌, ◌^◌, ◌∷◌, [], ℕ, List, None, Option, Some, true};
ghost use Rattle.std.specs.List.{AllByRecursion};
ghost use Rattle.store_edit.specs.Edits.{Takes};
ghost use Rattle.store_rows.specs.Keys.{FitsKey};
ghost use Rattle.model.specs.Creates.{create_on, create_rules, with_record};
ghost use Rattle.model.specs.declared.record_bodies.Assignment.{Assignment};
ghost use Rattle.model.specs.Edits.{with_given};
ghost use Rattle.model.specs.Keys.{Key, with_key};
ghost use Rattle.model.specs.Objects.{Numbered, is_of, object_numbered};
ghost use Rattle.model.specs.Paths.{Asked};
ghost use Rattle.model.specs.Rules.{first_refusal};
ghost use Rattle.model.specs.Sound.{IsSound};
ghost use Rattle.model.specs.Tenant.{Tenant};
ghost use Rattle.model.specs.Updates.{update_on, update_rules, with_changed};
ghost use Rattle.model.specs.declared.record.Record.{Record};
ghost use Rattle.record_save.specs.Creating.{PlansNew, answered_new, counts_with, created_changes, new_record};
ghost use Rattle.record_save.specs.Updating.{PlansSame, answered_changed, shares_gone, updated_changes};
ghost use Rattle.store_abstraction.specs.Plan.{FitsPlan, OrgPlan};
ghost use Rattle.record_index.specs.diff.Touched.{AreCounts, fresh_plan, touched_changes};

use base_value::principal_laws;
use record_index::touched_laws;

/// The laws of a new record's rows. The call does nothing.
pub fn create_laws()
    // The rows of the organisation and of its object count it, and no other row counts it or shares it.
    ensures counted { (org : ℕ) (q : OrgPlan) (t : Tenant) (o : Numbered) (r : Record) → org < 2 ^ 32 → IsSound t
        → object_numbered t o.number ≡ Some o.object → is_of o.number r ≡ true
        → AreCounts org q (fresh_plan r.id q) t (with_record r t) (counts_with org t o r) }

    // Where no rule refuses it, its changes take the organisation's rows to those of the tenant that the create leaves.
    ensures takes { (org : ℕ) (q : OrgPlan) (a : Asked) (o : Numbered) (key : Option Key) (given : List Assignment)
        → org < 2 ^ 32 → IsSound a.tenant → FitsPlan q a.tenant → IsSound (create_on a o key given).tenant
        → object_numbered a.tenant o.number ≡ Some o.object
        → is_of o.number (new_record a o (with_key key given)) ≡ true
        → None ≡ first_refusal (create_rules a o key given (new_record a o (with_key key given)))
        → AllByRecursion (λ c. FitsKey c.0) (touched_changes org q (fresh_plan (new_record a o (with_key key given)).id q) a.tenant
        (with_record (new_record a o (with_key key given)) a.tenant) ((new_record a o (with_key key given)).id ∷ []))
        → Takes org q a.tenant (create_on a o key given) (answered_new key (new_record a o (with_key key given)).id) PlansNew
        (created_changes org q a.tenant o (new_record a o (with_key key given))) }
{
    touched_laws();
}

/// The laws of the rows of a record whose values change. The call does nothing.
pub fn update_laws()
    // The rows of its manual shares go if it gets another owner, and no other row that counts it or shares it differs.
    ensures counted { (org : ℕ) (q : OrgPlan) (t : Tenant) (old new : Record)
        → AllByRecursion (λ c. FitsKey c.0) (shares_gone org t old new)
        → AreCounts org q q t (with_changed old new t) (shares_gone org t old new) }

    // Where no rule refuses it, its changes take the organisation's rows to those of the tenant that the update leaves.
    ensures takes { (org : ℕ) (q : OrgPlan) (a : Asked) (o : Numbered) (key : Option Key) (given : List Assignment) (old : Record)
        → IsSound a.tenant → FitsPlan q a.tenant → IsSound (update_on a o key given old).tenant
        → None ≡ first_refusal (update_rules a o key given old (with_given a o.object (with_key key given) old))
        → AllByRecursion (λ c. FitsKey c.0) (shares_gone org a.tenant old (with_given a o.object (with_key key given) old))
        → AllByRecursion (λ c. FitsKey c.0)
        (touched_changes org q q a.tenant (with_changed old (with_given a o.object (with_key key given) old) a.tenant) (old.id ∷ []))
        → Takes org q a.tenant (update_on a o key given old) (answered_changed key old.id) PlansSame
        (updated_changes org q a.tenant old (with_given a o.object (with_key key given) old)) }
{
    touched_laws();
    principal_laws();
}

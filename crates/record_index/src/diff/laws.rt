ghost use Rattle.std.specs.Prelude.{◌≡◌, ℕ, ℤ, List, ◌++◌, ◌∷◌, [], Some, false, true};
ghost use Rattle.std.specs.List.{AllByRecursion};
ghost use Rattle.store_rows.specs.Keys.{FitsKey, Key};
ghost use Rattle.model.specs.declared.record.Record.{Record};
ghost use Rattle.model.specs.Creates.{with_record};
ghost use Rattle.model.specs.Deletes.{without};
ghost use Rattle.model.specs.Sound.{IsSound};
ghost use Rattle.model.specs.Tenant.{Tenant};
ghost use Rattle.model.specs.Updates.{with_changed};
ghost use Rattle.store_abstraction.specs.Changes.{Change, IsOf, is_changed};
ghost use Rattle.store_abstraction.specs.Plan.{FitsPlan, OrgPlan};
ghost use Rattle.store_abstraction.specs.Stands.{org_of_key, row_in};
ghost use Rattle.record_index.specs.diff.Touched.{AreCounts, HasSoundRows, IsAlike, IsTouched, NoneTakes, fresh_plan, is_valued, touched_by, touched_changes};

use base_value::{order_laws, value_laws};
use store_rows::table_laws;

/// The law of records that an edit touches. The call does nothing.
pub fn touched_laws()
    // With the rows that count and share, and those of what is touched, each change is to what there is afterwards.
    ensures are { (org : ℕ) (p q : OrgPlan) (t u : Tenant) (ids : List (List ℕ)) (counts : List Change)
        → IsTouched p q t u ids → HasSoundRows p t → HasSoundRows q u → NoneTakes p q t u ids → AreCounts org p q t u counts
        → AllByRecursion (λ c. FitsKey c.0) (touched_changes org p q t u ids)
        → AllByRecursion (IsOf org q u) (counts ++ touched_changes org p q t u ids) }

    // And no other row of the organisation differs.
    ensures rest { (org : ℕ) (p q : OrgPlan) (t u : Tenant) (ids : List (List ℕ)) (counts : List Change) (k : Key)
        → IsTouched p q t u ids → HasSoundRows p t → HasSoundRows q u → AreCounts org p q t u counts
        → org_of_key k ≡ Some org → is_changed (counts ++ touched_changes org p q t u ids) k ≡ false
        → row_in q u k ≡ row_in p t k }

    // The same of the rows of records and of values alone, where nothing else is known but that the objects are the same and that
    // the records of other ids are kept alike.
    ensures alike_are { (org : ℕ) (p q : OrgPlan) (t u : Tenant) (ids : List (List ℕ))
        → IsAlike p q t u ids → HasSoundRows p t → HasSoundRows q u → NoneTakes p q t u ids
        → AllByRecursion (λ c. FitsKey c.0) (touched_changes org p q t u ids)
        → AllByRecursion (IsOf org q u) (touched_changes org p q t u ids) }
    ensures alike_rest { (org : ℕ) (p q : OrgPlan) (t u : Tenant) (ids : List (List ℕ)) (k : Key)
        → IsAlike p q t u ids → HasSoundRows p t → HasSoundRows q u → org_of_key k ≡ Some org → is_valued k ≡ true
        → is_changed (touched_changes org p q t u ids) k ≡ false → row_in q u k ≡ row_in p t k }

    // What edits touch: a create the new record, an update the one that changes, a delete what goes and what loses a lookup.
    ensures created { (p : OrgPlan) (t : Tenant) (r : Record) → IsTouched p (fresh_plan r.id p) t (with_record r t) (r.id ∷ []) }
    ensures changed { (p : OrgPlan) (t : Tenant) (old new : Record) → old.id ≡ new.id
        → IsTouched p p t (with_changed old new t) (new.id ∷ []) }
    ensures taken { (p : OrgPlan) (now : ℤ) (t : Tenant) (gone : List Record) → IsTouched p p t (without now gone t) (touched_by t gone) }

    // A sound tenant is kept so by each plan that fits it, and neither an edit of one record nor a delete takes a unique value
    // from another record.
    ensures kept { (p : OrgPlan) (t : Tenant) → IsSound t → FitsPlan p t → HasSoundRows p t }
    ensures single { (p q : OrgPlan) (t u : Tenant) (id : List ℕ) → IsTouched p q t u (id ∷ []) → HasSoundRows p t
        → NoneTakes p q t u (id ∷ []) }
    ensures deleted { (p : OrgPlan) (now : ℤ) (t : Tenant) (gone : List Record) → IsSound t → FitsPlan p t
        → NoneTakes p p t (without now gone t) (touched_by t gone) }

    // Where no record changes, though the change of a type goes on, none takes a unique value from another either: what such a change
    // has of records isn't unique.
    ensures unmoved { (p : OrgPlan) (t u : Tenant) (ids : List (List ℕ)) → IsSound t → IsSound u → u.objects ≡ t.objects
        → u.records ≡ t.records → NoneTakes p p t u ids }

    // A plan fits as long as objects and the change of a type stay.
    ensures fresh { (p : OrgPlan) (t : Tenant) (r : Record) → FitsPlan p t → FitsPlan (fresh_plan r.id p) (with_record r t) }
    ensures same { (p : OrgPlan) (t u : Tenant) (ids : List (List ℕ)) → IsTouched p p t u ids → FitsPlan p t → FitsPlan p u }
{
    table_laws();
    value_laws();
    order_laws();
}

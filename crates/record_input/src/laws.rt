//! What holds of the objects that layouts spell.

ghost use Rattle.std.specs.Prelude.{◌≡◌, ℕ, List, None, Option, Some};
ghost use Rattle.record_input.specs.Given.{FindNone, Finds, FindsNamed, IsInJson};
ghost use Rattle.record_input.specs.declared.found.Found.{Found};
ghost use Rattle.schema_rules.specs.Objects.{numbered_in, object_of_layout};
ghost use Rattle.model.specs.declared.record.Record.{Record};
ghost use Rattle.model.specs.declared.record_bodies.Assignment.{Assignment};
ghost use Rattle.model.specs.Creates.{empty_record};
ghost use Rattle.model.specs.Edits.{bad_value, required_missing, with_given};
ghost use Rattle.model.specs.Keys.{Key, bad_fields};
ghost use Rattle.model.specs.Upserts.{declared_name, unique_named};
ghost use Rattle.model.specs.Objects.{Numbered, object_numbered};
ghost use Rattle.model.specs.Paths.{Asked};
ghost use Rattle.model.specs.Sound.{IsSound};
ghost use Rattle.model.specs.SoundRecords.{kinds_of};
ghost use Rattle.model.specs.Tenant.{Object, Tenant};
ghost use Rattle.store_abstraction.specs.Layouts.{layout_of};
ghost use Rattle.store_abstraction.specs.Plan.{OrgPlan};

/// An object and the one that its layout spells: names, values and required fields are judged alike, and records are made alike,
/// whatever the object's validation rules are. And a body in which nothing finds a record, as one in JSON, finds those that are told,
/// whatever is told; in a sound organisation one finds them if it does for the field with each name. The call does nothing.
pub fn given_laws()
    ensures unique_named { (org : ℕ) (p : OrgPlan) (t : Tenant) (o : Numbered) (name : List ℕ)
        → unique_named o.object name ≡ unique_named (object_of_layout (layout_of org p t o)) name }
    ensures declared_name { (org : ℕ) (p : OrgPlan) (t : Tenant) (o : Numbered) (name : List ℕ)
        → declared_name o.object name ≡ declared_name (object_of_layout (layout_of org p t o)) name }
    ensures bad_fields { (org : ℕ) (p : OrgPlan) (t : Tenant) (o : Numbered) (key : Option Key) (given : List Assignment)
        → bad_fields t o.object key given ≡ bad_fields t (object_of_layout (layout_of org p t o)) key given }
    ensures bad_value { (org : ℕ) (p : OrgPlan) (t : Tenant) (o : Numbered) (given : List Assignment)
        → bad_value t o.object given ≡ bad_value t (object_of_layout (layout_of org p t o)) given }
    ensures with_given { (org : ℕ) (p : OrgPlan) (a : Asked) (o : Numbered) (given : List Assignment) (old : Record)
        → with_given a o.object given old ≡ with_given a (object_of_layout (layout_of org p a.tenant o)) given old }
    ensures required_missing { (org : ℕ) (p : OrgPlan) (t : Tenant) (o : Numbered) (new : Record)
        → required_missing o.object new ≡ required_missing (object_of_layout (layout_of org p t o)) new }
    ensures empty_record { (org : ℕ) (p : OrgPlan) (a : Asked) (o : Numbered)
        → empty_record a o ≡ empty_record a (numbered_in (layout_of org p a.tenant o)) }
    ensures kinds { (org : ℕ) (p : OrgPlan) (t : Tenant) (o : Numbered)
        → kinds_of o.object ≡ kinds_of (object_of_layout (layout_of org p t o)) }
    ensures finds { (t : Tenant) (o : Object) (key : Option Key) (found : List Found) (body : List Assignment)
        → FindNone body → Finds t o key found body }
    ensures named { (t : Tenant) (o : Numbered) (found : List Found) (body : List Assignment)
        → IsSound t → object_numbered t o.number ≡ Some o.object → FindsNamed t o.object found body
        → Finds t o.object None found body }
    ensures json { (body : List Assignment) → IsInJson body → FindNone body }
{}

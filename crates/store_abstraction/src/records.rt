//! The rows of records and the slots of fields, while metadata change.

ghost use Rattle.std.specs.Prelude.{◌≡◌, ◌<◌, ◌≤◌, ◌^◌, ℕ, Bool, List, [], ◌∷◌, ◌++◌, IsTrue, Option, Some, None, false, is_some, length, map as plain_map, slice_get};
ghost use Rattle.std.specs.List.{list_any};
ghost use Rattle.store_rows.specs.Forms.{FitsForm};
ghost use Rattle.store_rows.specs.Keys.{Key};
ghost use Rattle.store_rows.specs.Rows.{field_form, object_form, validation_form};
ghost use Rattle.model.specs.declared.limit.Limit.TheVariants as limit;
ghost use Rattle.model.specs.Fields.{same_name};
ghost use Rattle.model.specs.Names.{is_stem};
ghost use Rattle.model.specs.declared.record.Record.{Record};
ghost use Rattle.model.specs.Limits.{limit_number};
ghost use Rattle.model.specs.Membership.{Has};
ghost use Rattle.model.specs.NewFields.{with_field};
ghost use Rattle.model.specs.Objects.{is_of, object_numbered, records_of, with_object_changed};
ghost use Rattle.model.specs.Sound.{IsSound};
ghost use Rattle.model.specs.Tenant.{Field, Job, Object, Tenant, ValidationRule};
ghost use Rattle.model.specs.ValidationRules.{with_validation_rule};
ghost use Rattle.store_abstraction.specs.Entries.{slot_entry};
ghost use Rattle.store_abstraction.specs.Layouts.{layout_of};
ghost use Rattle.store_abstraction.specs.Metadata.{field_of, lower_bytes, named_so, row_of_object, validation_of};
ghost use Rattle.store_abstraction.specs.Plan.{FitsPlan, OrgPlan, slot_count};
ghost use Rattle.store_abstraction.specs.Records.{KeptAlike, has_free, is_field_key, is_free, is_object_key, is_org_key, is_rule_key, object_of_records, rule_at, suits_flags, with_slot};
ghost use Rattle.store_abstraction.specs.Stands.{kept_in, row_in};
ghost use Rattle.base_value.specs.declared.sharing.Access.{Access};

use model::name_laws;

/// The laws of the rows of records, while plan and tenant change. The call does nothing.
pub fn record_laws()
    // An object's records have the same rows where each is kept alike, and none where there are none.
    ensures kept { (p q : OrgPlan) (t u : Tenant) (n : ℕ) (o v : Object) (change : Record → Record)
        → object_numbered t n ≡ Some o → object_numbered u n ≡ Some v
        → u.records ≡ plain_map change t.records → ((r : Record) → (change r).id ≡ r.id)
        → ((r : Record) → Has t.records r → IsTrue (is_of n r) → KeptAlike (kept_in q u n v (change r)) (kept_in p t n o r))
        → (k : Key) → object_of_records k ≡ Some n → row_in q u k ≡ row_in p t k }
    ensures none { (p : OrgPlan) (t : Tenant) (n : ℕ) (k : Key)
        → ((r : Record) → Has t.records r → is_of n r ≡ false) → object_of_records k ≡ Some n → row_in p t k ≡ None }

    // All records keep their rows where an object is changed but for its fields.
    ensures described { (p : OrgPlan) (t : Tenant) (n : ℕ) (change : Object → Object) (m : ℕ) (k : Key)
        → IsSound t → ((o : Object) → (change o).fields ≡ o.fields) → object_of_records k ≡ Some m
        → row_in p (with_object_changed n change t) k ≡ row_in p t k }
{}

/// The laws of the rows of metadata: which stay where an object, another access, or a field in a free slot comes. The call
/// does nothing.
pub fn metadata_laws()
    // All but the organisation's row, and those of the object and of its first field.
    ensures object { (p : OrgPlan) (t : Tenant) (o : Object) (s : ℕ) (k : Key)
        → IsSound t → length o.fields ≤ 1 → o.validation_rules ≡ []
        → is_org_key k ≡ false → is_object_key (length t.objects) k ≡ false → is_field_key (length t.objects) 0 k ≡ false
        → row_in (with_slot (length t.objects) 0 s p) (record t { objects = t.objects ++ o ∷ [] }) k ≡ row_in p t k }

    // All but the row of the object and those of validation rules that come, where the object is changed but for its fields.
    ensures described { (p : OrgPlan) (t : Tenant) (n : ℕ) (change : Object → Object) (k : Key)
        → IsSound t → ((o : Object) → (change o).fields ≡ o.fields) → ((o : Object) → rule_at n k (change o) ≡ rule_at n k o)
        → is_object_key n k ≡ false → row_in p (with_object_changed n change t) k ≡ row_in p t k }

    // Another access of an object changes no rule, and one rule more no other.
    ensures accessed { (n : ℕ) (access : Access) (hierarchy : Bool) (k : Key) (o : Object)
        → rule_at n k (record o { access = access; hierarchy = hierarchy }) ≡ rule_at n k o }
    ensures ruled { (n : ℕ) (r : ValidationRule) (k : Key) (o : Object) → is_rule_key n (lower_bytes r.name) k ≡ false
        → rule_at n k (with_validation_rule r o) ≡ rule_at n k o }

    // All but the rows of the object and of the field.
    ensures field { (p : OrgPlan) (t : Tenant) (n : ℕ) (o : Object) (f : Field) (s : ℕ) (k : Key)
        → IsSound t → object_numbered t n ≡ Some o → IsTrue (is_free p t.job n o s) → IsTrue (suits_flags f)
        → is_object_key n k ≡ false → is_field_key n (length o.fields) k ≡ false
        → row_in (with_slot n (length o.fields) s p) (with_field n f t) k ≡ row_in p t k }

    // A rule is found by its name in lower case exactly if an object's rule has that name, whatever the case of its letters; and a
    // rule that comes is found, if no rule has its name.
    ensures rule_found { (t : Tenant) (n : ℕ) (o : Object) (name : List ℕ) → IsSound t → object_numbered t n ≡ Some o → IsTrue (is_stem name)
        → is_some (named_so (λ r. r.name) o.validation_rules (lower_bytes name)) ≡ list_any (same_name name) (plain_map (λ r. r.name) o.validation_rules) }
    ensures rule_put { (r : ValidationRule) (o : Object) → named_so (λ x. x.name) o.validation_rules (lower_bytes r.name) ≡ None
        → named_so (λ x. x.name) (with_validation_rule r o).validation_rules (lower_bytes r.name) ≡ Some r }

    // The rows of objects, fields and validation rules fit their forms.
    ensures object_fits { (org : ℕ) (t : Tenant) (n : ℕ) (o : Object) → org < 2 ^ 32 → IsSound t → object_numbered t n ≡ Some o
        → FitsForm object_form (row_of_object org t n o) }
    ensures field_fits { (org : ℕ) (p : OrgPlan) (t : Tenant) (n i : ℕ) (o : Object) (f : Field) → org < 2 ^ 32 → IsSound t → FitsPlan p t
        → object_numbered t n ≡ Some o → slice_get o.fields i ≡ Some f → FitsForm field_form (field_of org p n i f) }
    ensures rule_fits { (org : ℕ) (t : Tenant) (n : ℕ) (o : Object) (r : ValidationRule) → org < 2 ^ 32 → IsSound t → object_numbered t n ≡ Some o
        → Has o.validation_rules r → FitsForm validation_form (validation_of org n r) }

    // A field that comes leaves the number of each object's records.
    ensures counted { (t : Tenant) (n m : ℕ) (f : Field) → length (records_of (with_field n f t) m) ≡ length (records_of t m) }
{
    name_laws();
}

/// The laws of slots. The call does nothing.
pub fn slot_laws()
    // One of the slots is free, and nothing is in it.
    ensures free { (p : OrgPlan) (job : Option Job) (n : ℕ) (o : Object)
        → length o.fields ≤ limit_number limit.FieldsPerObject → (s : ℕ) × (s < slot_count) × IsTrue (is_free p job n o s) }
    ensures nothing { (p : OrgPlan) (job : Option Job) (n : ℕ) (o : Object) (r : Record) (s : ℕ)
        → IsTrue (is_free p job n o s) → slot_entry p job n o r s ≡ None }

    // A layout shows which are free.
    ensures seen { (p : OrgPlan) (t : Tenant) (org n : ℕ) (o : Object) (s : ℕ)
        → has_free (layout_of org p t (record { number = n; object = o })) s ≡ is_free p t.job n o s }

    // The plan still fits where an object comes, where one is changed but for its fields, and where a field comes that has a
    // free slot.
    ensures object { (p : OrgPlan) (t : Tenant) (o : Object) (s : ℕ)
        → IsSound t → FitsPlan p t → s < slot_count → length o.fields ≤ 1
        → FitsPlan (with_slot (length t.objects) 0 s p) (record t { objects = t.objects ++ o ∷ [] }) }
    ensures described { (p : OrgPlan) (t : Tenant) (n : ℕ) (change : Object → Object)
        → FitsPlan p t → ((o : Object) → (change o).fields ≡ o.fields) → FitsPlan p (with_object_changed n change t) }
    ensures field { (p : OrgPlan) (t : Tenant) (n : ℕ) (o : Object) (f : Field) (s : ℕ)
        → IsSound t → FitsPlan p t → object_numbered t n ≡ Some o → s < slot_count → IsTrue (is_free p t.job n o s)
        → FitsPlan (with_slot n (length o.fields) s p) (with_field n f t) }
{}

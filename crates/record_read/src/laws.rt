ghost use Rattle.std.specs.Prelude.{◌≡◌, ◌<◌, ◌^◌, ℕ, IsTrue, Some, None};
ghost use Rattle.std.specs.List.{list_all};
ghost use Rattle.record_read.specs.Decoding.{has_types, kinds_in, record_from};
ghost use Rattle.record_read.specs.Encoding.{row_from};
ghost use Rattle.store_rows.specs.Forms.{FitsForm};
ghost use Rattle.store_rows.specs.Rows.{data_form};
ghost use Rattle.model.specs.declared.record.Record.{Record};
ghost use Rattle.model.specs.Membership.{Has};
ghost use Rattle.model.specs.Objects.{Numbered, is_of, object_numbered};
ghost use Rattle.model.specs.Sound.{IsSound};
ghost use Rattle.model.specs.SoundRecords.{kinds_of};
ghost use Rattle.model.specs.Tenant.{Job, Object, Tenant};
ghost use Rattle.store_abstraction.specs.Entries.{data_of, job_value, slot_entry};
ghost use Rattle.store_abstraction.specs.Layouts.{layout_of};
ghost use Rattle.store_abstraction.specs.Plan.{FitsPlan, OrgPlan};
ghost use Rattle.base_value.specs.Printing.{is_printable};

use base_value::{id_laws, value_laws};

/// The laws of the rows of records. The call does nothing.
pub fn data_laws()
    // The row of a sound record reads as that record.
    ensures read { (org n : ℕ) (p : OrgPlan) (t : Tenant) (o : Object) (r : Record)
        → IsSound t → FitsPlan p t → object_numbered t n ≡ Some o → Has t.records r → IsTrue (is_of n r)
        → record_from (layout_of org p t (record { number = n; object = o })) (data_of org n r (slot_entry p t.job n o r)) ≡ Some r }

    // Where a change of the object has no value for the record, the row that is made of it is the one that tables have of it. So
    // it is while no type of the object's fields is changed, and of a new record, which is past the cursor while values are copied.
    ensures made { (org n : ℕ) (p : OrgPlan) (t : Tenant) (o : Object) (r : Record)
        → ((j : Job) → t.job ≡ Some j → j.object ≡ n → job_value p j j.phase r ≡ None)
        → IsTrue (list_all is_printable r.values)
        → row_from (layout_of org p t (record { number = n; object = o })) r None ≡ data_of org n r (slot_entry p t.job n o r) }

    // Where a change of the object has the same for two records, the row that is made of the one over the other's is the one that
    // tables have of it. So it is of a record whose values change, but for that of the change's field once it was copied.
    ensures rewritten { (org n : ℕ) (p : OrgPlan) (t : Tenant) (o : Object) (q r : Record)
        → ((j : Job) → t.job ≡ Some j → j.object ≡ n → job_value p j j.phase q ≡ job_value p j j.phase r)
        → IsTrue (list_all is_printable r.values)
        → row_from (layout_of org p t (record { number = n; object = o })) r (Some (data_of org n q (slot_entry p t.job n o q)))
        ≡ data_of org n r (slot_entry p t.job n o r) }

    // The values of sound records have texts.
    ensures printable { (t : Tenant) (r : Record) → IsSound t → Has t.records r → IsTrue (list_all is_printable r.values) }

    // The row of a sound record has a spelling.
    ensures fits { (org n : ℕ) (p : OrgPlan) (t : Tenant) (o : Object) (r : Record)
        → org < 2 ^ 32 → IsSound t → FitsPlan p t → object_numbered t n ≡ Some o → Has t.records r → IsTrue (is_of n r)
        → FitsForm data_form (data_of org n r (slot_entry p t.job n o r)) }

    // The types of a sound object's layout are within their bounds.
    ensures typed { (org n : ℕ) (p : OrgPlan) (t : Tenant) (o : Object) → IsSound t → object_numbered t n ≡ Some o
        → IsTrue (has_types (layout_of org p t (record { number = n; object = o }))) }

    // A record's values have the types of the layout exactly if they have those of the object.
    ensures kinds { (org n : ℕ) (p : OrgPlan) (t : Tenant) (o : Object)
        → kinds_in (layout_of org p t (record { number = n; object = o })).fields ≡ kinds_of o }
{
    value_laws();
    id_laws();
}

ghost use Rattle.std.specs.Prelude.{◌≡◌, ◌⊎◌, ◌≤◌, ℕ, [], IsTrue, List, None, Option, Some, false, length, map};
ghost use Rattle.std.specs.List.{list_all};
ghost use Rattle.record_read.specs.Encoding.{row_from};
ghost use Rattle.store_edit.specs.Rows.{gone_of, spelled};
ghost use Rattle.formula.specs.Meaning.{value_at};
ghost use Rattle.store_rows.specs.declared.data.DataRow.{DataRow};
ghost use Rattle.model.specs.declared.record.Record.{Record};
ghost use Rattle.model.specs.Jobs.{is_past};
ghost use Rattle.model.specs.Objects.{is_of, object_numbered, record_at};
ghost use Rattle.model.specs.Sound.{IsSound};
ghost use Rattle.model.specs.Tenant.{Job, Object, Tenant};
ghost use Rattle.record_index.specs.Changed.{SameKeys, record_changes, slot_changes};
ghost use Rattle.record_index.specs.Made.{made_changes};
ghost use Rattle.record_index.specs.Removed.{beside_entry, removed_changes};
ghost use Rattle.record_index.specs.Turned.{converts, turned_changes, turned_row};
ghost use Rattle.store_abstraction.specs.Entries.{Entry, data_of, job_value, slot_entry, slot_field};
ghost use Rattle.store_abstraction.specs.Layouts.{layout_of};
ghost use Rattle.store_abstraction.specs.Plan.{FitsPlan, OrgPlan};
ghost use Rattle.store_abstraction.specs.Stands.{kept_at};
ghost use Rattle.store_abstraction.specs.declared.layout.Layout.{Layout};
ghost use Rattle.base_value.specs.Printing.{is_printable};
ghost use Rattle.base_value.specs.declared.value.Value.TheVariants as value;

use base_value::value_laws;
use record_read::data_laws;

/// The laws of the rows of a record and of its values. The call does nothing.
pub fn pivot_laws()
    // The changes that put a new record's rows are those of all rows that differ where it comes, if a change of a type of the
    // object's fields has no value for it.
    ensures made { (org n : ℕ) (p : OrgPlan) (t : Tenant) (o : Object) (r : Record)
        → ((j : Job) → t.job ≡ Some j → j.object ≡ n → job_value p j j.phase r ≡ None)
        → IsTrue (list_all is_printable r.values) → IsTrue (is_of n r) → record_at t r.id ≡ Some r → object_numbered t n ≡ Some o
        → made_changes (layout_of org p t (record { number = n; object = o })) r ≡ record_changes org n r.id None (kept_at p t n r.id) }

    // The changes of a record whose values change are those of all rows that differ, where one tenant has it with the old values,
    // another with the new ones, and both have the same objects and the same change of a type. What else they have may differ,
    // and so may the record's owner and moments.
    ensures turned { (org n : ℕ) (p : OrgPlan) (t u : Tenant) (o : Object) (old new : Record)
        → u.objects ≡ t.objects → u.job ≡ t.job → new.id ≡ old.id
        → IsTrue (list_all is_printable new.values) → IsTrue (is_of n new)
        → record_at t old.id ≡ Some old → record_at u new.id ≡ Some new → object_numbered t n ≡ Some o
        → turned_changes (layout_of org p t (record { number = n; object = o })) (data_of org n old (slot_entry p t.job n o old)) old new
        ≡ record_changes org n new.id (kept_at p t n new.id) (kept_at p u n new.id) }

    // They are at most 289, and remove no record's row.
    ensures turned_few { (l : Layout) (kept : DataRow) (old new : Record) → length (turned_changes l kept old new) ≤ 289 }
    ensures turned_gone { (l : Layout) (kept : DataRow) (old new : Record) → gone_of (map spelled (turned_changes l kept old new)) ≡ 0 }

    // Where values of a record become null and no other changes, the changes are at most so many.
    ensures cleared_few { (l : Layout) (kept : DataRow) (old new : Record) → new.id ≡ old.id
        → ((k : ℕ) → (value_at new.values k ≡ value.Null) ⊎ (value_at new.values k ≡ value_at old.values k))
        → length (turned_changes l kept old new) ≤ 245 }

    // The changes that remove a record's rows are those of all rows that differ where one tenant has it and another has it no more.
    ensures removed { (org n : ℕ) (p : OrgPlan) (t u : Tenant) (o : Object) (old : Record) → IsSound t → FitsPlan p t
        → IsTrue (is_of n old) → record_at t old.id ≡ Some old → record_at u old.id ≡ None → object_numbered t n ≡ Some o
        → removed_changes (layout_of org p t (record { number = n; object = o })) (data_of org n old (slot_entry p t.job n o old)) old
        ≡ record_changes org n old.id (kept_at p t n old.id) (kept_at p u n old.id) }

    // They are at most 145, and remove one record's row.
    ensures removed_few { (l : Layout) (kept : DataRow) (old : Record) → length (removed_changes l kept old) ≤ 145 }
    ensures removed_gone { (l : Layout) (kept : DataRow) (old : Record) → gone_of (map spelled (removed_changes l kept old)) ≤ 1 }

    // The layout of a sound object converts what is copied.
    ensures converting { (org n : ℕ) (p : OrgPlan) (t : Tenant) (o : Object) → IsSound t → object_numbered t n ≡ Some o
        → IsTrue (converts (layout_of org p t (record { number = n; object = o }))) }

    // Those of a new record are at most 145, and remove none either.
    ensures few { (l : Layout) (r : Record) → length (made_changes l r) ≤ 145 }
    ensures gone { (l : Layout) (r : Record) → gone_of (map spelled (made_changes l r)) ≡ 0 }

    // Those of one slot are at most 6, and remove none either.
    ensures slot_few { (org object : ℕ) (id : List ℕ) (old new : Option Entry) (slot : ℕ)
        → length (slot_changes org object id old new slot) ≤ 6 }
    ensures slot_gone { (org object : ℕ) (id : List ℕ) (old new : Option Entry) (slot : ℕ)
        → gone_of (map spelled (slot_changes org object id old new slot)) ≡ 0 }

    // And there are none where a slot keeps what it has.
    ensures slot_same { (org object : ℕ) (id : List ℕ) (entry : Option Entry) (slot : ℕ)
        → slot_changes org object id entry entry slot ≡ [] }

    // What a change of a type has of a record, as the layout and the row that is kept tell it, is found by the same as what is in
    // the change's slot.
    ensures beside { (org n : ℕ) (p : OrgPlan) (t : Tenant) (o : Object) (r : Record) (j : Job)
        → IsSound t → FitsPlan p t → t.job ≡ Some j → j.object ≡ n → object_numbered t n ≡ Some o
        → slot_field p n o.fields p.other ≡ None
        → SameKeys (beside_entry (layout_of org p t (record { number = n; object = o })) (data_of org n r (slot_entry p t.job n o r)) r p.other)
        (slot_entry p t.job n o r p.other) }

    // Once the change has come to the record it is just that, whatever row was kept.
    ensures come_entry { (org n : ℕ) (p : OrgPlan) (t : Tenant) (o : Object) (r : Record) (j : Job) (kept : DataRow)
        → t.job ≡ Some j → j.object ≡ n → is_past j.cursor r.id ≡ false → slot_field p n o.fields p.other ≡ None
        → beside_entry (layout_of org p t (record { number = n; object = o })) kept r p.other ≡ slot_entry p t.job n o r p.other }

    // And the row that is made of it anew, with what the change has copied, is the one that tables have of it.
    ensures come_row { (org n : ℕ) (p : OrgPlan) (t : Tenant) (o : Object) (r : Record) (j : Job)
        → t.job ≡ Some j → j.object ≡ n → is_past j.cursor r.id ≡ false → IsTrue (list_all is_printable r.values)
        → turned_row (layout_of org p t (record { number = n; object = o }))
        (row_from (layout_of org p t (record { number = n; object = o })) r None) r
        ≡ data_of org n r (slot_entry p t.job n o r) }
{
    data_laws();
    value_laws();
}

ghost use Rattle.std.specs.Prelude.{◌≡◌, ◌<◌, ◌≤◌, ◌^◌, ◌*◌, ℕ, List, [], ◌∷◌, ◌++◌, Option, length, map};
ghost use Rattle.std.specs.List.{AllByRecursion};
ghost use Rattle.store_edit.specs.Edits.{Takes};
ghost use Rattle.store_edit.specs.Rows.{change_to, gone_of, spelled};
ghost use Rattle.store_rows.specs.declared.data.DataRow.{DataRow};
ghost use Rattle.store_rows.specs.Keys.{FitsKey};
ghost use Rattle.store_rows.specs.Rows.{job_form};
ghost use Rattle.model.specs.declared.record.Record.{Record};
ghost use Rattle.model.specs.Jobs.{last_id, moved};
ghost use Rattle.model.specs.Retyping.{with_job};
ghost use Rattle.model.specs.Sound.{IsSound};
ghost use Rattle.model.specs.Tenant.{Job, Object, Tenant};
ghost use Rattle.model.specs.Verdict.{accept, done};
ghost use Rattle.retype_step.specs.backfill.Progress.{IsPage, page_changes};
ghost use Rattle.store_abstraction.specs.Entries.{data_of, slot_entry};
ghost use Rattle.store_abstraction.specs.Layouts.{layout_of};
ghost use Rattle.store_abstraction.specs.Metadata.{job_of};
ghost use Rattle.store_abstraction.specs.Plan.{OrgPlan};
ghost use Rattle.store_abstraction.specs.declared.layout.Layout.{Layout};

use base_value::value_laws;
use record_index::{pivot_laws, touched_laws};
use record_read::data_laws;
use store_rows::table_laws;

/// The laws of a step over a page of records. The call does nothing.
pub fn progress_laws()
    // By the changes of a page and that of the change itself the organisation's change has come to the last record of the page.
    ensures moves { (org : ℕ) (q : OrgPlan) (t : Tenant) (j : Job) (o : Object) (rs : List Record)
        → org < 2 ^ 32 → IsPage q t j o rs → IsSound (with_job (moved j rs) t)
        → AllByRecursion (λ c. FitsKey c.0)
        (page_changes (layout_of org q t (record { number = j.object; object = o })) (last_id rs)
        (map (λ r. data_of org j.object r (slot_entry q t.job j.object o r)) rs) rs)
        → Takes org q t (accept done (with_job (moved j rs) t)) done (λ q t next. Unit {0})
        (page_changes (layout_of org q t (record { number = j.object; object = o })) (last_id rs)
        (map (λ r. data_of org j.object r (slot_entry q t.job j.object o r)) rs) rs
        ++ change_to job_form (job_of org q (moved j rs)) ∷ []) }

    // They are at most two for each record: its own row, and an index row, since the values of a change are neither unique nor
    // references.
    ensures few { (org : ℕ) (q : OrgPlan) (t : Tenant) (j : Job) (o : Object) (rs : List Record)
        → IsPage q t j o rs → IsSound (with_job (moved j rs) t)
        → length (page_changes (layout_of org q t (record { number = j.object; object = o })) (last_id rs)
        (map (λ r. data_of org j.object r (slot_entry q t.job j.object o r)) rs) rs)
        ≤ 2 * length rs }

    // And they remove no record's row.
    ensures gone { (l : Layout) (cursor : Option (List ℕ)) (rows : List DataRow) (rs : List Record)
        → gone_of (map spelled (page_changes l cursor rows rs)) ≡ 0 }
{
    table_laws();
    value_laws();
    data_laws();
    pivot_laws();
    touched_laws();
}

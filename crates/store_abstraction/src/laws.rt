ghost use Rattle.std.specs.Prelude.{◌≡◌, ◌+◌, ◌<◌, ℕ, List, [], ◌∷◌, ◌++◌, Some, None, codes, false, length, pos, replicate, true};
ghost use Rattle.store_kv.specs.Tables.{Tables, no_rows};
ghost use Rattle.store_rows.specs.Forms.{row_bytes};
ghost use Rattle.store_rows.specs.Holds.{Holds, with_row};
ghost use Rattle.store_rows.specs.Keys.{Data, Index, Job, Key, Org, User, Version};
ghost use Rattle.store_rows.specs.Rows.{data_form, job_form};
ghost use Rattle.model.specs.declared.limit.Limit.TheVariants as limit;
ghost use Rattle.model.specs.Limits.{limit_number};
ghost use Rattle.model.specs.Organisations.{with_org};
ghost use Rattle.model.specs.Sound.{IsSound};
ghost use Rattle.model.specs.Tenant.{Tenant};
ghost use Rattle.model.specs.World.{World, tenant_at};
ghost use Rattle.store_abstraction.specs.Plan.{FitsPlan, OrgPlan, Plan, opened, with_plan};
ghost use Rattle.store_abstraction.specs.Stands.{HasKnownVersion, HasUnknownVersion, Stands, StandsBy, all_tables, closed, org_of_key, row_at, row_in, rows_with, version_at};
ghost use Rattle.store_abstraction.specs.WorkedRows.{acme, acme_plan, first, second};
ghost use Rattle.base_value.specs.OrderKeys.{order_key};
ghost use Rattle.base_value.specs.declared.job.Outcome.TheVariants as outcome;
ghost use Rattle.base_value.specs.declared.job.Phase.TheVariants as phase;
ghost use Rattle.base_value.specs.declared.value.FieldType.TheVariants as type;
ghost use Rattle.base_value.specs.declared.value.Value.TheVariants as value;

use store_rows::{VersionRow, row_laws, table_laws};

/// The laws of tables that stand for a world. The call does nothing.
pub fn stands_laws()
    // Tables without rows stand for the world without organisations.
    ensures empty { Stands no_rows [] }

    // Tables that stand for a world are of the known version, and no tables are of it and of another.
    ensures known { (m : Tables) (w : World) → Stands m w → HasKnownVersion m }
    ensures one_version { (m : Tables) → HasKnownVersion m → HasUnknownVersion m → ⊥ }

    // At the keys of an organisation are the rows of its tenant, and past the last organisation there are none.
    ensures own { (p : Plan) (w : World) (n : ℕ) (t : Tenant) (k : Key)
        → tenant_at w n ≡ Some t → org_of_key k ≡ Some n → row_at p w k ≡ row_in (p.org n) t k }
    ensures past { (p : Plan) (w : World) (k : Key) → org_of_key k ≡ Some (length w + 1) → row_at p w k ≡ None }

    // Each organisation is sound.
    ensures sound { (m : Tables) (w : World) (n : ℕ) (t : Tenant) → Stands m w → tenant_at w n ≡ Some t → IsSound t }

    // Tables that also have the rows of one more organisation, and the version's row.
    ensures appended { (p : Plan) (m after : Tables) (w : World) (t : Tenant) (q : OrgPlan)
        → StandsBy p m w → length w < limit_number limit.Organisations → IsSound t → FitsPlan q t
        → Holds all_tables after (with_row Version (version_at true (w ++ t ∷ [])) (rows_with (length w + 1) q t (row_at p w)))
        → StandsBy (opened (with_plan (length w + 1) q p)) after (w ++ t ∷ []) }
{
    table_laws();
    row_laws::<VersionRow>();
}

/// The rows of the first organisation, worked by hand. The call does nothing.
pub fn stands_rows()
    ensures version { (digest : List ℕ) → row_at (opened closed) (with_org [] (codes "Acme") digest) Version
        ≡ Some (0 ∷ 0 ∷ 0 ∷ 1 ∷ 0 ∷ 0 ∷ 0 ∷ 1 ∷ []) }
    ensures org { (digest : List ℕ) → row_at (opened closed) (with_org [] (codes "Acme") digest) (Org 1)
        ≡ Some (0 ∷ 0 ∷ 0 ∷ 4 ∷ 65 ∷ 99 ∷ 109 ∷ 101
        ∷ 0 ∷ 0 ∷ 0 ∷ 0 ∷ 0 ∷ 0 ∷ 0 ∷ 1
        ∷ 0 ∷ 0 ∷ 0 ∷ 0 ∷ 0 ∷ 0 ∷ 0 ∷ 1 ∷ 0 ∷ 0 ∷ 0 ∷ 0 ∷ 0 ∷ 0 ∷ 0 ∷ 0 ∷ 0 ∷ 0 ∷ []) }
    ensures user { (digest : List ℕ) → row_at (opened closed) (with_org [] (codes "Acme") digest) (User 1 (codes "005000000000000"))
        ≡ Some (0 ∷ 0 ∷ 0 ∷ 4 ∷ 65 ∷ 99 ∷ 109 ∷ 101 ∷ (digest ++ 0 ∷ 1 ∷ [])) }
    ensures other { (digest : List ℕ) → row_at (opened closed) (with_org [] (codes "Acme") digest) (Org 2) ≡ None }
    ensures closed { row_at closed [] Version ≡ None }
{}

/// The rows of two records while a field's type is changed, worked by hand. The call does nothing.
pub fn change_rows()
    // Up to the cursor there is the value in both types, and past it in the one.
    ensures copied { row_in acme_plan (acme phase.Copy outcome.Open) (Data 1 0 first.id)
        ≡ Some (row_bytes data_form (record {
          org = 1;
          object = 0;
          id = first.id;
          name = Some (codes "A");
          owner = None;
          created = pos 5;
          modified = pos 6;
          slots = None ∷ None ∷ None ∷ Some (codes "7") ∷ None ∷ Some (codes "7") ∷ replicate 42 None;
        })) }
    ensures uncopied { row_in acme_plan (acme phase.Copy outcome.Open) (Data 1 0 second.id)
        ≡ Some (row_bytes data_form (record {
          org = 1;
          object = 0;
          id = second.id;
          name = None;
          owner = None;
          created = pos 7;
          modified = pos 8;
          slots = None ∷ None ∷ None ∷ Some (codes "9") ∷ replicate 44 None;
        })) }

    // Up to the cursor nothing is left, and past it what was.
    ensures cleared { row_in acme_plan (acme phase.Clear outcome.Switched) (Data 1 0 first.id)
        ≡ Some (row_bytes data_form (record {
          org = 1;
          object = 0;
          id = first.id;
          name = Some (codes "A");
          owner = None;
          created = pos 5;
          modified = pos 6;
          slots = None ∷ None ∷ None ∷ Some (codes "7") ∷ replicate 44 None;
        })) }
    ensures gone { row_in acme_plan (acme phase.Clear outcome.Switched) (Index 1 0 5 (order_key (value.Day (pos 1))) first.id) ≡ None }
    ensures left { row_in acme_plan (acme phase.Clear outcome.Switched) (Index 1 0 5 (order_key (value.Day (pos 1))) second.id)
        ≡ Some [] }

    // Values are indexed by their order keys.
    ensures indexed { row_in acme_plan (acme phase.Copy outcome.Open) (Index 1 0 3 (order_key (value.Num (pos 700000000))) first.id)
        ≡ Some [] }

    // The type is that of what is in the slot of the change.
    ensures copying { row_in acme_plan (acme phase.Copy outcome.Open) (Job 1)
        ≡ Some (row_bytes job_form (record {
          org = 1;
          object = 0;
          field = 0;
          kind = type.Text 10;
          twin = 5;
          phase = phase.Copy;
          outcome = outcome.Open;
          cursor = Some first.id;
          failed = None;
        })) }
    ensures clearing { row_in acme_plan (acme phase.Clear outcome.Switched) (Job 1)
        ≡ Some (row_bytes job_form (record {
          org = 1;
          object = 0;
          field = 0;
          kind = type.Day;
          twin = 5;
          phase = phase.Clear;
          outcome = outcome.Switched;
          cursor = Some first.id;
          failed = None;
        })) }
{}

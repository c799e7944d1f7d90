ghost use Rattle.std.specs.Prelude.{◌++◌, ◌<◌, ◌^◌, ◌≡◌, ℕ, IsTrue, List, None, Some, false, true};
ghost use Rattle.std.specs.List.{AllByRecursion};
ghost use Rattle.store_kv.specs.Prefixes.{raised};
ghost use Rattle.store_kv.specs.Tables.{Tables, is_between, rows_between};
ghost use Rattle.store_rows.specs.Keys.{FitsKey, Key, spell};
ghost use Rattle.model.specs.Sound.{IsSound};
ghost use Rattle.model.specs.Tenant.{Tenant};
ghost use Rattle.model.specs.World.{World, tenant_at, with_tenant};
ghost use Rattle.store_codec.specs.Plain.{number32};
ghost use Rattle.store_abstraction.specs.Changes.{Change, IsOf, is_changed, with_changes};
ghost use Rattle.store_abstraction.specs.Local.{IsIn, KeepsOthers, StandsIn, is_own, is_place_of, is_under, part_of};
ghost use Rattle.store_abstraction.specs.Plan.{FitsPlan, OrgPlan, Plan, with_plan};
ghost use Rattle.store_abstraction.specs.Stands.{StandsBy, org_of_key, row_in};

use model::tenant_laws;
use store_kv::{key_laws, walk_laws};
use store_rows::table_laws;

/// The laws of one organisation's rows, whatever the rows of others are. The call does nothing.
pub fn local_laws()
    // A key is at a place of the organisation whose key it is.
    ensures own { (n : ℕ) (k : Key) → n < 2 ^ 32 → FitsKey k → is_place_of n (spell k) ≡ is_own n k }

    // Tables that stand for a world stand for each of its organisations, and past the last for none.
    ensures each { (p : Plan) (m : Tables) (w : World) (n : ℕ) → n < 2 ^ 32 → StandsBy p m w
        → StandsIn n (p.org n) m (tenant_at w n) }

    // If the organisation's rows are another tenant's, and no row of others changes, the tables stand for the world with it.
    ensures whole { (p : Plan) (m after : Tables) (w : World) (n : ℕ) (t u : Tenant) (q : OrgPlan)
        → n < 2 ^ 32 → StandsBy p m w → tenant_at w n ≡ Some t
        → StandsIn n q after (Some u) → KeepsOthers n m after
        → StandsBy (with_plan n q p) after (with_tenant w n u) }

    // The same world, if there is still none.
    ensures nobody { (p : Plan) (m after : Tables) (w : World) (n : ℕ) (q : OrgPlan)
        → n < 2 ^ 32 → StandsBy p m w → tenant_at w n ≡ None → StandsIn n q after None → KeepsOthers n m after
        → StandsBy p after w }

    // By the changes that were made: each is to what the other tenant has there, and elsewhere the two have the same.
    ensures edited { (m : Tables) (n : ℕ) (t u : Tenant) (p q : OrgPlan) (changes : List Change)
        → n < 2 ^ 32 → StandsIn n p m (Some t) → IsSound u → FitsPlan q u
        → AllByRecursion (IsOf n q u) changes
        → ((k : Key) → org_of_key k ≡ Some n → is_changed changes k ≡ false → row_in q u k ≡ row_in p t k)
        → StandsIn n q (with_changes changes m) (Some u) }

    // Changes at keys of the organisation leave the rows of others, whatever the tables are.
    ensures kept { (m : Tables) (n : ℕ) (changes : List Change) → n < 2 ^ 32 → AllByRecursion (IsIn n) changes
        → KeepsOthers n m (with_changes changes m) }

    // The keys of an interval that begins with the organisation's number are under it, and there the part has the same rows.
    ensures under { (n : ℕ) (rest above key : List ℕ) → raised (number32 n ++ rest) ≡ Some above
        → IsTrue (is_between (number32 n ++ rest) above key) → is_under (number32 n) key ≡ true }
    ensures listed { (m : Tables) (n table : ℕ) (from below : List ℕ)
        → ((key : List ℕ) → IsTrue (is_between from below key) → is_place_of n (table, key) ≡ true)
        → rows_between m table from below ≡ rows_between (part_of n m) table from below }
{
    key_laws();
    walk_laws();
    table_laws();
    tenant_laws();
}

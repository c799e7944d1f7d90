ghost use Rattle.std.specs.Prelude.{◌≡◌, ◌↔◌, ◌<◌, ◌-◌, ◌^◌, ◌++◌, IsSome, ℕ, Bool, List, Option, Some, None, Result, IsTrue, map as plain_map, take};
ghost use Rattle.std.specs.FinMap as map;
ghost use Rattle.std.specs.List.{AllByRecursion};
ghost use Rattle.std.specs.Option.{option_map};
ghost use Rattle.store_kv.specs.Prefixes.{AreBytes, StartsWith, raised};
ghost use Rattle.store_kv.specs.Tables.{Tables, no_rows, is_between, rows_between};
ghost use Rattle.store_rows.specs.declared.fail.StoreFail.{StoreFail};
ghost use Rattle.store_rows.specs.Forms.{FitsForm, kept_as, row_bytes};
ghost use Rattle.store_rows.specs.Holds.{Holds, with_row};
ghost use Rattle.store_rows.specs.Keys.{Key, spell, FitsKey, key_eq};
ghost use Rattle.store_rows.specs.Listings.{ListsBetween, ListsTo, rows_to};
ghost use Rattle.store_rows.specs.Reads.{FoundAs, MayStandAt, ReadsAs};
ghost use Rattle.store_codec.specs.Plain.{number32};
ghost use Rattle.store_codec.specs.Shapes.{Val};

use crate::form::RowForm;
use store_codec::shape_laws;
use store_kv::{key_laws, walk_laws};

/// The laws by which tables are spoken of by typed keys. The call does nothing.
pub fn table_laws()
    // Two keys are two places.
    ensures equal { (a b : Key) → IsTrue (key_eq a b) ↔ (a ≡ b) }
    ensures apart { (a b : Key) → FitsKey a → FitsKey b → spell a ≡ spell b → a ≡ b }

    // Tables with no row, and what one change makes of the rows.
    ensures empty { (reach : ℕ → Bool) → Holds reach no_rows (λ k. None) }
    ensures put { (reach : ℕ → Bool) (m : Tables) (rows : Key → Option (List ℕ)) (k : Key) (row : List ℕ)
        → FitsKey k → Holds reach m rows → Holds reach (map.insert m (spell k) row) (with_row k (Some row) rows) }
    ensures removed { (reach : ℕ → Bool) (m : Tables) (rows : Key → Option (List ℕ)) (k : Key)
        → FitsKey k → Holds reach m rows → Holds reach (map.remove m (spell k)) (with_row k None rows) }
    ensures same { (reach : ℕ → Bool) (m : Tables) (rows others : Key → Option (List ℕ))
        → ((k : Key) → FitsKey k → rows k ≡ others k) → Holds reach m rows → Holds reach m others }

    // Keys are bytes, and those that begin with a prefix are one interval.
    ensures bytes { (k : Key) → FitsKey k → AreBytes (spell k).1 }
    ensures under { (k : Key) (prefix above : List ℕ) → FitsKey k → raised prefix ≡ Some above
        → (IsTrue (is_between prefix above (spell k).1) ↔ StartsWith prefix (spell k).1) }

    // There is a key above all that begin with an organisation's number and whatever follows it, but for the last number.
    ensures ends { (org : ℕ) (rest : List ℕ) → org < 2 ^ 32 - 1 → IsSome (raised (number32 org ++ rest)) }
{
    shape_laws();
    key_laws();
}

/// The laws of the rows of one form. The call does nothing.
pub fn row_laws<R: RowForm>()
    // One key and one spelling are of one row.
    ensures one { (u v : R) → FitsForm R.form u → FitsForm R.form v → R.form.keyed u ≡ R.form.keyed v
        → row_bytes R.form u ≡ row_bytes R.form v → u ≡ v }

    // What is read is what is known to stand there.
    ensures found { (k : Val R.form.key) (kept : Option (List ℕ)) (there : Option R) (result : Result (Option R) StoreFail)
        → ReadsAs R.form k kept result → kept ≡ option_map (row_bytes R.form) there → MayStandAt R.form k there
        → FoundAs R.form there result }
{
    shape_laws();
}

/// The rows of one form that stand in an interval: what stands for them is what is kept there. The call does nothing.
pub fn listing_laws<R: RowForm>()
    ensures listed { (reach : ℕ → Bool) (m : Tables) (rows : Key → Option (List ℕ)) (from below : List ℕ) (listed : List R)
        → IsTrue (reach R.form.table) → Holds reach m rows → ListsBetween R.form rows from below listed
        → plain_map (kept_as R.form) listed ≡ rows_between m R.form.table from below }
    ensures lists { (reach : ℕ → Bool) (m : Tables) (rows : Key → Option (List ℕ)) (from below : List ℕ) (listed : List R)
        → IsTrue (reach R.form.table) → Holds reach m rows → AllByRecursion (FitsForm R.form) listed
        → plain_map (kept_as R.form) listed ≡ rows_between m R.form.table from below
        → ListsBetween R.form rows from below listed }

    // A page has the first of the rows: these are kept there, and no other rows are read.
    ensures kept { (reach : ℕ → Bool) (m : Tables) (rows : Key → Option (List ℕ)) (from : List ℕ) (above : Option (List ℕ)) (listed : List R) (limit : ℕ)
        → IsTrue (reach R.form.table) → Holds reach m rows → ListsTo R.form rows from above listed
        → AllByRecursion (FitsForm R.form) (take limit listed)
        × (plain_map (kept_as R.form) (take limit listed) ≡ take limit (rows_to m R.form.table from above)) }
    ensures page { (reach : ℕ → Bool) (m : Tables) (rows : Key → Option (List ℕ)) (from : List ℕ) (above : Option (List ℕ)) (listed given : List R) (limit : ℕ)
        → IsTrue (reach R.form.table) → Holds reach m rows → ListsTo R.form rows from above listed
        → AllByRecursion (FitsForm R.form) given → plain_map (kept_as R.form) given ≡ take limit (rows_to m R.form.table from above)
        → given ≡ take limit listed }
{
    shape_laws();
    walk_laws();
}

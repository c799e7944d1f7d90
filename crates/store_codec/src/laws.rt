ghost use Rattle.std.specs.Prelude.{◌≡◌, ◌↔◌, ℕ, List, ◌++◌, Some, IsTrue};
ghost use Rattle.store_kv.specs.Prefixes.{AreBytes, StartsWith};
ghost use Rattle.store_kv.specs.Tables.{bytes_cmp};
ghost use Rattle.store_codec.specs.PartLaws.{IsPart, KeepsOrder};
ghost use Rattle.store_codec.specs.Plain.{whole};
ghost use Rattle.store_codec.specs.Shapes.{Shape, Val, spelled, FitsIn, taken, is_key_shape, in_order, front, front_of};

use base_value::digit_laws;

/// The laws of all shapes. The call does nothing.
pub fn shape_laws()
    // What is read was spelled so and fits, and what is spelled so is read.
    ensures part { (s : Shape) → IsPart (spelled s) (FitsIn s) (taken s) }

    // So a whole key or row is read exactly if it is spelled so.
    ensures whole { (s : Shape) (bytes : List ℕ) (v : Val s) → AreBytes bytes → whole (taken s) bytes ≡ Some v
        → (bytes ≡ spelled s v) × FitsIn s v }
    ensures again { (s : Shape) (v : Val s) → FitsIn s v → whole (taken s) (spelled s v) ≡ Some v }

    // No spelling begins another of its shape.
    ensures apart { (s : Shape) (a b : Val s) (x y : List ℕ) → FitsIn s a → FitsIn s b → spelled s a ++ x ≡ spelled s b ++ y
        → (a ≡ b) × (x ≡ y) }

    // The spellings of the parts of keys are ordered as these in turn.
    ensures ordered { (s : Shape) → IsTrue (is_key_shape s) → KeepsOrder (in_order s) (FitsIn s) (spelled s) }
    ensures compared { (s : Shape) → IsTrue (is_key_shape s) → (a b : Val s) → FitsIn s a → FitsIn s b
        → bytes_cmp (spelled s a) (spelled s b) ≡ in_order s a b }

    // They are bytes, and one begins with the spelling of some first parts exactly if its first parts are these.
    ensures bytes { (s : Shape) → IsTrue (is_key_shape s) → (v : Val s) → FitsIn s v → AreBytes (spelled s v) }
    ensures begins { (n : ℕ) (s : Shape) (v : Val s) (p : Val (front n s)) → FitsIn s v → FitsIn (front n s) p
        → (StartsWith (spelled (front n s) p) (spelled s v) ↔ (front_of n s v ≡ p)) }
{
    digit_laws();
}

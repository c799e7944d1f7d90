ghost use Rattle.std.specs.Prelude.{◌≡◌, ◌↔◌, ◌∷◌, [], IsTrue, codes, negsuc, pos, replicate, true};
ghost use Rattle.std.specs.Cmp.{IsTotalOrder};
ghost use Rattle.std.specs.Cmp.Lexicographic.{slice_cmp};
ghost use Rattle.std.specs.Ordering.{nat_cmp};
ghost use Rattle.std.specs.declared.cmp.Ordering.TheVariants.{Less, Equal};
ghost use Rattle.base_value.specs.Bytes.{IsBytes};
ghost use Rattle.base_value.specs.OrderKeys.{Fits, order_key};
ghost use Rattle.base_value.specs.Types.{is_type};
ghost use Rattle.base_value.specs.Values.{cmp, equal, valid};
ghost use Rattle.base_value.specs.declared.value.FieldType.{FieldType};
ghost use Rattle.base_value.specs.declared.value.Value.{Value};
ghost use Rattle.base_value.specs.declared.value.Value.TheVariants as value;

/// Order keys are bytes, ordered as their values, and equal exactly where these are. The order of values is total. The
/// call does nothing.
pub fn order_laws()
    ensures ordered { (a b : Value) → Fits a → Fits b → slice_cmp nat_cmp (order_key a) (order_key b) ≡ cmp a b }
    ensures same { (a b : Value) → Fits a → Fits b → (order_key a ≡ order_key b) ↔ IsTrue (equal a b) }
    ensures bytes { (kind : FieldType) (v : Value) → IsTrue (is_type kind) → IsTrue (valid kind v) → IsBytes (order_key v) }
    ensures total { IsTotalOrder cmp }
{}

/// Order keys and comparisons, worked by hand.
pub fn order_rows()
    ensures null { order_key value.Null ≡ 0 ∷ [] }
    ensures text { order_key (value.Text (97 ∷ 0xDF ∷ [])) ≡ 1 ∷ codes "ass" }
    ensures zero { order_key (value.Num (pos 0)) ≡ 2 ∷ 128 ∷ replicate 15 0 }
    ensures minus_one { order_key (value.Num (negsuc 0)) ≡ 2 ∷ 127 ∷ replicate 15 255 }
    ensures day_before { order_key (value.Day (negsuc 0)) ≡ 3 ∷ 127 ∷ replicate 3 255 }
    ensures epoch { order_key (value.Moment (pos 0)) ≡ 4 ∷ 128 ∷ replicate 7 0 }
    ensures id { order_key (value.Ref (codes "a00000000000001")) ≡ 5 ∷ codes "a00000000000001" }
    ensures truth { order_key (value.Bool true) ≡ 6 ∷ 1 ∷ [] }
    ensures signs { slice_cmp nat_cmp (order_key (value.Num (negsuc 0))) (order_key (value.Num (pos 1))) ≡ Less }
    ensures street { cmp (value.Text (83 ∷ 116 ∷ 114 ∷ 97 ∷ 0xDF ∷ 101 ∷ [])) (value.Text (codes "STRASSE")) ≡ Equal }
{}

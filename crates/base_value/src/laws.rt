ghost use Rattle.std.specs.Prelude.{◌≡◌, ◌+◌, ◌<◌, ◌≤◌, ◌^◌, ◌↔◌, List, [], ◌∷◌, ℕ, IsTrue, Ok, Some, None, bytes_eq, codes, false, length, negsuc, refl};
ghost use Rattle.std.specs.List.{AllByRecursion, list_all};
ghost use Rattle.std.specs.Ordering.{eq_by_cmp, nat_cmp};
ghost use Rattle.std.specs.Cmp.{IsTotalOrder};
ghost use Rattle.std.specs.Cmp.Lexicographic.{slice_cmp};
ghost use Rattle.base_value.specs.Causes.{RoseBy, last_count};
ghost use Rattle.base_value.specs.Digits.{digits_value};
ghost use Rattle.base_value.specs.Id.{IsTextOf, is_digit62, is_id, made, number_in, print18};
ghost use Rattle.std.specs.Str.{all_scalars};
ghost use Rattle.base_value.specs.Conversion.{convert};
ghost use Rattle.base_value.specs.OrderKeys.{Fits};
ghost use Rattle.base_value.specs.Printing.{is_printable, print_value};
ghost use Rattle.base_value.specs.Reading.{read_value};
ghost use Rattle.base_value.specs.Types.{is_reference, is_type};
ghost use Rattle.base_value.specs.Values.{ref_of, valid};
ghost use Rattle.base_value.specs.Principals.{principal_cmp};
ghost use Rattle.base_value.specs.declared.sharing.Principal.{Principal};
ghost use Rattle.base_value.specs.declared.value.FieldType.{FieldType};
ghost use Rattle.base_value.specs.declared.value.FieldType.TheVariants as type;
ghost use Rattle.base_value.specs.declared.value.Value.{Value};
ghost use Rattle.base_value.specs.declared.value.Value.TheVariants as value;

/// How often a count rose adds up over one call and the next. The call does nothing.
pub fn cause_laws()
    ensures none { (count : ℕ) → count ≤ last_count → RoseBy 0 count count }
    ensures sum { (m n before between now : ℕ) → RoseBy m before between → RoseBy n between now → RoseBy (m + n) before now }
    ensures fewer { (m n before now : ℕ) → m ≤ n → RoseBy n before now → RoseBy m before now }
{}

/// As many digits of one base are ordered as the numbers that they spell. The call does nothing.
pub fn digit_laws()
    ensures ordered { (base : ℕ) (xs ys : List ℕ) → AllByRecursion (λ d. d < base) xs → AllByRecursion (λ d. d < base) ys
        → length xs ≡ length ys → slice_cmp nat_cmp xs ys ≡ nat_cmp (digits_value base xs) (digits_value base ys) }
{}

/// What holds of ids: a prefix and a number make an id, and different numbers make different ones, in their order.
///
/// The number of an id is read from it again, and a text is of one id at most. So, with the clauses of `Id::read`, what
/// was printed reads as the same id. Two ids are equal for `==` exactly where they are the same.
pub fn id_laws()
    ensures made { (prefix : List ℕ) (n : ℕ) → length prefix ≡ 3 → IsTrue (list_all is_digit62 prefix) → IsTrue (is_id (made prefix n)) }
    ensures different { (prefix : List ℕ) (m n : ℕ) → m < 62 ^ 12 → n < 62 ^ 12 → made prefix m ≡ made prefix n → m ≡ n }
    ensures ordered { (prefix : List ℕ) (m n : ℕ) → m < 62 ^ 12 → n < 62 ^ 12 → slice_cmp nat_cmp (made prefix m) (made prefix n) ≡ nat_cmp m n }
    ensures number { (prefix : List ℕ) (n : ℕ) → length prefix ≡ 3 → n < 10 ^ 15 → number_in prefix (made prefix n) ≡ Some n }
    ensures numbered { (prefix id : List ℕ) (n : ℕ) → IsTrue (is_id id) → number_in prefix id ≡ Some n → id ≡ made prefix n }
    ensures printed { (id : List ℕ) → IsTextOf id (print18 id) }
    ensures same { (a b : List ℕ) → IsTrue (bytes_eq a b) ↔ (a ≡ b) }
    ensures one { (a b text : List ℕ) → IsTrue (is_id a) → IsTrue (is_id b) → IsTextOf a text → IsTextOf b text → a ≡ b }
{}

/// Principals are equal for `==` exactly where they are the same, and their order is total. The call does nothing.
pub fn principal_laws()
    ensures same { (p q : Principal) → IsTrue (eq_by_cmp principal_cmp p q) ↔ (p ≡ q) }
    ensures total { IsTotalOrder principal_cmp }
{}

/// Ids and their forms of 18 characters, worked by hand.
pub fn id_rows()
    ensures first { made (codes "a00") 1 ≡ codes "a00000000000001" }
    ensures last { made (codes "005") 999999999999999 ≡ codes "0050004ZxYle1gV" }
    ensures plain { print18 (codes "a00000000000001") ≡ codes "a00000000000001AAA" }
    ensures capital { print18 (codes "a0000000000000A") ≡ codes "a0000000000000AAAQ" }
    ensures organisation { print18 (codes "00D000000000001") ≡ codes "00D000000000001EAA" }
{}

/// Values of types within their bounds, worked by hand: the premises of `value_laws` and of `order_laws` can be met, and
/// a value of a reference refers to something.
pub fn law_rows()
    ensures number { IsTrue (is_type (type.Number 3 1)) × IsTrue (valid (type.Number 3 1) (value.Num (negsuc 149999999)))
        × (is_reference (type.Number 3 1) ≡ false) }
    ensures text { IsTrue (is_type (type.Text 2)) × IsTrue (valid (type.Text 2) (value.Text (97 ∷ 0xDF ∷ [])))
        × (is_reference (type.Text 2) ≡ false) }
    ensures reference { IsTrue (is_type (type.Master 1)) × IsTrue (valid (type.Master 1) (value.Ref (codes "a00000000000001")))
        × (ref_of (value.Ref (codes "a00000000000001")) ≡ Some (codes "a00000000000001")) }
{}

/// What holds of values: one that is read or converted is valid for its type. What is printed of a valid one reads back
/// as it, and has at most 255 characters; its numbers fit their types, and it refers to nothing if its type isn't a
/// reference. The call does nothing.
pub fn value_laws()
    ensures read { (kind : FieldType) (text : List ℕ) (v : Value) → IsTrue (all_scalars text)
        → read_value kind text ≡ Ok v → IsTrue (valid kind v) }
    ensures printed { (kind : FieldType) (v : Value) → IsTrue (is_type kind) → IsTrue (valid kind v)
        → read_value kind (print_value v) ≡ Ok v }
    ensures printable { (kind : FieldType) (v : Value) → IsTrue (valid kind v) → IsTrue (is_printable v) }
    ensures fits { (kind : FieldType) (v : Value) → IsTrue (is_type kind) → IsTrue (valid kind v) → Fits v }
    ensures short { (kind : FieldType) (v : Value) → IsTrue (is_type kind) → IsTrue (valid kind v) → length (print_value v) ≤ 255 }
    ensures scalars { (kind : FieldType) (v : Value) → IsTrue (is_type kind) → IsTrue (valid kind v) → IsTrue (all_scalars (print_value v)) }
    ensures plain { (kind : FieldType) (v : Value) → is_reference kind ≡ false → IsTrue (valid kind v) → ref_of v ≡ None }
    ensures converted { (from to : FieldType) (v w : Value) → IsTrue (is_type from)
        → IsTrue (valid from v) → convert to v ≡ Some w → IsTrue (valid to w) }
{}

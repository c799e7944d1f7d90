//! What is written is read again.

ghost use Rattle.std.specs.Prelude.{◌≡◌, ℤ, ℕ, List, ◌∷◌, [], ◌++◌, ◌<◌, IsTrue, Some, codes, encode_utf8_all};
ghost use Rattle.std.specs.List.{list_all};
ghost use Rattle.base_json.specs.Grammar.{IsText, Quoted, Spells, depth};
ghost use Rattle.base_value.specs.Numerals.{exact_bound};
ghost use Rattle.base_value.specs.Printing.{print_number};
ghost use Rattle.base_json.specs.Numerals.{Numeral};
ghost use Rattle.base_json.specs.Printing.{is_plain, printed_text, size, Ends};
ghost use Rattle.base_json.specs.Reading.{text as json_in};
ghost use Rattle.base_json.specs.Whole.{printed, Fits};
ghost use Rattle.base_json.specs.declared.tree.Json.{Json};
ghost use Rattle.base_json.specs.declared.tree.Json.TheVariants as json;
ghost use Rattle.base_json.specs.declared.tree.Num.TheVariants.{Exact};

/// A text of plain characters is printed as it is, in quotation marks. What is printed is read, also in front of more text: a number
/// that is small enough, each text, and each whole value of such numbers in which no more than 32 brackets are open. A value that is
/// read is one that the grammar spells so.
pub fn json_laws()
    ensures plain { (text : List ℕ) → IsTrue (list_all is_plain text) → printed_text text ≡ 34 ∷ (text ++ 34 ∷ []) }
    ensures numbers { (z : ℤ) (rest : List ℕ) → size z < exact_bound → Ends rest → Numeral (print_number z ++ rest) (Exact z) rest }
    ensures texts { (cs rest : List ℕ) → Quoted (printed_text cs ++ rest) cs rest }
    ensures values { (v : Json) → Fits depth v → Spells (encode_utf8_all (printed depth v)) v }
    ensures spelled { (cs : List ℕ) (v : Json) → json_in cs ≡ Some v → IsText cs v }
{}

/// Texts that are plain or read, worked by hand: the premises of `json_laws` can be met. The call does nothing.
pub fn law_rows()
    ensures plain { IsTrue (list_all is_plain (codes "Deal__c")) }
    ensures printed { printed_text (codes "Deal__c") ≡ codes "\"Deal__c\"" }
    ensures read { json_in (codes " null") ≡ Some json.Null }
{}

//! What holds of texts of formulas, for the layers above.

ghost use Rattle.std.specs.Prelude.{◌≡◌, ℕ, Bool, List, Some, None};
ghost use Rattle.formula.specs.declared.formula.Formula.{Formula};
ghost use Rattle.formula.specs.declared.formula.NamedField.{NamedField};
ghost use Rattle.formula.specs.grammar.Spelling.{IsRefusedAt, Spells, formula_in, place_in};

/// What holds of texts and the formulas that they spell. The call does nothing.
pub fn spelling_laws()
    // `formula_in` computes the one formula that a text spells.
    ensures spelled { (criteria : Bool) (fields : List NamedField) (text : List ℕ) (f : Formula)
        → formula_in criteria fields text ≡ Some f → Spells criteria fields text f }
    ensures computed { (criteria : Bool) (fields : List NamedField) (text : List ℕ) (f : Formula)
        → Spells criteria fields text f → formula_in criteria fields text ≡ Some f }

    // A text that spells none is refused at one place, which `place_in` computes.
    ensures refused { (criteria : Bool) (fields : List NamedField) (text : List ℕ) (end : ℕ)
        → formula_in criteria fields text ≡ None → IsRefusedAt criteria fields text end (place_in criteria fields text end) }
    ensures one_place { (criteria : Bool) (fields : List NamedField) (text : List ℕ) (end p q : ℕ)
        → IsRefusedAt criteria fields text end p → IsRefusedAt criteria fields text end q → p ≡ q }
{}

//! What holds of formulas, for the layers above.

ghost use Rattle.std.specs.Prelude.{◌≡◌, List, Option, not, flat_map};
ghost use Rattle.std.specs.List.{list_all, list_any};
ghost use Rattle.formula.specs.Meaning.{holds};
ghost use Rattle.formula.specs.Naming.{names};
ghost use Rattle.formula.specs.declared.formula.Formula.{Formula};
ghost use Rattle.formula.specs.declared.formula.Formula.TheVariants as formula;
ghost use Rattle.base_value.specs.declared.value.Value.{Value};

/// What formulas within others mean, and which fields they name, by the lists that the code sees. The call does nothing.
pub fn formula_laws()
    // NOT is true where its formula isn't, AND where all are, OR where some is.
    ensures negation { (f : Formula) (new : List Value) (old : Option (List Value))
        → holds (formula.Not f) new old ≡ not (holds f new old) }
    ensures all { (fs : List Formula) (new : List Value) (old : Option (List Value))
        → holds (formula.And fs) new old ≡ list_all (λ f. holds f new old) fs }
    ensures some { (fs : List Formula) (new : List Value) (old : Option (List Value))
        → holds (formula.Or fs) new old ≡ list_any (λ f. holds f new old) fs }

    // They name what their formulas name.
    ensures within_not { (f : Formula) → names (formula.Not f) ≡ names f }
    ensures within_and { (fs : List Formula) → names (formula.And fs) ≡ flat_map names fs }
    ensures within_or { (fs : List Formula) → names (formula.Or fs) ≡ flat_map names fs }
{}

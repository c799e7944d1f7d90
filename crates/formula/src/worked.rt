//! Formulas whose truth was worked out by hand. A comment has the text of the formula; `F` is a field, and so is `G`.

ghost use Rattle.std.specs.Prelude.{◌≡◌, ◌∷◌, [], codes, true, false, pos, negsuc};
ghost use Rattle.formula.specs.Naming.{names};
ghost use Rattle.formula.specs.Worked.{accented_e, fell, field, fields, on_new, on_old, street, whole};
ghost use Rattle.formula.specs.declared.formula.Formula.TheVariants.{Const, IsNew, Not, And, Or, IsBlank, IsChanged, IsPickval, Compare};
ghost use Rattle.formula.specs.declared.formula.Relation.TheVariants.{Equal, NotEqual, Less, LessEqual, Greater, GreaterEqual};
ghost use Rattle.formula.specs.declared.formula.Term.TheVariants as term;
ghost use Rattle.base_value.specs.declared.value.Value.TheVariants.{Null, Text, Num, Bool, Day, Moment, Ref};

/// A field compared with another: `F = G` and its like. The call does nothing.
pub fn comparison_rows()
    // Null beside null, null before a value and a value before null.
    ensures nulls_equal { fields Null Equal Null ≡ true }
    ensures null_equal { fields Null Equal (Text (codes "Ada")) ≡ false }
    ensures equal_null { fields (Num (pos 0)) Equal Null ≡ false }
    ensures nulls_differ { fields Null NotEqual Null ≡ false }
    ensures null_differs { fields Null NotEqual (Num (pos 0)) ≡ true }
    ensures differs_null { fields (Text (codes "Ada")) NotEqual Null ≡ true }
    ensures null_less { fields Null Less (Num (pos 1)) ≡ false }
    ensures less_null { fields (Num (negsuc 0)) Less Null ≡ false }
    ensures nulls_at_most { fields Null LessEqual Null ≡ false }
    ensures nulls_at_least { fields Null GreaterEqual Null ≡ false }
    ensures greater_null { fields (Day (pos 0)) Greater Null ≡ false }

    // Texts: with case, by the numbers of their characters (Z is 90, a 97, z 122, é 233), a prefix first.
    ensures same_text { fields (Text (codes "Ada")) Equal (Text (codes "Ada")) ≡ true }
    ensures other_case { fields (Text (codes "ada")) Equal (Text (codes "Ada")) ≡ false }
    ensures case_differs { fields (Text (codes "ada")) NotEqual (Text (codes "Ada")) ≡ true }
    ensures capital_first { fields (Text (codes "Z")) Less (Text (codes "a")) ≡ true }
    ensures accent_last { fields (Text accented_e) Greater (Text (codes "z")) ≡ true }
    ensures prefix_first { fields (Text (codes "Ad")) Less (Text (codes "Ada")) ≡ true }
    ensures text_at_least { fields (Text (codes "Ada")) GreaterEqual (Text (codes "Ada")) ≡ true }

    // Numbers: 0.00000001 and 0; -0.5 and -0.25; 1.5 and 1.50; 1 and 1.00000001.
    ensures last_place { fields (Num (pos 1)) Greater (Num (pos 0)) ≡ true }
    ensures below_zero { fields (Num (negsuc 49999999)) Less (Num (negsuc 24999999)) ≡ true }
    ensures same_number { fields (Num (pos 150000000)) Equal (Num (pos 150000000)) ≡ true }
    ensures near { fields (Num (whole 1)) Equal (Num (pos 100000001)) ≡ false }

    // A value beside itself.
    ensures not_less { fields (Num (whole 1)) Less (Num (whole 1)) ≡ false }
    ensures at_most { fields (Num (whole 1)) LessEqual (Num (whole 1)) ≡ true }
    ensures not_greater { fields (Num (whole 1)) Greater (Num (whole 1)) ≡ false }

    // 2024-02-29 and 2024-03-01; 1969-12-31 and 1970-01-01; the first seconds of these two days.
    ensures leap_day { fields (Day (pos 19782)) Less (Day (pos 19783)) ≡ true }
    ensures day_before { fields (Day (negsuc 0)) GreaterEqual (Day (pos 0)) ≡ false }
    ensures second_before { fields (Moment (negsuc 86399)) LessEqual (Moment (pos 0)) ≡ true }
    ensures same_second { fields (Moment (pos 1303819200)) NotEqual (Moment (pos 1303819200)) ≡ false }

    // False comes before true.
    ensures truths { fields (Bool false) Less (Bool true) ≡ true }
    ensures same_truth { fields (Bool false) Equal (Bool false) ≡ true }
{}

/// Texts, numbers, LEN and PRIORVALUE beside a field. The call does nothing.
pub fn term_rows()
    // F = "", F <> "" and F < "": the empty text counts as null.
    ensures empty_is_null { on_new Null (Compare field Equal (term.Text [])) ≡ true }
    ensures empty_is_nothing { on_new (Text (codes "Ada")) (Compare field Equal (term.Text [])) ≡ false }
    ensures not_empty { on_new (Text (codes "Ada")) (Compare field NotEqual (term.Text [])) ≡ true }
    ensures less_empty { on_new (Text (codes "Ada")) (Compare (term.Text []) Less field) ≡ false }
    ensures empties { on_new Null (Compare (term.Text []) Equal (term.Text [])) ≡ true }

    // F = "Ada" and F > -0.00000001.
    ensures written_text { on_new (Text (codes "Ada")) (Compare field Equal (term.Text (codes "Ada"))) ≡ true }
    ensures written_number { on_new (Num (pos 0)) (Compare field Greater (term.Num (negsuc 0))) ≡ true }

    // LEN(F) = 0, LEN(F) = 6 on Straße, which has 7 bytes, LEN(F) > 2.99999999 on Ada, and 1 = LEN(F) on a blank.
    ensures len_of_null { on_new Null (Compare (term.Len 0) Equal (term.Num (whole 0))) ≡ true }
    ensures len_of_street { on_new (Text street) (Compare (term.Len 0) Equal (term.Num (whole 6))) ≡ true }
    ensures len_of_name { on_new (Text (codes "Ada")) (Compare (term.Len 0) Greater (term.Num (pos 299999999))) ≡ true }
    ensures len_of_blank { on_new (Text (codes " ")) (Compare (term.Num (whole 1)) Equal (term.Len 0)) ≡ true }

    // PRIORVALUE(F) = 1 where F was 1 and is 2, and on a new record with 1; F = PRIORVALUE(F) on any new record.
    ensures prior { on_old (Num (whole 1)) (Num (whole 2)) (Compare (term.Prior 0) Equal (term.Num (whole 1))) ≡ true }
    ensures prior_of_new { on_new (Num (whole 1)) (Compare (term.Prior 0) Equal (term.Num (whole 1))) ≡ true }
    ensures prior_is_now { on_new (Text (codes "Ada")) (Compare field Equal (term.Prior 0)) ≡ true }
    ensures prior_null { on_old Null (Text (codes "Ada")) (Compare (term.Prior 0) Equal (term.Text [])) ≡ true }
    // LEN(F) is of the value now.
    ensures len_is_now { on_old (Text (codes "Ada")) Null (Compare (term.Len 0) Equal (term.Num (whole 0))) ≡ true }
{}

/// ISBLANK, ISPICKVAL, ISNEW and ISCHANGED. The call does nothing.
pub fn test_rows()
    // ISBLANK(F)
    ensures blank { on_new Null (IsBlank 0) ≡ true }
    ensures not_blank { on_new (Text (codes " ")) (IsBlank 0) ≡ false }
    ensures zero_not_blank { on_new (Num (pos 0)) (IsBlank 0) ≡ false }
    ensures truth_not_blank { on_new (Bool false) (IsBlank 0) ≡ false }
    ensures reference_not_blank { on_new (Ref (codes "a00000000000001")) (IsBlank 0) ≡ false }
    ensures blank_now { on_old (Text (codes "Ada")) Null (IsBlank 0) ≡ true }

    // ISPICKVAL(F, "Open") and ISPICKVAL(F, "")
    ensures picked { on_new (Text (codes "Open")) (IsPickval 0 (codes "Open")) ≡ true }
    ensures picked_other { on_new (Text (codes "Shut")) (IsPickval 0 (codes "Open")) ≡ false }
    ensures picked_case { on_new (Text (codes "open")) (IsPickval 0 (codes "Open")) ≡ false }
    ensures picked_none { on_new Null (IsPickval 0 (codes "Open")) ≡ false }
    ensures picked_empty { on_new Null (IsPickval 0 []) ≡ false }

    // ISNEW()
    ensures is_new { on_new Null IsNew ≡ true }
    ensures not_new { on_old Null Null IsNew ≡ false }

    // ISCHANGED(F)
    ensures new_unchanged { on_new (Text (codes "Ada")) (IsChanged 0) ≡ false }
    ensures changed { on_old (Text (codes "Ada")) (Text (codes "Bob")) (IsChanged 0) ≡ true }
    ensures unchanged { on_old (Text (codes "Ada")) (Text (codes "Ada")) (IsChanged 0) ≡ false }
    ensures changed_case { on_old (Text (codes "Ada")) (Text (codes "ADA")) (IsChanged 0) ≡ true }
    ensures changed_from_null { on_old Null (Ref (codes "a00000000000001")) (IsChanged 0) ≡ true }
    ensures changed_to_null { on_old (Num (pos 0)) Null (IsChanged 0) ≡ true }
    ensures null_unchanged { on_old Null Null (IsChanged 0) ≡ false }
{}

/// TRUE, FALSE, NOT, AND and OR, and these within each other. The call does nothing.
pub fn logic_rows()
    ensures always { on_new Null (Const true) ≡ true }
    ensures never { on_new Null (Const false) ≡ false }
    ensures negated { on_new Null (Not (Const true)) ≡ false }
    ensures negated_twice { on_new Null (Not (Not (Const true))) ≡ true }
    ensures all_true { on_new Null (And (Const true ∷ IsNew ∷ [])) ≡ true }
    ensures all_but_one { on_new Null (And (Const true ∷ Const false ∷ Const true ∷ [])) ≡ false }
    ensures only_one { on_new Null (And (Const false ∷ [])) ≡ false }
    ensures some_true { on_new Null (Or (Const false ∷ Const false ∷ Const true ∷ [])) ≡ true }
    ensures none_true { on_new Null (Or (Const false ∷ Const false ∷ [])) ≡ false }

    // AND(NOT(ISNEW()), OR(ISBLANK(F), AND(ISCHANGED(F), F < PRIORVALUE(F)))): a number was taken away or became less.
    ensures less_than_before { on_old (Num (pos 2)) (Num (pos 1)) fell ≡ true }
    ensures taken_away { on_old (Num (pos 2)) Null fell ≡ true }
    ensures more_than_before { on_old (Num (pos 1)) (Num (pos 2)) fell ≡ false }
    ensures not_there_before { on_new Null fell ≡ false }
{}

/// The fields that formulas name. The call does nothing.
pub fn naming_rows()
    ensures nothing { names (Or (IsNew ∷ Const true ∷ [])) ≡ [] }
    ensures tests { names (And (IsBlank 3 ∷ IsChanged 1 ∷ Not (IsPickval 2 (codes "Open")) ∷ [])) ≡ 3 ∷ 1 ∷ 2 ∷ [] }
    ensures terms { names (Compare (term.Len 4) Less (term.Num (pos 5))) ≡ 4 ∷ [] }
    ensures twice { names (Compare (term.Field 6) Greater (term.Prior 6)) ≡ 6 ∷ 6 ∷ [] }
{}

//! Texts of formulas, judged on records. Each was worked out by hand.

ghost use Rattle.std.specs.Prelude.{◌≡◌, ◌∷◌, [], ◌++◌, codes, true, false, Some, None};
ghost use Rattle.formula.specs.Worked.{whole};
ghost use Rattle.formula_parser.specs.Texts.{by_criteria, judged, judged_before, of_deal, quoted};
ghost use Rattle.base_value.specs.declared.value.Value.TheVariants.{Null, Text, Num, Bool};

/// Texts on a record with a `Name`, a picklist `Stage__c`, a number `Amount__c` and a truth value `Closed__c`. The call does
/// nothing.
pub fn spelled_rows()
    // A large deal is open: with the value, with it in another case, and with no number.
    ensures large { judged (of_deal (codes "Ada") (Text (codes "Open")) (Num (whole 150)))
        (codes "AND(ISPICKVAL(Stage__c, " ++ quoted (codes "Open") ++ codes "), Amount__c > 100)") ≡ Some true }
    ensures other_case { judged (of_deal (codes "Ada") (Text (codes "open")) (Num (whole 150)))
        (codes "AND(ISPICKVAL(Stage__c, " ++ quoted (codes "Open") ++ codes "), Amount__c > 100)") ≡ Some false }
    ensures no_number { judged (of_deal (codes "Ada") (Text (codes "Open")) Null)
        (codes "AND(ISPICKVAL(Stage__c, " ++ quoted (codes "Open") ++ codes "), Amount__c > 100)") ≡ Some false }

    // The case of words and names doesn't matter.
    ensures words { judged (of_deal (codes "Ada") Null (Num (whole 101))) (codes "not(AMOUNT__C <= 100)") ≡ Some true }

    // A name is missing, or too short.
    ensures missing { judged (of_deal (codes "Ada") Null Null) (codes "Stage__c = " ++ quoted []) ≡ Some true }
    ensures too_short { judged (of_deal (codes "Ad") Null Null) (codes "OR(ISBLANK(Name), LEN(Name) < 3)") ≡ Some true }
    ensures long_enough { judged (of_deal (codes "Ada") Null Null) (codes "OR(ISBLANK(Name), LEN(Name) < 3)") ≡ Some false }
    ensures nulls { judged (of_deal (codes "Ada") Null Null) (codes "Stage__c <> " ++ quoted []) ≡ Some false }

    // A number became less, on a record that was there before and on a new one.
    ensures less { judged_before (of_deal (codes "Ada") Null (Num (whole 7))) (of_deal (codes "Ada") Null (Num (whole 5)))
        (codes "AND(ISCHANGED(Amount__c), Amount__c < PRIORVALUE(Amount__c))") ≡ Some true }
    ensures not_new { judged (of_deal (codes "Ada") Null (Num (whole 5)))
        (codes "AND(ISCHANGED(Amount__c), Amount__c < PRIORVALUE(Amount__c))") ≡ Some false }
    ensures new { judged (of_deal (codes "Ada") Null Null) (codes "AND(ISNEW(), NOT(Closed__c = PRIORVALUE(Closed__c)))") ≡ Some false }

    // What was before has no place in a rule by criteria.
    ensures criteria { by_criteria (codes "Amount__c > 1.5") (of_deal (codes "Ada") Null (Num (whole 2))) ≡ Some true }
    ensures no_past { by_criteria (codes "ISCHANGED(Amount__c)") (of_deal (codes "Ada") Null Null) ≡ None }

    // Another kind beside a term, and a word that isn't a field.
    ensures other_kind { judged (of_deal (codes "Ada") Null Null) (codes "Amount__c = Name") ≡ None }
    ensures no_field { judged (of_deal (codes "Ada") Null Null) (codes "ISBLANK(Price__c)") ≡ None }
{}

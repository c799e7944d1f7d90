//! How texts of formulas are read.

ghost use Rattle.std.specs.Prelude.{◌≡◌, ◌∷◌, ◌++◌, [], ℕ, Bool, Err, List, Ok, codes, true};
ghost use Rattle.formula.specs.declared.formula.Formula.{Formula};
ghost use Rattle.formula.specs.declared.formula.Formula.TheVariants as formula;
ghost use Rattle.formula.specs.grammar.Spelling.{IsRefusedAt, Spells};
ghost use Rattle.base_grammar.specs.Tokens.{byte_len};
ghost use Rattle.model.specs.Tenant.{Object};
ghost use Rattle.model_invariant.specs.rule_text.Reading.{ReadsFormulas};
ghost use Rattle.model.specs.FormulaTexts.{formula_fields, reads_text};
ghost use Rattle.model_invariant.specs.rule_text.WorkedTexts.{amount, custom_field, over_five, quoted, read_over};
ghost use Rattle.base_value.specs.declared.value.FieldType.TheVariants as type;

use base_grammar::token_laws;
use formula::{formula_laws, spelling_laws};

/// Texts are read by the grammar of formulas, as the laws of sound formulas suppose. The call does nothing.
pub fn text_laws()
    // What is read is spelled, and what is spelled is read.
    ensures spelled { (o : Object) (criteria : Bool) (text : List ℕ) (f : Formula)
        → reads_text o criteria text ≡ Ok f → Spells criteria (formula_fields o.fields) text f }
    ensures read { (o : Object) (criteria : Bool) (text : List ℕ) (f : Formula)
        → Spells criteria (formula_fields o.fields) text f → reads_text o criteria text ≡ Ok f }
    // The place at which a text is refused is the defined one.
    ensures refused { (o : Object) (criteria : Bool) (text : List ℕ) (place : ℕ)
        → reads_text o criteria text ≡ Err place → IsRefusedAt criteria (formula_fields o.fields) text (byte_len text) place }
    // It looks at fields alone, and not at those that a formula doesn't name.
    ensures formulas { ReadsFormulas }
{
    formula_laws();
    spelling_laws();
    token_laws();
}

/// Texts over the fields of an object. Each was worked out by hand. The call does nothing.
pub fn text_rows()
    // `Name` is at position 0, and the custom fields follow. Without the field its name is refused.
    ensures amount { read_over (amount ∷ []) (codes "Amount__c > 5") ≡ Ok (over_five 1) }
    ensures second { read_over (custom_field (codes "Closed__c") type.Checkbox ∷ amount ∷ []) (codes "Amount__c > 5") ≡ Ok (over_five 2) }
    ensures missing { read_over [] (codes "Amount__c > 5") ≡ Err 0 }

    // Of two fields with one name the first is meant, and a word of the language is never a name.
    ensures twin { read_over (amount ∷ custom_field (codes "amount__c") type.Checkbox ∷ []) (codes "amount__c > 5") ≡ Ok (over_five 1) }
    ensures word { read_over (custom_field (codes "TRUE") type.Checkbox ∷ []) (codes "TRUE") ≡ Ok (formula.Const true) }

    // A text isn't a number, a text that ends too early is refused at its end, and a token too many at its beginning.
    ensures other_kind { read_over (amount ∷ []) (codes "AND(Amount__c = " ++ quoted (codes "0") ++ codes ")") ≡ Err 16 }
    ensures too_early { read_over (amount ∷ []) (codes "NOT(") ≡ Err 4 }
    ensures too_much { read_over (amount ∷ []) (codes "Amount__c > 5 )") ≡ Err 14 }

    // Places count bytes: `é` takes two.
    ensures bytes { read_over (amount ∷ []) (quoted (0xE9 ∷ []) ++ codes " = 5") ≡ Err 7 }
{}

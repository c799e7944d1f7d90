//! What requests on records come to, worked by hand.

ghost use Rattle.std.specs.Prelude.{◌≡◌, ◌∷◌, ◌++◌, [], codes, Err, false, negsuc, None, Ok, pos, Some, true};
ghost use Rattle.base_json.specs.declared.tree.Json.TheVariants as json;
ghost use Rattle.base_json.specs.declared.tree.Num.TheVariants.{Beyond, Exact};
ghost use Rattle.base_value.specs.declared.fail.ValueFail.TheVariants.{OutOfRange, WrongType};
ghost use Rattle.base_value.specs.declared.value.FieldType.TheVariants as type;
ghost use Rattle.base_value.specs.declared.value.Value.TheVariants as value;
ghost use Rattle.model.specs.Fields.{of_type};
ghost use Rattle.model.specs.Given.{read_json};
ghost use Rattle.model_requests.specs.WorkedRecords.{add_rule, account_with_code, accounts_made, contact_of, deal_of, delete_order, note_on, order_made, rules_made, upsert_account, upsert_with, upserted_so};
ghost use Rattle.model_requests.specs.WorkedRefusals.{contacts_by, found_contact, no_target};
ghost use Rattle.model_requests.specs.WorkedRequests.{all_of, by, by_admin, done_so, made_so, refused_so, rows_so, said, start, text_to};

/// Validation rules in the order of their names, and then a duplicate. The call does nothing.
pub fn validation_rows()
    ensures first { said start rules_made (by 5 (deal_of (negsuc 99999999) []))
        ≡ refused_so 400 (codes "FIELD_CUSTOM_VALIDATION_EXCEPTION") (codes "a_name: no name") }
    ensures second { said start rules_made (by 5 (deal_of (negsuc 99999999) (text_to (codes "Name") (codes "n") ∷ [])))
        ≡ refused_so 400 (codes "FIELD_CUSTOM_VALIDATION_EXCEPTION") (codes "B_low: below zero") }
    ensures third { said start rules_made (by 5 (deal_of (pos 0) (text_to (codes "Name") (codes "n") ∷ [])))
        ≡ refused_so 400 (codes "DUPLICATE_VALUE") (codes "Code__c: duplicate value") }
    ensures readable { said start rules_made (by_admin (deal_of (pos 0) (text_to (codes "Name") (codes "n") ∷ [])))
        ≡ refused_so 400 (codes "DUPLICATE_VALUE") (codes "Code__c: duplicate of a00000000000008AAA") }

    // A rule that spells no formula: `=` can't follow `<`.
    ensures malformed { said start rules_made (by_admin (add_rule (codes "c_both") (codes "Amount__c < = 0") (codes "both")))
        ≡ refused_so 400 (codes "MALFORMED_FORMULA") (codes "unexpected token at 12") }
{}

/// Upserts by a unique field. The call does nothing.
pub fn upsert_rows()
    ensures made { said start accounts_made upsert_account ≡ upserted_so 201 (codes "a00000000000001AAA") (codes "true") }
    ensures kept { said start (accounts_made ++ upsert_account ∷ []) upsert_account
        ≡ upserted_so 200 (codes "a00000000000001AAA") (codes "false") }
    ensures no_key { said start accounts_made (upsert_with (codes "name") (Some (codes "A/1")) [])
        ≡ refused_so 400 (codes "INVALID_FIELD") (codes "no field Name here") }
    ensures no_text { said start accounts_made (upsert_with (codes "code__C") None [])
        ≡ refused_so 400 (codes "INVALID_TYPE_ON_FIELD_IN_RECORD") (codes "Code__c: wrong type") }
    ensures other_key { said start accounts_made (upsert_with (codes "Code__c") (Some (codes "A")) (text_to (codes "code__c") (codes "a") ∷ []))
        ≡ refused_so 400 (codes "INVALID_FIELD") (codes "no field Code__c here") }
{}

/// A parent that is found by a unique field. The call does nothing.
pub fn found_rows()
    ensures found { said start account_with_code (contact_of (codes "a/1")) ≡ made_so (codes "a01000000000002AAA") }
    ensures referred { said start (account_with_code ++ contact_of (codes "a/1") ∷ []) (contacts_by ((codes "Account__c" ∷ []) ∷ []) None [])
        ≡ rows_so 1 found_contact }
    ensures none { said start account_with_code (contact_of (codes "a")) ≡ no_target (codes "Account__c") }
    ensures is_null { said start account_with_code (contact_of []) ≡ made_so (codes "a01000000000002AAA") }
    ensures too_long { said start account_with_code (contact_of (codes "abcdefghijklmnopqrstu"))
        ≡ refused_so 400 (codes "STRING_TOO_LONG") (codes "Account__c: over 20 characters") }
{}

/// A deletion with what goes with it, and what holds it. The call does nothing.
pub fn delete_rows()
    ensures held { said start order_made delete_order
        ≡ refused_so 400 (codes "DELETE_FAILED") (codes "Note__c.Line__c: the record is referred to") }
    ensures deleted { said start (order_made ++ by_admin (note_on []) ∷ []) delete_order ≡ done_so }
    ensures lines_gone { said start (order_made ++ by_admin (note_on []) ∷ delete_order ∷ []) (by_admin (all_of (codes "Line__c")))
        ≡ rows_so 0 [] }
{}

/// Numbers in JSON, given to a field of 18 digits and 8 decimals. The call does nothing.
pub fn number_rows()
    ensures exact { read_json (of_type (type.Number 18 8)) (json.Number (Exact (pos 123456789012345678)))
        ≡ Ok (value.Num (pos 123456789012345678)) }
    ensures too_large { read_json (of_type (type.Number 18 8)) (json.Number (Exact (pos 1234567890112345678)))
        ≡ Err OutOfRange }
    ensures too_small { read_json (of_type (type.Number 18 8)) (json.Number Beyond) ≡ Err OutOfRange }
    ensures text { read_json (of_type (type.Number 18 8)) (json.Text (codes "15")) ≡ Ok (value.Num (pos 1500000000)) }
    ensures truth { read_json (of_type (type.Number 18 8)) (json.Bool true) ≡ Err WrongType }
    ensures no_truth { read_json (of_type type.Checkbox) json.Null ≡ Ok (value.Bool false) }
{}

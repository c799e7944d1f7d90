//! Headings and rows, worked by hand.

ghost use Rattle.std.specs.Prelude.{◌≡◌, [], ◌∷◌, ◌++◌, codes, Err, None, Ok, Some};
ghost use Rattle.cmd_load_plan.specs.Worked.{column_by, column_to, loaded, planned};
ghost use Rattle.model_requests.specs.WorkedRecords.{account_with_code};

/// The columns of headings. The call does nothing.
pub fn heading_rows()
    // Names are as they are declared, and the first cell is a unique field.
    ensures key { planned account_with_code (codes "account__C") (codes "code__C" ∷ codes "NAME" ∷ [])
        ≡ Ok (record { object = codes "Account__c"; key = Some (codes "Code__c"); columns = column_to (codes "Code__c") ∷ column_to (codes "Name") ∷ [] }) }
    ensures no_key { planned account_with_code (codes "Account__c") (codes "Name" ∷ codes "Code__c" ∷ [])
        ≡ Ok (record { object = codes "Account__c"; key = None; columns = column_to (codes "Name") ∷ column_to (codes "Code__c") ∷ [] }) }
    ensures parent { planned account_with_code (codes "Contact__c") (codes "account__R.code__c" ∷ codes "OwnerId" ∷ [])
        ≡ Ok (record { object = codes "Contact__c"; key = None; columns = column_by (codes "Account__c") 0 ∷ column_to (codes "OwnerId") ∷ [] }) }

    // The first cell that is refused: of no field, of one that no edit gives, of one that was named before, of a field that isn't unique.
    ensures unknown { planned account_with_code (codes "Account__c") (codes "Code__c" ∷ codes "Nope__c" ∷ codes "Id" ∷ []) ≡ Err (codes "Nope__c") }
    ensures unwritable { planned account_with_code (codes "Account__c") (codes "Id" ∷ []) ≡ Err (codes "Id") }
    ensures again { planned account_with_code (codes "Account__c") (codes "Code__c" ∷ codes "code__c" ∷ []) ≡ Err (codes "code__c") }
    ensures given_before { planned account_with_code (codes "Contact__c") (codes "Account__c" ∷ codes "Account__r.Code__c" ∷ []) ≡ Err (codes "Account__r.Code__c") }
    ensures not_unique { planned account_with_code (codes "Contact__c") (codes "Account__r.Name" ∷ []) ≡ Err (codes "Account__r.Name") }
{}

/// Rows and their lines. The call does nothing.
pub fn load_rows()
    // Upserts by the first column: a record is made, the next row changes it, and an empty key is refused.
    ensures upserts { loaded account_with_code (codes "Account__c") (codes "Code__c" ∷ codes "Name" ∷ [])
        ((codes "B1" ∷ codes "One" ∷ []) ∷ (codes "b1" ∷ [] ∷ []) ∷ ([] ∷ codes "Four" ∷ []) ∷ [])
        ≡ codes "1,a00000000000002AAA,true,\n2,a00000000000002AAA,false,\n3,,,INVALID_TYPE_ON_FIELD_IN_RECORD\n" }

    // Creates: a code that is taken, and one that isn't.
    ensures creates { loaded account_with_code (codes "Account__c") (codes "Name" ∷ codes "Code__c" ∷ [])
        ((codes "One" ∷ codes "a/1" ∷ []) ∷ (codes "Six" ∷ codes "A6" ∷ []) ∷ [])
        ≡ codes "1,,,DUPLICATE_VALUE\n2,a00000000000002AAA,true,\n" }

    // A parent by its unique field: the one that has it, none, one that isn't there, and a text that is too long.
    ensures parents { loaded account_with_code (codes "Contact__c") (codes "Name" ∷ codes "Account__r.Code__c" ∷ [])
        ((codes "Ann" ∷ codes "a/1" ∷ []) ∷ (codes "Bob" ∷ [] ∷ []) ∷ (codes "Cy" ∷ codes "Z9" ∷ []) ∷ (codes "Di" ∷ codes "abcdefghijklmnopqrstu" ∷ []) ∷ [])
        ≡ codes "1,a01000000000002AAA,true,\n2,a01000000000003AAA,true,\n3,,,INVALID_CROSS_REFERENCE_KEY\n4,,,STRING_TOO_LONG\n" }
{}

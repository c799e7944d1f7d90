//! What reads are told, worked by hand.

ghost use Rattle.std.specs.Prelude.{◌≡◌, ◌∷◌, [], codes, Err, false, map, Ok, Some, true};
ghost use Rattle.std.specs.Option.{option_map};
ghost use Rattle.base_json.specs.declared.tree.Json.TheVariants as json;
ghost use Rattle.base_json_tree.specs.Words.{list, member, number, object, text};
ghost use Rattle.base_value.specs.declared.sharing.Level.TheVariants.{Edit, Read};
ghost use Rattle.base_value.specs.declared.sharing.Principal.TheVariants as to;
ghost use Rattle.model.specs.declared.limit.Limit.TheVariants as limit;
ghost use Rattle.model.specs.declared.refusal.Refusal.TheVariants as refusal;
ghost use Rattle.model.specs.Objects.{object_numbered};
ghost use Rattle.model.specs.WorkedAccess.{cea, otto, private, rep, ron, shared, to_otto};
ghost use Rattle.model.specs.WorkedQueries.{asked_by};
ghost use Rattle.model_reads.specs.CallerJson.{caller_json, limit_member, versions_json};
ghost use Rattle.model_reads.specs.PeopleJson.{principal_text};
ghost use Rattle.model_reads.specs.Reads.{told_of};
ghost use Rattle.model_reads.specs.RecordJson.{columns_asked, shown_columns};
ghost use Rattle.model_reads.specs.declared.read.Read.TheVariants as read;

/// Who asks, versions, principals and limits. The call does nothing.
pub fn caller_rows()
    ensures caller { caller_json 1 ron ≡ object
        (member (codes "user_id") (text (codes "005000000000005AAA"))
        ∷ member (codes "organization_id") (text (codes "00D000000000001EAA"))
        ∷ member (codes "preferred_username") (text (codes "005000000000005AAA"))
        ∷ member (codes "name") (text (codes "Ron"))
        ∷ member (codes "active") (json.Bool true)
        ∷ member (codes "is_admin") (json.Bool false)
        ∷ member (codes "role") (text (codes "00E000000000003EAA")) ∷ []) }
    ensures versions { versions_json ≡ list (object
        (member (codes "label") (text (codes "v59.0"))
        ∷ member (codes "url") (text (codes "/services/data/v59.0"))
        ∷ member (codes "version") (text (codes "59.0")) ∷ []) ∷ []) }
    ensures principals { map principal_text (to.User ron.id ∷ to.Subordinates rep ∷ [])
        ≡ codes "user:005000000000005AAA" ∷ codes "subordinates:00E000000000003EAA" ∷ [] }
    ensures limit { limit_member (codes "Records") limit.Records 3
        ≡ member (codes "Records") (object (member (codes "Max") (number 50000) ∷ member (codes "Remaining") (number 49997) ∷ [])) }
{}

/// Records, with the fields that are asked for and with all. The call does nothing.
pub fn record_rows()
    // In the order in which the fields are asked for, under their names as declared.
    ensures fields { told_of 1 (asked_by ron private) (read.Record (codes "deal__C") (codes "a00000000000008") (codes "fields=stage__C,Id"))
        ≡ Ok (object
        (member (codes "attributes") (object
        (member (codes "type") (text (codes "Deal__c"))
        ∷ member (codes "url") (text (codes "/services/data/v59.0/sobjects/Deal__c/a00000000000008AAA"))
        ∷ member (codes "level") (text (codes "Full")) ∷ []))
        ∷ member (codes "Stage__c") (text (codes "Shut"))
        ∷ member (codes "Id") (text (codes "a00000000000008AAA")) ∷ [])) }

    // Who may edit its master has a detail in full.
    ensures detail { told_of 1 (asked_by otto (shared ron (to_otto Edit))) (read.Record (codes "Line__c") (codes "a0100000000000BAAQ") (codes "x=y&fields=Name,Deal__c"))
        ≡ Ok (object
        (member (codes "attributes") (object
        (member (codes "type") (text (codes "Line__c"))
        ∷ member (codes "url") (text (codes "/services/data/v59.0/sobjects/Line__c/a0100000000000BAAQ"))
        ∷ member (codes "level") (text (codes "Full")) ∷ []))
        ∷ member (codes "Name") json.Null
        ∷ member (codes "Deal__c") (text (codes "a00000000000008AAA")) ∷ [])) }

    // All fields, in their order; a detail has no `OwnerId`.
    ensures columns { option_map (λ o. map (λ c. c.name) (shown_columns o)) (object_numbered private 0)
        ≡ Some (codes "Id" ∷ codes "OwnerId" ∷ codes "Name" ∷ codes "CreatedDate" ∷ codes "LastModifiedDate" ∷ codes "Stage__c" ∷ []) }
    ensures detail_columns { option_map (λ o. map (λ c. c.name) (shown_columns o)) (object_numbered private 1)
        ≡ Some (codes "Id" ∷ codes "Name" ∷ codes "CreatedDate" ∷ codes "LastModifiedDate" ∷ codes "Deal__c" ∷ []) }
    ensures all_fields { option_map (λ o. columns_asked o (Some [])) (object_numbered private 1)
        ≡ option_map (λ o. Ok (shown_columns o)) (object_numbered private 1) }
{}

/// Why a record isn't told, and manual shares. The call does nothing.
pub fn refusal_rows()
    ensures no_object { told_of 1 (asked_by ron private) (read.Record (codes "Zed__c") (codes "x") []) ≡ Err (refusal.InvalidType (codes "Zed__c")) }
    ensures no_id { told_of 1 (asked_by ron private) (read.Record (codes "Deal__c") (codes "x") []) ≡ Err (refusal.MalformedId (codes "x")) }
    ensures other_object { told_of 1 (asked_by ron private) (read.Record (codes "Deal__c") (codes "a0100000000000B") []) ≡ Err refusal.NotFound }
    ensures hidden { told_of 1 (asked_by otto private) (read.Record (codes "Deal__c") (codes "a00000000000008") (codes "fields=Zed"))
        ≡ Err refusal.NotFound }
    ensures no_field { told_of 1 (asked_by ron private) (read.Record (codes "Deal__c") (codes "a00000000000008") (codes "fields=Id,Zed"))
        ≡ Err (refusal.InvalidField (codes "Zed")) }
    ensures twice { told_of 1 (asked_by ron private) (read.Record (codes "Deal__c") (codes "a00000000000008") (codes "fields=Id,id"))
        ≡ Err (refusal.InvalidField (codes "id")) }
    ensures path { told_of 1 (asked_by cea private) (read.Record (codes "Line__c") (codes "a0100000000000B") (codes "fields=Deal__r.Name"))
        ≡ Err (refusal.InvalidField (codes "Deal__r.Name")) }
    ensures not_unique { told_of 1 (asked_by ron private) (read.RecordBy (codes "Deal__c") (codes "stage__C") (codes "Shut") [])
        ≡ Err (refusal.InvalidField (codes "Stage__c")) }
    ensures shares { told_of 1 (asked_by ron (shared ron (to_otto Read))) (read.Shares (codes "a00000000000008"))
        ≡ Ok (object (member (codes "shares") (list
        (object (member (codes "to") (text (codes "user:005000000000007AAA")) ∷ member (codes "level") (text (codes "Read")) ∷ []) ∷ [])) ∷ [])) }
    ensures not_full { told_of 1 (asked_by otto (shared ron (to_otto Read))) (read.Shares (codes "a00000000000008")) ≡ Err refusal.InsufficientAccess }
    ensures of_detail { told_of 1 (asked_by ron private) (read.Shares (codes "a0100000000000B")) ≡ Err (refusal.InvalidType (codes "Line__c")) }
{}

//! Which rule refuses first, worked by hand.

ghost use Rattle.std.specs.Prelude.{◌≡◌, ◌∷◌, ◌++◌, [], codes, false, None, Some};
ghost use Rattle.soql.specs.declared.query.Literal.TheVariants as literal;
ghost use Rattle.soql.specs.declared.query.Op.TheVariants as op;
ghost use Rattle.model_requests.specs.Requests.{creates, sets_group, sets_organisation, sets_user, updates};
ghost use Rattle.model.specs.WorkedAccess.{is_open};
ghost use Rattle.model.specs.WorkedQueries.{order_by};
ghost use Rattle.model_requests.specs.WorkedRecords.{add_rule, rules_made};
ghost use Rattle.model_requests.specs.WorkedRefusals.{amount_x, bare_contact, ceo_below, contacts_by, contacts_where_account, delete_account, end_no_share, end_share, inactive, line_made, line_to, long_code, new_deal, new_line, no, no_field, no_target, owner_to, stage_changing, to_role, to_text, zed};
ghost use Rattle.model_requests.specs.WorkedRemovals.{below_spare, deals_shared, end_group, end_role, named_by, pool, pool_group, pool_nested, pool_of, said_each, spare, spare_made, spare_role, spare_shared};
ghost use Rattle.model_requests.specs.WorkedRequests.{after_calls, by, by_admin, deal_made, denied_so, done_so, made_so, not_found, people, rename, rows_so, said, start, text_to};
ghost use Rattle.model_requests.specs.WorkedSharing.{contact_made, deal_shared, members_alone};

/// Why an edit is refused. The call does nothing.
pub fn edit_refusal_rows()
    ensures unknown { said start rules_made (new_deal (amount_x ∷ zed ∷ [])) ≡ no_field (codes "Zed__c") }
    ensures not_given { said start rules_made (new_deal (text_to (codes "id") [] ∷ []))
        ≡ no_field (codes "Id") }
    // The first field of the object, whatever the order of the body.
    ensures first_value { said start rules_made (new_deal (long_code ∷ amount_x ∷ []))
        ≡ no (codes "INVALID_TYPE_ON_FIELD_IN_RECORD") (codes "Amount__c: wrong type") }
    ensures too_long { said start rules_made (new_deal (long_code ∷ []))
        ≡ no (codes "STRING_TOO_LONG") (codes "Code__c: over 20 characters") }
    ensures not_full { said start deal_shared (owner_to 7 (codes "005000000000007")) ≡ denied_so }
    ensures no_owner { said start deal_made (owner_to 5 (codes "005000000000009")) ≡ no_target (codes "OwnerId") }
    ensures unreadable { said start contact_made (by 7 (creates (codes "Contact__c") (text_to (codes "Account__c") (codes "a00000000000008") ∷ [])))
        ≡ no_target (codes "Account__c") }
{}

/// Why an edit of a detail is refused. The call does nothing.
pub fn detail_refusal_rows()
    ensures made { said start line_made (by 5 new_line) ≡ made_so (codes "a0100000000000BAAQ") }
    ensures no_master { said start line_made (by 5 (creates (codes "Line__c") []))
        ≡ no (codes "REQUIRED_FIELD_MISSING") (codes "Required fields are missing: [Order__c]") }
    ensures not_edited { said start line_made (by 7 new_line) ≡ denied_so }
    ensures other_master { said start line_made (by 5 (line_to (codes "a00000000000009"))) ≡ no_field (codes "Order__c") }
    ensures same_master { said start line_made (by 5 (line_to (codes "a00000000000008AAA"))) ≡ done_so }
    ensures no_owner { said start line_made (by 5 (updates (codes "Line__c") (codes "a0100000000000A") (text_to (codes "OwnerId") (codes "005000000000005") ∷ [])))
        ≡ no_field (codes "OwnerId") }
{}

/// Why a request about people, or the end of a share, is refused. The call does nothing.
pub fn people_refusal_rows()
    ensures circle { said start people (ceo_below (codes "00E000000000003")) ≡ no_target (codes "parent") }
    ensures itself { said start people (ceo_below (codes "00E000000000001")) ≡ no_target (codes "parent") }
    ensures no_role { said start people (ceo_below (codes "00E000000000009")) ≡ no_target (codes "parent") }
    ensures no_id { said start people (by_admin (sets_user (codes "005000000000009") (to_role (codes "x"))))
        ≡ no (codes "MALFORMED_ID") (codes "x isn't an id") }
    ensures no_user { said start people (by_admin (sets_user (codes "005000000000009") (to_role (codes "00E000000000009"))))
        ≡ not_found }
    ensures no_group { said start people (by_admin (sets_group (codes "00G000000000009") (members_alone []))) ≡ not_found }
    ensures last { said start people (by_admin (sets_user (codes "005000000000000") inactive))
        ≡ no (codes "LAST_ADMINISTRATOR") (codes "an administrator must be left") }
    ensures left { said start people (by_admin (sets_user (codes "005000000000005") inactive)) ≡ done_so }
    ensures unnamed { said start people (by_admin (sets_organisation [])) ≡ no (codes "INVALID_NAME") (codes " isn't a name here") }
    ensures no_share { said start deal_made end_share ≡ no_target (codes "to") }
    ensures no_principal { said start deal_made end_no_share
        ≡ no (codes "MALFORMED_ID") (codes "Otto isn't an id") }
    ensures ended { said start (deal_shared ++ end_share ∷ []) (by 7 (rename (codes "a00000000000008"))) ≡ not_found }
{}

/// Why the end of a role or a group is refused, and that nothing is there afterwards. The call does nothing.
pub fn removal_rows()
    ensures of_user { said start people (end_role (codes "00E000000000003")) ≡ named_by (codes "users") (codes "role") }
    ensures parent { said start people (end_role (codes "00E000000000002")) ≡ named_by (codes "roles") (codes "parent") }
    ensures member { said start (spare_made ++ pool_of (below_spare ∷ []) ∷ []) (end_role spare)
        ≡ named_by (codes "groups") (codes "members") }
    ensures nested { said start pool_nested (end_group pool) ≡ named_by (codes "groups") (codes "members") }
    ensures source { said start (deals_shared spare_role pool_group) (end_role spare)
        ≡ named_by (codes "sharing-rules") (codes "from") }
    ensures shared_to { said start (deals_shared pool_group below_spare) (end_role spare)
        ≡ named_by (codes "sharing-rules") (codes "to") }
    ensures share { said start spare_shared (end_role spare) ≡ named_by (codes "shares") (codes "to") }
    // No id, then each goes, and isn't there; the group is a member of itself.
    ensures ended { said_each (after_calls start (spare_made ++ pool_of (pool_group ∷ []) ∷ [])) (end_role (codes "x") ∷ end_role spare ∷ end_role spare ∷ end_group pool ∷ end_group pool ∷ [])
        ≡ no (codes "MALFORMED_ID") (codes "x isn't an id") ∷ done_so ∷ not_found ∷ done_so ∷ not_found ∷ [] }
{}

/// Why the change of a field's type is refused, and a rule while it goes on. The call does nothing.
pub fn retype_refusal_rows()
    ensures in_use { said start rules_made (to_text (codes "Amount__c"))
        ≡ no (codes "FIELD_IN_USE") (codes "Amount__c is used by rule B_low") }
    ensures unique { said start rules_made (to_text (codes "Code__c"))
        ≡ no (codes "RETYPE_UNSUPPORTED") (codes "Code__c can't be retyped so") }
    ensures not_custom { said start rules_made (to_text (codes "name"))
        ≡ no (codes "RETYPE_UNSUPPORTED") (codes "Name can't be retyped so") }
    ensures unknown { said start rules_made (to_text (codes "Zed__c")) ≡ no_field (codes "Zed__c") }
    ensures busy { said start stage_changing (by_admin (add_rule (codes "open_only") is_open (codes "open")))
        ≡ no (codes "JOB_BUSY") (codes "a retype is under way") }
{}

/// Why a query is refused. The call does nothing.
pub fn query_refusal_rows()
    ensures unknown { said start contact_made (contacts_by ((codes "Account__r" ∷ codes "Zed__c" ∷ []) ∷ []) None [])
        ≡ no_field (codes "Account__r.Zed__c") }
    ensures twice { said start contact_made (contacts_by ((codes "Id" ∷ []) ∷ (codes "iD" ∷ []) ∷ []) None [])
        ≡ no_field (codes "iD") }
    ensures operator { said start contact_made (contacts_where_account op.Less (literal.Text (codes "x")) [])
        ≡ no (codes "INVALID_QUERY_FILTER_OPERATOR") (codes "Account__c can't be filtered so") }
    ensures no_id { said start contact_made (contacts_where_account op.Equal (literal.Text (codes "x")) [])
        ≡ no (codes "MALFORMED_ID") (codes "x isn't an id") }
    // All names of the text come before its first test.
    ensures names_first { said start contact_made (contacts_where_account op.Less literal.Null (order_by (codes "Zed__c") false false ∷ []))
        ≡ no_field (codes "Zed__c") }
    // The lookup to a deleted record is null.
    ensures cleared { said start (contact_made ++ delete_account ∷ []) (contacts_by ((codes "Account__c" ∷ []) ∷ []) None [])
        ≡ rows_so 1 bare_contact }
{}

//! What requests on objects, people, shares and rules come to, worked by hand in a fresh organisation.

ghost use Rattle.std.specs.Prelude.{◌≡◌, ◌∷◌, ◌++◌, [], codes, None};
ghost use Rattle.soql.specs.declared.query.Literal.TheVariants as literal;
ghost use Rattle.soql.specs.declared.query.Op.TheVariants as op;
ghost use Rattle.model_requests.specs.Requests.{deletes};
ghost use Rattle.model_requests.specs.WorkedRequests.{add_deals, all_of, by, by_admin, deal_made, deal_object, deal_row, denied_so, done_so, made_so, make_deal, not_found, people, refused_so, rename, rows_so, said, start};
ghost use Rattle.model_requests.specs.WorkedSharing.{account_is, ask_contacts, contact_made, contact_row, deal_given, deal_shared, give_to_cea, open_made, share_with_otto, stage_to};

/// A new object, and one with its name. The call does nothing.
pub fn object_request_rows()
    ensures added { said start [] add_deals ≡ done_so }
    ensures no_rows { said start (add_deals ∷ []) (by_admin (all_of deal_object)) ≡ rows_so 0 [] }
    ensures again { said start (add_deals ∷ []) add_deals
        ≡ refused_so 400 (codes "DUPLICATE_DEVELOPER_NAME") (codes "Deal__c is taken") }
{}

/// What people do with one another's records. The call does nothing.
pub fn people_request_rows()
    ensures made { said start (people ++ add_deals ∷ []) make_deal ≡ made_so (codes "a00000000000008AAA") }
    ensures seen_above { said start deal_made (by 6 (all_of deal_object))
        ≡ rows_so 1 (deal_row (codes "a00000000000008AAA")) }
    ensures unseen_beside { said start deal_made (by 7 (all_of deal_object)) ≡ rows_so 0 [] }
    ensures hidden { said start deal_made (by 7 (rename (codes "a00000000000008AAA"))) ≡ not_found }
    ensures renamed { said start deal_made (by 6 (rename (codes "a00000000000008AAA"))) ≡ done_so }
    ensures deleted { said start deal_made (by 6 (deletes deal_object (codes "a00000000000008AAA"))) ≡ done_so }
{}

/// What a manual share gives, and that a new owner ends it. The call does nothing.
pub fn share_request_rows()
    ensures shared { said start deal_made (by 5 share_with_otto) ≡ done_so }
    ensures renamed { said start deal_shared (by 7 (rename (codes "a00000000000008"))) ≡ done_so }
    ensures not_deleted { said start deal_shared (by 7 (deletes deal_object (codes "a00000000000008"))) ≡ denied_so }
    ensures given { said start deal_shared (by 5 give_to_cea) ≡ done_so }
    ensures not_seen { said start deal_given (by 7 (all_of deal_object)) ≡ rows_so 0 [] }
    ensures not_kept { said start deal_given (by 5 (all_of deal_object)) ≡ rows_so 0 [] }
{}

/// What a criteria rule shows through groups within each other. The call does nothing.
pub fn criteria_request_rows()
    ensures shown { said start open_made (by 7 (all_of deal_object)) ≡ rows_so 1 (deal_row (codes "a0000000000000AAAQ")) }
    ensures not_edited { said start open_made (by 7 (stage_to (codes "Shut"))) ≡ denied_so }
    ensures shut { said start open_made (by 5 (stage_to (codes "Shut"))) ≡ done_so }
    ensures hidden { said start (open_made ++ by 5 (stage_to (codes "Shut")) ∷ []) (by 7 (all_of deal_object))
        ≡ rows_so 0 [] }
{}

/// Paths through a record that the caller can't read, in JSON. The call does nothing.
pub fn path_request_rows()
    ensures row { said start contact_made (by 7 (ask_contacts None)) ≡ rows_so 1 contact_row }
    ensures is_null { said start contact_made (by 7 (ask_contacts (account_is op.Equal literal.Null)))
        ≡ rows_so 1 contact_row }
    ensures is_not_x { said start contact_made (by 7 (ask_contacts (account_is op.NotEqual (literal.Text (codes "x")))))
        ≡ rows_so 1 contact_row }
{}

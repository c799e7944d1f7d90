//! The change of a field's type over 250 records, and counts at their limits, worked by hand request by request.

ghost use Rattle.std.specs.Prelude.{◌≡◌, ◌∷◌, ◌++◌, [], codes};
ghost use Rattle.model_requests.specs.WorkedLimits.{detail, group_made, members_to, shared_with, three_levels};
ghost use Rattle.model_requests.specs.WorkedRequests.{by, done_so, not_found, refused_so, said, start};
ghost use Rattle.model_requests.specs.WorkedRetypes.{filled, first_row, first_to, get_job, job_so, select_first, times, to_number};
ghost use Rattle.model_requests.specs.WorkedSharing.{share_with_otto};

/// A change that switches. The call does nothing.
pub fn retype_rows()
    ensures begun { said (filled 250 0 []) [] to_number ≡ done_so }
    ensures first { said (filled 250 0 []) (to_number ∷ []) select_first ≡ first_row (codes "\"1\"") }
    ensures second { said (filled 250 0 []) (to_number ∷ select_first ∷ []) (first_to (codes "77")) ≡ done_so }
    ensures conflict { said (filled 250 0 []) (to_number ∷ select_first ∷ []) (first_to (codes "x"))
        ≡ refused_so 400 (codes "RETYPE_CONFLICT") (codes "V__c: the value doesn't suit the new type") }
    ensures third { said (filled 250 0 []) (to_number ∷ select_first ∷ first_to (codes "77") ∷ []) select_first
        ≡ first_row (codes "\"77\"") }
    ensures fourth { said (filled 250 0 []) (to_number ∷ select_first ∷ first_to (codes "77") ∷ select_first ∷ []) select_first
        ≡ first_row (codes "77") }
    ensures clearing { said (filled 250 0 []) (to_number ∷ times 6 get_job) get_job
        ≡ job_so (codes "Clear") (codes "Switched") (codes "null") }
    ensures done { said (filled 250 0 []) (to_number ∷ times 7 get_job) get_job
        ≡ job_so (codes "Done") (codes "Switched") (codes "null") }
{}

/// A change that a value stops, and where there is none. The call does nothing.
pub fn stuck_retype_rows()
    ensures failed { said (filled 250 150 (codes "12x")) (to_number ∷ select_first ∷ []) get_job
        ≡ job_so (codes "Clear") (codes "Failed") (codes "\"a0000000000002QAAQ\"") }
    ensures still_text { said (filled 250 150 (codes "12x")) (to_number ∷ select_first ∷ get_job ∷ []) select_first
        ≡ first_row (codes "\"1\"") }
    ensures busy { said (filled 250 150 (codes "12x")) (to_number ∷ select_first ∷ get_job ∷ []) to_number
        ≡ refused_so 400 (codes "JOB_BUSY") (codes "a retype is under way") }
    ensures none { said start [] get_job ≡ not_found }
{}

/// Counts that may just be, and one more. The call does nothing.
pub fn limit_rows()
    ensures members { said start group_made (members_to 500) ≡ done_so }
    ensures one_member_more { said start group_made (members_to 501)
        ≡ refused_so 400 (codes "LIMIT_EXCEEDED") (codes "members per group: 500") }
    ensures shares { said (shared_with 99) [] (by 5 share_with_otto) ≡ done_so }
    ensures one_share_more { said (shared_with 100) [] (by 5 share_with_otto)
        ≡ refused_so 400 (codes "LIMIT_EXCEEDED") (codes "shares per record: 100") }
    ensures one_level_more { said start three_levels (detail (codes "Four__c") (codes "Three__c") (codes "Fours__r"))
        ≡ refused_so 400 (codes "LIMIT_EXCEEDED") (codes "detail levels: 3") }
{}

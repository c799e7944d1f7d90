//! Routes, and a request that is refused, worked by hand.

ghost use Rattle.std.specs.Prelude.{◌≡◌, ◌∷◌, [], codes, map, Err};
ghost use Rattle.model.specs.declared.refusal.Refusal.TheVariants.{InvalidType};
ghost use Rattle.model.specs.WorkedAccess.{private, ron};
ghost use Rattle.model.specs.WorkedQueries.{asked_by};
ghost use Rattle.model_requests.specs.declared.route.Route.TheVariants as route;
ghost use Rattle.model_reads.specs.declared.read.Read.TheVariants as read;
ghost use Rattle.model_requests.specs.declared.routed.Routed.TheVariants.{To, Reads, NotFound, NotAllowed};
ghost use Rattle.model_requests.specs.Requests.{deletes, verdict_on};
ghost use Rattle.model_requests.specs.Routing.{routed};

/// What methods and targets ask for. The call does nothing.
pub fn route_rows()
    ensures query { routed (codes "GET") (codes "/services/data/v59.0/query?q=SELECT+Id") ≡ To (route.Query (codes "q=SELECT+Id")) }
    ensures update { routed (codes "PATCH") (codes "/services/data/v59.0/sobjects/Deal__c/a00") ≡ To (route.Update (codes "Deal__c") (codes "a00")) }
    ensures no_part { routed (codes "POST") (codes "/services/data/v59.0/sobjects//") ≡ NotFound }
    ensures no_object { routed (codes "POST") (codes "/services/data/v59.0/sobjects/") ≡ NotAllowed }
    ensures no_method { routed (codes "PUT") (codes "/admin/retype") ≡ NotAllowed }
    ensures organisation { routed (codes "PATCH") (codes "/admin/organisation") ≡ To route.SetOrganisation }
    ensures ends { map (routed (codes "DELETE")) (codes "/admin/roles/00E" ∷ codes "/admin/groups/00G" ∷ [])
        ≡ To (route.RemoveRole (codes "00E")) ∷ To (route.RemoveGroup (codes "00G")) ∷ [] }
    ensures no_path { routed (codes "GET") (codes "/x") ≡ NotFound }

    // HEAD is judged as GET, and one slash at the end is no part of a path.
    ensures head { routed (codes "HEAD") (codes "/services/data/v59.0/query?q=a") ≡ To (route.Query (codes "q=a")) }
    ensures head_of_post { routed (codes "HEAD") (codes "/admin/fields") ≡ NotAllowed }
    ensures head_of_none { routed (codes "HEAD") (codes "/x") ≡ NotFound }
    ensures slash { routed (codes "GET") (codes "/services/data/v59.0/query/?q=a") ≡ To (route.Query (codes "q=a")) }
    ensures two_slashes { routed (codes "GET") (codes "/services/data/v59.0/query//") ≡ NotFound }
    ensures slash_behind_value { routed (codes "PATCH") (codes "/services/data/v59.0/sobjects/A__c/B__c/v/")
        ≡ To (route.Upsert (codes "A__c") (codes "B__c") (codes "v")) }

    // Reads.
    ensures caller { map (routed (codes "GET")) (codes "/services/oauth2/userinfo" ∷ codes "/id/00D/005" ∷ [])
        ≡ Reads read.Caller ∷ Reads read.Caller ∷ [] }
    ensures record { routed (codes "GET") (codes "/services/data/v59.0/sobjects/A__c/a00?fields=Name")
        ≡ Reads (read.Record (codes "A__c") (codes "a00") (codes "fields=Name")) }
    ensures head_of_read { routed (codes "HEAD") (codes "/services/data/") ≡ Reads read.Versions }

    // A version from 26 on is served as version 59.
    ensures oldest { routed (codes "GET") (codes "/services/data/v26.0/limits") ≡ Reads read.Limits }
    ensures newest { routed (codes "GET") (codes "/services/data/v99.0") ≡ Reads read.Resources }
    ensures too_old { routed (codes "GET") (codes "/services/data/v25.0/limits") ≡ NotFound }
    ensures no_version { routed (codes "GET") (codes "/services/data/v60.1/limits") ≡ NotFound }
    ensures longer { routed (codes "GET") (codes "/services/data/v60.00/limits") ≡ NotFound }
{}

/// What `refusal_laws` takes as given. The call does nothing.
pub fn refused_rows()
    ensures refused { (verdict_on (asked_by ron private) (deletes (codes "None__c") (codes "a00000000000008"))).answer
        ≡ Err (InvalidType (codes "None__c")) }
{}

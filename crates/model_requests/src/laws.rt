//! What holds of the step of the world, for the layers above.

ghost use Rattle.std.specs.Prelude.{◌≡◌, ℕ, [], Some, None, codes, true, false};
ghost use Rattle.std.specs.Option.{option_map};
ghost use Rattle.model.specs.declared.caller.Caller.{Caller};
ghost use Rattle.model.specs.declared.refusal.Refusal.TheVariants as refusal;
ghost use Rattle.model_requests.specs.Answered.{answered};
ghost use Rattle.model.specs.Callers.{IsUser};
ghost use Rattle.model_requests.specs.RequestOf.{answer_to};
ghost use Rattle.model.specs.Step.{Message, caller_by, in_org, org_named, refusal_reply};
ghost use Rattle.model.specs.Tenant.{Tenant, User};
ghost use Rattle.model.specs.World.{World, tenant_at, with_tenant};
ghost use Rattle.model.specs.Flat.{is_flat};
ghost use Rattle.model.specs.Asker.{asking};
ghost use Rattle.model_requests.specs.Step.{step};
ghost use Rattle.soql.specs.grammar.Spelling.{query_in};
ghost use Rattle.model_requests.specs.Worked.{acme, asks_by};

use model::answering_laws;

/// The laws of the step of the world. The call does nothing.
pub fn step_laws()
    // A caller's message is answered in the caller's organisation, and a message of no caller is refused.
    ensures called { (w : World) (m : Message) (now : ℕ) (c : Caller) → caller_by w m ≡ Some c
        → step w m now ≡ in_org w c.org (answered c m now) }
    ensures uncalled { (w : World) (m : Message) (now : ℕ) → caller_by w m ≡ None
        → step w m now ≡ (refusal_reply refusal.InvalidSession, w) }

    // A caller is a user of an organisation, and the message is answered as this user's.
    ensures user { (w : World) (m : Message) (c : Caller) → caller_by w m ≡ Some c → (t : Tenant) × (u : User) × IsUser w c t u }
    ensures answered { (w : World) (m : Message) (now : ℕ) (c : Caller) (t : Tenant) (u : User) → IsUser w c t u
        → in_org w c.org (answered c m now)
        ≡ ((answer_to c.org (asking t now u) m).0, with_tenant w c.org (answer_to c.org (asking t now u) m).1) }

    // The same organisation in its place is the same world.
    ensures same { (w : World) (org : ℕ) (t : Tenant) → tenant_at w org ≡ Some t → with_tenant w org t ≡ w }

    // A reply is made from the organisation alone that the message names, and no other organisation changes.
    ensures own { (w v : World) (m : Message) (now org : ℕ) → org_named m ≡ Some org → tenant_at w org ≡ tenant_at v org
        → ((step w m now).0 ≡ (step v m now).0) × (tenant_at (step w m now).1 org ≡ tenant_at (step v m now).1 org) }
    ensures other { (w : World) (m : Message) (now org : ℕ) → (org_named m ≡ Some org → ⊥)
        → tenant_at (step w m now).1 org ≡ tenant_at w org }
{
    answering_laws();
}

/// Steps of the world, worked by hand. The call does nothing.
pub fn step_rows()
    ensures no_key { step [] (record { method = codes "GET"; target = codes "/x"; bearer = None; body = [] }) 0
        ≡ (refusal_reply refusal.InvalidSession, []) }
    ensures no_object { step acme (asks_by (codes "q=SELECT+Id,Name+FROM+Deal__c")) 0
        ≡ (refusal_reply (refusal.InvalidType (codes "Deal__c")), acme) }

    // A word of the language is no name; a query with a path is answered, too.
    ensures no_query { step acme (asks_by (codes "q=SELECT+Id,Name+FROM+Limit")) 0
        ≡ (refusal_reply (refusal.MalformedQuery 20), acme) }
    ensures with_path { step acme (asks_by (codes "q=SELECT+Id,Up__r.Name+FROM+Deal__c")) 0
        ≡ (refusal_reply (refusal.InvalidType (codes "Deal__c")), acme) }
{
    answering_laws();
}

/// Which queries are flat, worked by hand. The call does nothing.
pub fn query_rows()
    ensures flat { option_map is_flat (query_in (codes "select id, NAME from deal__C")) ≡ Some true }
    ensures path { option_map is_flat (query_in (codes "SELECT Id, Account__r.Name FROM Deal__c")) ≡ Some false }
    ensures test { option_map is_flat (query_in (codes "SELECT Id FROM Deal__c WHERE Name = NULL")) ≡ Some true }
    ensures path_test { option_map is_flat (query_in (codes "SELECT Id FROM Deal__c WHERE Account__r.Name = NULL")) ≡ Some false }
    ensures order { option_map is_flat (query_in (codes "SELECT Id FROM Deal__c ORDER BY Name")) ≡ Some true }
    ensures path_order { option_map is_flat (query_in (codes "SELECT Id FROM Deal__c ORDER BY Account__r.Name")) ≡ Some false }
    ensures child { option_map is_flat (query_in (codes "SELECT Id, (SELECT Id FROM Notes__r) FROM Deal__c")) ≡ Some false }
    ensures word { query_in (codes "SELECT Id, Name FROM Limit") ≡ None }
{}

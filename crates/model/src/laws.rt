ghost use Rattle.std.specs.Str.{all_scalars};
ghost use Rattle.model.specs.Sound.{is_name};
ghost use Rattle.std.specs.Prelude.{◌≤◌, List, ℕ, IsTrue, true, length, encode_utf8_all, ◌≡◌, ◌∷◌, [], Some, None, codes};
ghost use Rattle.sha2.specs.Sha256.{sha256};
ghost use Rattle.model.specs.Callers.{caller_in, named};
ghost use Rattle.model.specs.Organisations.{first_user, org_refusal, with_org};
ghost use Rattle.model.specs.World.{org_id, user_in};
ghost use Rattle.model.specs.Bodies.{damaged_body, refusal_body};
ghost use Rattle.model.specs.declared.refusal.Refusal.TheVariants.{InvalidSession, InvalidType, NameRefused, NotFound, SecretRefused};

/// The name of an organisation or of people is a text of few bytes. The call does nothing.
pub fn name_laws()
    ensures text { (name : List ℕ) → IsTrue (is_name name) → all_scalars name ≡ true }
    ensures short { (name : List ℕ) → IsTrue (is_name name) → length (encode_utf8_all name) ≤ 320 }
{}

/// The definitions, worked by hand. The call does nothing.
pub fn model_rows()
    ensures org { org_id 1 ≡ codes "00D000000000001" }
    ensures first_user { first_user ≡ codes "005000000000000" }
    ensures key { named (codes "00D000000000001!005000000000000AAA!abc!d")
        ≡ Some (record { org = 1; user = codes "005000000000000"; secret = codes "abc!d" }) }
    ensures short_key { named (codes "00D000000000001!005000000000000AAA") ≡ None }
    ensures foreign_key { named (codes "00E000000000001!005000000000000AAA!abc") ≡ None }
    ensures caller { caller_in (with_org [] (codes "Acme") (sha256 (codes "abc!d"))) (codes "00D000000000001!005000000000000AAA!abc!d")
        ≡ Some (record { org = 1; user = codes "005000000000000"; admin = true }) }
    ensures no_name { org_refusal [] [] (codes "abcdefghijklmnop") ≡ Some NameRefused }
    ensures short_secret { org_refusal [] (codes "Acme") (codes "short") ≡ Some SecretRefused }
    ensures accepted { org_refusal [] (codes "Acme") (codes "abcdefghijklmnop") ≡ None }
    ensures expired { refusal_body InvalidSession
        ≡ codes "[{\"message\":\"Session expired or invalid\",\"errorCode\":\"INVALID_SESSION_ID\"}]" }
    ensures nothing_there { refusal_body NotFound
        ≡ codes "[{\"message\":\"The requested resource does not exist\",\"errorCode\":\"NOT_FOUND\"}]" }
    ensures mark_within { refusal_body (InvalidType (codes "a\"b"))
        ≡ codes "[{\"message\":\"no object a\\\"b here\",\"errorCode\":\"INVALID_TYPE\"}]" }
    ensures damaged { damaged_body
        ≡ codes "[{\"message\":\"the store is damaged\",\"errorCode\":\"STORE_DAMAGED\"}]" }
{}

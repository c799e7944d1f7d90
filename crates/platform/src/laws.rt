ghost use Rattle.std.specs.Prelude.{◌≡◌, ◌≢◌, ◌⊎◌, ◌↔◌, ℕ, [], ◌∷◌, Option, None, Some, codes, true};
ghost use Rattle.sha2.specs.Sha256.{sha256};
ghost use Rattle.store_kv.specs.Tables.{Tables};
ghost use Rattle.model.specs.Organisations.{with_org};
ghost use Rattle.model.specs.World.{World};
ghost use Rattle.store_abstraction.specs.Stands.{Stands};
ghost use Rattle.commands.specs.Commands.{Command, command_of, csvq, has_status, is_serving, org_add, printed, serves, user_set};
ghost use Rattle.commands.specs.Deeds.{one_deed};
ghost use Rattle.platform.specs.Promise.{IsStatus};
ghost use Rattle.platform.specs.Run.{VersionEnds};

use store_abstraction::stands_laws;

/// What commands print, worked by hand. Of `csvq`: a query that ends early. Of `org-add`: the first organisation, the second, a name
/// and a secret that are refused, which leave the world as it is. Of `user-set`: the administrator of the first organisation, and one of
/// no organisation.
pub fn printed_rows()
    ensures spelled { printed (csvq (codes "SELECT Id FROM ")) [] (codes "Name\n") []
        ≡ one_deed (record { text = codes "refused: MALFORMED_QUERY: unexpected token at 15\n"; status = 65 }) [] }
    ensures first { printed (org_add (codes "Acme") (codes "abcdefghijklmnop")) [] [] []
        ≡ one_deed (record { text = codes "00D000000000001EAA 005000000000000AAA\n"; status = 0 }) (with_org [] (codes "Acme") (sha256 (codes "abcdefghijklmnop"))) }
    ensures second { printed (org_add (codes "Bolt") (codes "abcdefghijklmnop")) (with_org [] (codes "Acme") []) [] []
        ≡ one_deed (record { text = codes "00D000000000002EAA 005000000000000AAA\n"; status = 0 })
        (with_org (with_org [] (codes "Acme") []) (codes "Bolt") (sha256 (codes "abcdefghijklmnop"))) }
    ensures name { printed (org_add [] (codes "abcdefghijklmnop")) [] [] []
        ≡ one_deed (record { text = codes "refused: NAME_REFUSED: 1 to 80 characters\n"; status = 65 }) [] }
    ensures secret { printed (org_add (codes "Acme") (codes "short")) [] [] []
        ≡ one_deed (record { text = codes "refused: SECRET_REFUSED: 16 to 64 letters or digits\n"; status = 65 }) [] }
    ensures user { printed (user_set (codes "00D000000000001") (codes "005000000000000AAA") (codes "abcdefghijklmnop")) (with_org [] (codes "Acme") []) [] []
        ≡ one_deed (record { text = codes "00D000000000001EAA 005000000000000AAA\n"; status = 0 }) (with_org [] (codes "Acme") (sha256 (codes "abcdefghijklmnop"))) }
    ensures nobody { printed (user_set (codes "00D000000000001") (codes "005000000000000") (codes "short")) [] [] []
        ≡ one_deed (record { text = codes "refused: NOT_FOUND: The requested resource does not exist\n"; status = 65 }) [] }
{}

/// What `serve` takes, worked by hand: no count, which is the most, or one from 1 to 2^64 - 1 in digits alone. The call does nothing.
pub fn serving_rows()
    ensures one { command_of (codes "serve" ∷ codes "1" ∷ []) ≡ Some (serves 1) }
    ensures most { command_of (codes "serve" ∷ codes "18446744073709551615" ∷ []) ≡ Some (serves 18446744073709551615) }
    ensures all { command_of (codes "serve" ∷ []) ≡ Some (serves 18446744073709551615) }
    ensures none { command_of (codes "serve" ∷ codes "0" ∷ []) ≡ None }
    ensures many { command_of (codes "serve" ∷ codes "18446744073709551616" ∷ []) ≡ None }
    ensures two { command_of (codes "serve" ∷ codes "1" ∷ codes "2" ∷ []) ≡ None }
    ensures signed { command_of (codes "serve" ∷ codes "+1" ∷ []) ≡ None }
    ensures leading { command_of (codes "serve" ∷ codes "01" ∷ []) ≡ None }
    ensures empty { command_of (codes "serve" ∷ [] ∷ []) ≡ None }
    ensures letters { command_of (codes "serve" ∷ codes "1k" ∷ []) ≡ None }
{}

/// What follows from the contract of `run`. The call does nothing.
pub fn run_laws()
    // 64 tells that the words are no command, and nothing else does.
    ensures none { (words : Option Command) (status : ℕ) → IsStatus words status → (status ≡ 64) ↔ (words ≡ None) }
    // Connections are served, or memory ran out before the first message, if nothing that is handed in failed.
    ensures served { (command : Command) (status : ℕ) (m : Tables) (w : World) → is_serving command ≡ true → has_status command status ≡ true
        → VersionEnds m status → Stands m w → status ≢ 72 → status ≢ 73 → status ≢ 74 → status ≢ 75
        → (status ≡ 0) ⊎ (status ≡ 71) }
{
    stands_laws();
}

//! What a new secret of a user comes to.

ghost use Rattle.std.specs.Prelude.{◌≡◌, ℕ, List, Ok, Some, true};
ghost use Rattle.std.specs.Option.{option_and_then};
ghost use Rattle.cmd_user_set.specs.UserSet.{key_change, user_set_verdict};
ghost use Rattle.model.specs.Callers.{caller_of, named_by};
ghost use Rattle.model.specs.People.{users_with};
ghost use Rattle.model.specs.Tenant.{Tenant};
ghost use Rattle.model.specs.World.{World, tenant_at, with_tenant};

use model::tenant_laws;

/// What a new secret of a user comes to where it isn't refused. The call does nothing.
pub fn user_set_laws()
    // No rule refuses the change of the user: nothing of the organisation but this user is another.
    ensures users { (w next : World) (org user secret : List ℕ) (ids : ℕ × List ℕ) → user_set_verdict org user secret w ≡ Ok (ids, next)
        → (t : Tenant) × (tenant_at w ids.0 ≡ Some t)
        × (next ≡ with_tenant w ids.0 (record t { users = users_with (key_change secret) user t.users })) }

    // The words then name a caller, who is an administrator.
    ensures caller { (w next : World) (org user secret : List ℕ) (ids : ℕ × List ℕ) → user_set_verdict org user secret w ≡ Ok (ids, next)
        → option_and_then (λ n. option_and_then (caller_of n) (tenant_at next n.org)) (named_by org user secret)
        ≡ Some (record { org = ids.0; user = ids.1; admin = true }) }

    // Every other organisation is as it was.
    ensures others { (w next : World) (org user secret : List ℕ) (ids : ℕ × List ℕ) → user_set_verdict org user secret w ≡ Ok (ids, next)
        → (m : ℕ) → (m ≡ ids.0 → ⊥) → tenant_at next m ≡ tenant_at w m }
{
    tenant_laws();
}

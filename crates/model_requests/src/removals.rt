//! The end of a role, and of a group.

ghost use Rattle.std.specs.Prelude.{List, ℕ};
ghost use Rattle.model.specs.Sound.{IsSound};
ghost use Rattle.model.specs.Tenant.{Tenant};
ghost use Rattle.model_requests.specs.Removals.{remove_group, remove_role};

/// What the end of a role or a group leaves is sound. The call does nothing.
pub fn removals_sound()
    ensures remove_role { (t : Tenant) (role : List ℕ) → IsSound t → IsSound (remove_role t role).tenant }
    ensures remove_group { (t : Tenant) (group : List ℕ) → IsSound t → IsSound (remove_group t group).tenant }
{}

//! Users, roles and groups, and the organisation's name.

ghost use Rattle.std.specs.Prelude.{List, Option, ℕ};
ghost use Rattle.model.specs.declared.people_bodies.GroupChange.{GroupChange};
ghost use Rattle.model.specs.declared.people_bodies.NewUser.{NewUser};
ghost use Rattle.model.specs.declared.people_bodies.RoleChange.{RoleChange};
ghost use Rattle.model.specs.declared.people_bodies.UserChange.{UserChange};
ghost use Rattle.model.specs.People.{add_group, add_role, add_user, set_group, set_organisation, set_role, set_user};
ghost use Rattle.model.specs.Sound.{IsSound};
ghost use Rattle.model.specs.Tenant.{Tenant};

use base_value::id_laws;
use model::access_laws;

/// What a request about people leaves is sound. The call does nothing.
pub fn people_sound()
    ensures add_user { (t : Tenant) (b : NewUser) → IsSound t → IsSound (add_user t b).tenant }
    ensures set_user { (t : Tenant) (user : List ℕ) (b : UserChange) → IsSound t → IsSound (set_user t user b).tenant }
    ensures add_role { (t : Tenant) (name : List ℕ) (parent : Option (List ℕ)) → IsSound t → IsSound (add_role t name parent).tenant }
    ensures set_role { (t : Tenant) (role : List ℕ) (b : RoleChange) → IsSound t → IsSound (set_role t role b).tenant }
    ensures add_group { (t : Tenant) (name : List ℕ) → IsSound t → IsSound (add_group t name).tenant }
    ensures set_group { (t : Tenant) (group : List ℕ) (b : GroupChange) → IsSound t → IsSound (set_group t group b).tenant }
    ensures set_organisation { (t : Tenant) (name : List ℕ) → IsSound t → IsSound (set_organisation t name).tenant }
{
    id_laws();
    access_laws();
}

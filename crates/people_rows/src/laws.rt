//! Which rows stay where a user, a role or a group comes or changes.

ghost use Rattle.std.specs.Prelude.{◌≡◌, ◌<◌, ◌^◌, ℕ, List, None, Some, false};
ghost use Rattle.store_rows.specs.Forms.{FitsForm, row_bytes};
ghost use Rattle.store_rows.specs.Keys.{Group as GroupKey, Key, Org, Role as RoleKey, User as UserKey};
ghost use Rattle.store_rows.specs.Rows.{group_form, org_form, role_form, user_form};
ghost use Rattle.model.specs.Known.{group_id, role_id};
ghost use Rattle.model.specs.Membership.{Has};
ghost use Rattle.model.specs.People.{changed, next_id, with_group, with_role, with_user};
ghost use Rattle.model.specs.Principals.{group_at, role_at};
ghost use Rattle.model.specs.Sound.{IsSound};
ghost use Rattle.model.specs.Tenant.{Group, Role, Tenant, User};
ghost use Rattle.model.specs.World.{group_prefix, role_prefix, user_at, user_id, user_prefix};
ghost use Rattle.people_rows.specs.Roster.{is_group_key, is_role_key, is_user_key};
ghost use Rattle.store_abstraction.specs.Metadata.{group_of, org_of, role_of, user_of};
ghost use Rattle.store_abstraction.specs.Plan.{FitsPlan, OrgPlan};
ghost use Rattle.store_abstraction.specs.Records.{is_org_key};
ghost use Rattle.store_abstraction.specs.Stands.{row_in};

use base_value::id_laws;
use model::name_laws;

/// The laws of the rows of users, roles and groups: which stay where one of them comes or changes, and what its own row is then.
/// The call does nothing.
pub fn roster_laws()
    // Where one comes: all rows stay but the organisation's and its own.
    ensures user { (p : OrgPlan) (t : Tenant) (u : User) (k : Key) → is_org_key k ≡ false → is_user_key u.id k ≡ false
        → row_in p (with_user u t) k ≡ row_in p t k }
    ensures role { (p : OrgPlan) (t : Tenant) (r : Role) (k : Key) → is_org_key k ≡ false → is_role_key r.id k ≡ false
        → row_in p (with_role r t) k ≡ row_in p t k }
    ensures group { (p : OrgPlan) (t : Tenant) (g : Group) (k : Key) → is_org_key k ≡ false → is_group_key g.id k ≡ false
        → row_in p (with_group g t) k ≡ row_in p t k }

    // Its own row is then its, if no one had its id before.
    ensures user_row { (p : OrgPlan) (t : Tenant) (org : ℕ) (u : User) → user_at t.users u.id ≡ None
        → row_in p (with_user u t) (UserKey org u.id) ≡ Some (row_bytes user_form (user_of org u)) }
    ensures role_row { (p : OrgPlan) (t : Tenant) (org : ℕ) (r : Role) → role_at t r.id ≡ None
        → row_in p (with_role r t) (RoleKey org r.id) ≡ Some (row_bytes role_form (role_of org r)) }
    ensures group_row { (p : OrgPlan) (t : Tenant) (org : ℕ) (g : Group) → group_at t g.id ≡ None
        → row_in p (with_group g t) (GroupKey org g.id) ≡ Some (row_bytes group_form (group_of org g)) }

    // Where one is changed, and keeps its id: all rows stay but its own.
    ensures user_changed { (p : OrgPlan) (t : Tenant) (i : List ℕ) (change : User → User) (k : Key)
        → ((u : User) → (change u).id ≡ u.id) → is_user_key i k ≡ false
        → row_in p (record t { users = changed user_id change i t.users }) k ≡ row_in p t k }
    ensures role_changed { (p : OrgPlan) (t : Tenant) (i : List ℕ) (change : Role → Role) (k : Key)
        → ((r : Role) → (change r).id ≡ r.id) → is_role_key i k ≡ false
        → row_in p (record t { roles = changed role_id change i t.roles }) k ≡ row_in p t k }
    ensures group_changed { (p : OrgPlan) (t : Tenant) (i : List ℕ) (change : Group → Group) (k : Key)
        → ((g : Group) → (change g).id ≡ g.id) → is_group_key i k ≡ false
        → row_in p (record t { groups = changed group_id change i t.groups }) k ≡ row_in p t k }

    // Its own row is then that of what it was changed to.
    ensures user_kept { (p : OrgPlan) (t : Tenant) (org : ℕ) (i : List ℕ) (change : User → User) (u : User)
        → ((v : User) → (change v).id ≡ v.id) → user_at t.users i ≡ Some u
        → row_in p (record t { users = changed user_id change i t.users }) (UserKey org i)
        ≡ Some (row_bytes user_form (user_of org (change u))) }
    ensures role_kept { (p : OrgPlan) (t : Tenant) (org : ℕ) (i : List ℕ) (change : Role → Role) (r : Role)
        → ((s : Role) → (change s).id ≡ s.id) → role_at t i ≡ Some r
        → row_in p (record t { roles = changed role_id change i t.roles }) (RoleKey org i)
        ≡ Some (row_bytes role_form (role_of org (change r))) }
    ensures group_kept { (p : OrgPlan) (t : Tenant) (org : ℕ) (i : List ℕ) (change : Group → Group) (g : Group)
        → ((h : Group) → (change h).id ≡ h.id) → group_at t i ≡ Some g
        → row_in p (record t { groups = changed group_id change i t.groups }) (GroupKey org i)
        ≡ Some (row_bytes group_form (group_of org (change g))) }

    // The organisation's own row has its counts.
    ensures counted { (p : OrgPlan) (t : Tenant) (org : ℕ) → row_in p t (Org org) ≡ Some (row_bytes org_form (org_of org t)) }

    // The id that comes next is nobody's yet.
    ensures no_user { (t : Tenant) → IsSound t → user_at t.users (next_id t user_prefix) ≡ None }
    ensures no_role { (t : Tenant) → IsSound t → role_at t (next_id t role_prefix) ≡ None }
    ensures no_group { (t : Tenant) → IsSound t → group_at t (next_id t group_prefix) ≡ None }

    // The rows of the organisation, of users, of roles and of groups fit their forms.
    ensures org_fits { (org : ℕ) (t : Tenant) → org < 2 ^ 32 → IsSound t → FitsForm org_form (org_of org t) }
    ensures user_fits { (org : ℕ) (t : Tenant) (u : User) → org < 2 ^ 32 → IsSound t → Has t.users u
        → FitsForm user_form (user_of org u) }
    ensures role_fits { (org : ℕ) (t : Tenant) (r : Role) → org < 2 ^ 32 → IsSound t → Has t.roles r
        → FitsForm role_form (role_of org r) }
    ensures group_fits { (org : ℕ) (t : Tenant) (g : Group) → org < 2 ^ 32 → IsSound t → Has t.groups g
        → FitsForm group_form (group_of org g) }

    // A plan fits whatever has the same objects and the same change of a type.
    ensures plan { (p : OrgPlan) (t u : Tenant) → u.objects ≡ t.objects → u.job ≡ t.job → FitsPlan p t → FitsPlan p u }
{
    id_laws();
    name_laws();
}

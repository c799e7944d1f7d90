//! What holds of access, of conditions and of the order of rows, for the layers above.

ghost use Rattle.std.specs.Prelude.{◌≡◌, ◌↔◌, ℕ, suc, IsTrue, List, not, Option, Some, length};
ghost use Rattle.std.specs.Cmp.{IsTotalOrder};
ghost use Rattle.std.specs.List.{list_all, list_any};
ghost use Rattle.std.specs.List.Sorted.{IsPermutation, IsSorted, IsStrictlySortedBy};
ghost use Rattle.std.specs.declared.cmp.Ordering.TheVariants.{Equal};
ghost use Rattle.base_value.specs.declared.sharing.Principal.{Principal};
ghost use Rattle.soql.specs.declared.query.Cond.{Cond};
ghost use Rattle.soql.specs.declared.query.Cond.TheVariants as cond;
ghost use Rattle.soql.specs.declared.query.OrderKey.{OrderKey};
ghost use Rattle.model.specs.declared.record.Record.{Record};
ghost use Rattle.model.specs.Conditions.{holds};
ghost use Rattle.model.specs.Membership.{Below, Has, IsAbove, IsMember, Reaches, is_above, is_below, is_below_within, is_member, reaches, structure_of};
ghost use Rattle.model.specs.Ordered.{IdsDiffer, before, in_order};
ghost use Rattle.model.specs.Paths.{Asked};
ghost use Rattle.model.specs.Tenant.{Tenant, User};

use base_value::{order_laws, principal_laws};

/// What is computed of roles, members and whom a principal reaches is the least relation, circles of groups or not. The call
/// does nothing.
pub fn access_laws()
    // As many steps as there are roles with a parent, and one more, are enough.
    ensures depth { (parent : List ℕ → Option (List ℕ)) (all : List (List ℕ)) (a b : List ℕ)
        → ((i c : List ℕ) → parent i ≡ Some c → Has all i)
        → IsTrue (is_below_within (suc (length all)) parent a b) ↔ Below parent a b }
    ensures below { (t : Tenant) (a b : List ℕ) → IsTrue (is_below t a b) ↔ Below (structure_of t).parent a b }
    ensures above { (t : Tenant) (u x : User) → IsTrue (is_above t u x) ↔ IsAbove t u x }
    ensures member { (t : Tenant) (u : User) (p : Principal) → IsTrue (is_member t u p) ↔ IsMember t u p }
    ensures reaches { (t : Tenant) (p : Principal) (u : User) → IsTrue (reaches t p u) ↔ Reaches t p u }
{
    principal_laws();
}

/// What NOT, AND and OR mean on a record, by the conditions within them. The call does nothing.
pub fn condition_laws()
    ensures negation { (a : Asked) (r : Record) (c : Cond) → holds a r (cond.Not c) ≡ not (holds a r c) }
    ensures all { (a : Asked) (r : Record) (cs : List Cond) → holds a r (cond.And cs) ≡ list_all (holds a r) cs }
    ensures some { (a : Asked) (r : Record) (cs : List Cond) → holds a r (cond.Or cs) ≡ list_any (holds a r) cs }
{}

/// The order of rows is strict and total on records with different ids, and what is sorted by it is what `in_order` gives.
/// The call does nothing.
pub fn sorting_laws()
    ensures total { (a : Asked) (keys : List OrderKey) → IsTotalOrder (before a keys) }
    ensures ties { (a : Asked) (keys : List OrderKey) (r s : Record) → before a keys r s ≡ Equal → r.id ≡ s.id }
    ensures sorted { (a : Asked) (keys : List OrderKey) (rs : List Record) → IdsDiffer rs
        → IsPermutation rs (in_order (before a keys) rs) × IsStrictlySortedBy (before a keys) (in_order (before a keys) rs) }
    ensures only { (a : Asked) (keys : List OrderKey) (rs ss : List Record) → IdsDiffer rs
        → IsPermutation rs ss → IsSorted (before a keys) ss → ss ≡ in_order (before a keys) rs }
{
    order_laws();
}

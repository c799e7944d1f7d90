//! What holds of objects and records that are found, and of requests that are refused, for the layers above.

ghost use Rattle.std.specs.Prelude.{◌≡◌, ℕ, IsTrue, List, [], length, true, Some};
ghost use Rattle.std.specs.List.Sorted.{IsStrictlySortedBy};
ghost use Rattle.base_value.specs.declared.sharing.Level.TheVariants.{Full};
ghost use Rattle.model.specs.declared.record.Record.{Record};
ghost use Rattle.model.specs.Levels.{level};
ghost use Rattle.model.specs.Membership.{Has};
ghost use Rattle.model.specs.Objects.{Numbered, object_named, object_numbered, records_of};
ghost use Rattle.model.specs.Organisations.{fresh};
ghost use Rattle.model.specs.Ordered.{before, by_id, in_order};
ghost use Rattle.model.specs.Paths.{Asked};
ghost use Rattle.model.specs.Rows.{readable_of};
ghost use Rattle.model.specs.Sound.{IsSound, is_name};
ghost use Rattle.model.specs.Tenant.{Tenant, User};

/// The object that is named is the one with its number. The call does nothing.
pub fn object_laws()
    ensures named { (t : Tenant) (name : List ℕ) (o : Numbered) → object_named t name ≡ Some o → object_numbered t o.number ≡ Some o.object }
{}

/// The records of an object are in the order of their ids, which is their order without keys. The call does nothing.
pub fn record_laws()
    ensures rise { (t : Tenant) (n : ℕ) → IsSound t → IsStrictlySortedBy by_id (records_of t n) }
    ensures already { (a : Asked) (rs : List Record) → IsStrictlySortedBy by_id rs → in_order (before a []) rs ≡ rs }
{}

/// An administrator of a sound organisation has all rights on each of its records, and so reads all. The call does nothing.
pub fn administrator_laws()
    ensures level { (t : Tenant) (u : User) (r : Record) → IsSound t → u.admin ≡ true → Has t.records r → level t u r ≡ Full }
    ensures readable { (a : Asked) (n : ℕ) → IsSound a.tenant → a.user.admin ≡ true → readable_of a n ≡ records_of a.tenant n }
{}

/// A new organisation is sound, if its name has the form of a name and the digest the length of one. The call does nothing.
pub fn organisation_laws()
    ensures fresh { (name digest : List ℕ) → IsTrue (is_name name) → length digest ≡ 32 → IsSound (fresh name digest) }
{}

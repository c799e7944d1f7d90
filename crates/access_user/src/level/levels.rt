//! Levels in their order, and what is so of all records of an object.

ghost use Rattle.std.specs.Prelude.{◌≡◌, Some, true};
ghost use Rattle.model.specs.declared.record.Record.{Record};
ghost use Rattle.model.specs.Levels.{at_least, own_level, rank};
ghost use Rattle.model.specs.Objects.{object_number, object_of_record};
ghost use Rattle.model.specs.Tenant.{Object, Tenant, User};
ghost use Rattle.base_value.specs.declared.sharing.Level.TheVariants.{Read};
ghost use Rattle.access_closure.specs.declared.people.People.{People};
ghost use Rattle.access_user.specs.level.Own.{IsOwnLevels, greater, is_open, level_apart, up_to};

use crate::level::knowing::{OwnLevels, by_access};
use base_value::{Access, Level};

fn rank(level: Level) -> u8
    ensures { result ≡ rank level }
{
    match level {
        Level::Nothing => 0,
        Level::Read => 1,
        Level::Edit => 2,
        Level::Full => 3,
    }
}

/// The greater of two levels.
pub(crate) fn greater(a: Level, b: Level) -> Level
    ensures { result ≡ greater a b }
{
    if rank(a) <= rank(b) { b } else { a }
}

/// Whether every user may read all records of an object with this default access, whoever owns them.
pub fn is_open(access: Access) -> bool
    ensures value { result ≡ is_open access }
    ensures readable { (t : Tenant) (u : User) (o : Object) (r : Record) → result ≡ true → object_of_record t r ≡ Some o → o.access ≡ access
        → at_least Read (own_level t u r) ≡ true }
{
    rank(Level::Read) <= rank(by_access(access))
}

/// Whether every user may read all records of an object, whoever asks.
pub fn is_readable_by_all(own: &OwnLevels) -> bool
    ensures { (people : People) (t : Tenant) (u : User) (o : Object) (r : Record) → result ≡ true → object_of_record t r ≡ Some o
        → IsOwnLevels people t u (object_number r.id) o own.now → at_least Read (own_level t u r) ≡ true }
{
    rank(Level::Read) <= rank(own.base)
}

/// Whether shares don't matter to whether the level on a record is this one, since it is without them.
pub fn is_settled(asked: Level, apart: Level) -> bool
    ensures value { result ≡ at_least asked apart }
    ensures settled { (t : Tenant) (u : User) (r : Record) → result ≡ true → apart ≡ level_apart t u r
        → up_to asked apart ≡ up_to asked (own_level t u r) }
{
    rank(asked) <= rank(apart)
}

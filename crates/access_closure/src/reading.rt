//! The people of an organisation, and the keyring of one of its users, read from the tables.

ghost use Rattle.std.specs.Prelude.{◌≡◌, ◌||◌, ℕ, bytes_eq, false};
ghost use Rattle.store_kv.specs.Draft.{DraftTells, tables_of};
ghost use Rattle.model.specs.Cases.{in_case};
ghost use Rattle.model.specs.Membership.{Has, is_above, reaches};
ghost use Rattle.model.specs.Sound.{IsSound};
ghost use Rattle.model.specs.Tenant.{Tenant, User};
ghost use Rattle.model.specs.World.{user_at};
ghost use Rattle.access_closure.specs.Reading.{FindsPeople, FindsSharer, IsSharer};
ghost use Rattle.store_abstraction.specs.Calls.{Calls, ended};

use crate::keyring::Keyring;
use crate::people::People;
use base_value::{Id, Principal};
use people_rows::{groups_of, roles_of, users_of};
use std::alloc::Global;
use store_abstraction::call_laws;
use store_kv::{Draft, Keeper};
use store_rows::StoreFail;

/// A user's keyring, with the people of whom it holds some.
#[derive(Drop)]
pub struct Sharer {
    /// The organisation's people.
    pub people: People,
    /// The user's keyring.
    pub keyring: Keyring,
}

impl Sharer {
    /// Whether a principal reaches the user.
    pub fn reaches(&self, principal: &Principal) -> bool
        ensures { (org : ℕ) (t : Tenant) (u : User) → IsSharer org u.id t self.now → IsSound t → Has t.users u
            → result ≡ reaches t principal.now u }
    {
        self.keyring.holds(&self.people, principal)
    }

    /// Whether the id is the user's, or that of a user below.
    pub fn owns(&self, id: &Id) -> bool
        ensures { (org : ℕ) (t : Tenant) (u : User) → IsSharer org u.id t self.now → IsSound t → Has t.users u
            → result ≡ in_case (user_at t.users id.now) false (λ x. bytes_eq x.id u.id || is_above t u x) }
    {
        self.keyring.owns(&self.people, id)
    }
}

// The people of an organisation.
fn people_of<K: Keeper>(
    alloc: Global,
    draft: &mut Draft<'_, K>,
    org: u32,
) -> Result<People, StoreFail>
    ensures finds { DraftTells K.state draft.old draft.new → FindsPeople org (tables_of K.state draft.old) result }
    ensures calls { Calls K.state 0 (ended result) draft.old draft.new }
{
    call_laws::<K>();
    let users = users_of(alloc, draft, org)?;
    let roles = roles_of(alloc, draft, org)?;
    let groups = groups_of(alloc, draft, org)?;
    Ok(People {
        users,
        roles,
        groups,
    })
}

/// The keyring of the user with this id, with the organisation's people; it holds nothing if the organisation has no such user.
///
/// # Errors
///
/// `Keeper` if the keeper failed, `Memory` if out of memory, `Damaged` never if the organisation's rows stand for a tenant or
/// for none.
pub fn keyring_of<K: Keeper>(
    alloc: Global,
    draft: &mut Draft<'_, K>,
    org: u32,
    user: &Id,
) -> Result<Sharer, StoreFail>
    ensures finds { DraftTells K.state draft.old draft.new → FindsSharer org user.now (tables_of K.state draft.old) result }
    ensures calls { Calls K.state 0 (ended result) draft.old draft.new }
{
    call_laws::<K>();
    let people = people_of(alloc, draft, org)?;
    let keyring = Keyring::of(alloc, &people, user)?;
    Ok(Sharer { people, keyring })
}

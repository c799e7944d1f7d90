ghost use Rattle.std.specs.Prelude.{◌≡◌, ◌||◌, ℕ, IfOk, bytes_eq, false};
ghost use Rattle.model.specs.Cases.{in_case};
ghost use Rattle.model.specs.Membership.{is_above, reaches};
ghost use Rattle.model.specs.Tenant.{Tenant, User};
ghost use Rattle.model.specs.World.{user_at};
ghost use Rattle.access_closure.specs.Keyrings.{IsKeyringOf, IsUserAmong};

use crate::chosen::choose_all;
use crate::people::People;
use crate::ring::{Ring, ring_of};
use crate::roles::edges_up;
use base_value::{Id, Principal};
use model::access_laws;
use std::alloc::{AllocError, Global};

/// Which principals reach a user, and whose records are the user's as the owner's or an owner's above.
#[derive(Drop)]
pub struct Keyring {
    ring: Ring,
}

impl Keyring {
    /// The keyring of the user with this id, if there is one among the people; else it holds nothing.
    ///
    /// # Errors
    ///
    /// Where memory runs out.
    pub fn of(alloc: Global, people: &People, user: &Id) -> Result<Keyring, AllocError>
        ensures { IfOk result (IsKeyringOf people.now user.now) }
    {
        access_laws();
        let up = edges_up(alloc, people.roles.as_slice())?;
        let chosen = choose_all(alloc, people, up.as_slice(), user)?;
        let ring = ring_of(alloc, people, chosen, up.as_slice())?;
        Ok(Keyring { ring })
    }

    /// Whether a principal reaches the user.
    pub fn holds(&self, people: &People, principal: &Principal) -> bool
        ensures { (org : ℕ) (t : Tenant) (u : User) → IsUserAmong org t u people.now → IsKeyringOf people.now u.id self.now
            → result ≡ reaches t principal.now u }
    {
        self.ring.holds(people, principal)
    }

    /// Whether the id is the user's, or that of a user below.
    pub fn owns(&self, people: &People, id: &Id) -> bool
        ensures { (org : ℕ) (t : Tenant) (u : User) → IsUserAmong org t u people.now → IsKeyringOf people.now u.id self.now
            → result ≡ in_case (user_at t.users id.now) false (λ x. bytes_eq x.id u.id || is_above t u x) }
    {
        access_laws();
        self.ring.holds(people, &Principal::User(*id))
    }
}

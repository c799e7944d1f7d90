ghost use Rattle.std.specs.Prelude.{◌≡◌, ℕ, IfOk};
ghost use Rattle.model.specs.Membership.{is_member};
ghost use Rattle.model.specs.Tenant.{Tenant, User};
ghost use Rattle.access_closure.specs.Keyrings.{IsMembershipOf, IsUserAmong};

use crate::chosen::choose;
use crate::people::People;
use crate::ring::{Ring, ring_of};
use crate::roles::edges_up;
use base_value::{Id, Principal};
use model::access_laws;
use std::alloc::{AllocError, Global};

/// The principals that a user is a member of.
#[derive(Drop)]
pub struct Membership {
    ring: Ring,
}

impl Membership {
    /// That of the user with this id, if there is one among the people; else it holds nothing.
    ///
    /// # Errors
    ///
    /// Where memory runs out.
    pub fn of(alloc: Global, people: &People, user: &Id) -> Result<Membership, AllocError>
        ensures { IfOk result (IsMembershipOf people.now user.now) }
    {
        access_laws();
        let up = edges_up(alloc, people.roles.as_slice())?;
        let chosen = choose(alloc, people, user)?;
        let ring = ring_of(alloc, people, chosen, up.as_slice())?;
        Ok(Membership { ring })
    }

    /// Whether the user is a member of a principal.
    pub fn is_member(&self, people: &People, principal: &Principal) -> bool
        ensures { (org : ℕ) (t : Tenant) (u : User) → IsUserAmong org t u people.now → IsMembershipOf people.now u.id self.now
            → result ≡ is_member t u principal.now }
    {
        self.ring.holds(people, principal)
    }
}

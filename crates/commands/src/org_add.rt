//! The command `org-add`.

ghost use Rattle.std.specs.Prelude.{◌≡◌, IfOk, true};
ghost use Rattle.commands.specs.OrgAdd.{added_printout, org_does};

use crate::printout::{Printout, printout_of_refusal, printout_of_user};
use crate::tables::TableWork;
use model::{Refusal, first_user_id, is_name};
use people_edit::{add_org, is_secret};
use std::alloc::{AllocError, Global};
use store_abstraction::{EditFail, Judged};
use store_kv::{Draft, Keeper, draft_laws};
use store_rows::StoreFail;

/// A new organisation with this name, and its administrator with this secret.
#[derive(Drop)]
pub struct OrgAdd<'a> {
    /// Its name, of 1 to 80 characters.
    pub name: &'a str,
    /// The secret, of 16 to 64 letters or digits.
    pub secret: &'a str,
}

// The printout of a new organisation with this number.
fn org_printout(alloc: Global, org: u32) -> Result<Printout, AllocError>
    ensures { IfOk result (λ p. p ≡ added_printout org) }
{
    printout_of_user(alloc, (org, first_user_id()))
}

impl TableWork for OrgAdd<'_> {
    ghost does = { λ o w. org_does o.name.now o.secret.now w };

    ghost keeps = { true };

    ghost most = { λ o. 3 };

    ghost shown = { λ o removed. 0 };

    fn judge<K: Keeper>(
        &self,
        alloc: Global,
        draft: &mut Draft<'_, K>,
        organisations: u32,
    ) -> Result<Judged<Printout>, StoreFail> {
        draft_laws::<K>();
        if !is_name(self.name) {
            return Ok(Judged::Same(printout_of_refusal(alloc, &Refusal::NameRefused)?));
        }
        if !is_secret(self.secret) {
            return Ok(Judged::Same(printout_of_refusal(alloc, &Refusal::SecretRefused)?));
        }
        match add_org(alloc, draft, organisations, self.name, self.secret) {
            Ok(org) => Ok(Judged::Changed(org_printout(alloc, org)?)),
            Err(EditFail::Refused(refusal)) => Ok(Judged::Same(printout_of_refusal(
                alloc, &refusal,
            )?)),
            Err(EditFail::Store(fail)) => Err(fail),
        }
    }
}

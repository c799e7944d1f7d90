//! The command `user-set`.

ghost use Rattle.std.specs.Prelude.{true};
ghost use Rattle.commands.specs.UserSet.{user_set_does};

use crate::printout::{Printout, printout_of_refusal, printout_of_user};
use crate::tables::TableWork;
use cmd_user_set::set_user_key;
use std::alloc::Global;
use store_abstraction::{EditFail, Judged};
use store_kv::{Draft, Keeper, draft_laws};
use store_rows::StoreFail;

/// A new secret of a user, who is an active administrator then.
#[derive(Drop)]
pub struct UserSet<'a> {
    /// The organisation's id.
    pub org: &'a str,
    /// The user's id.
    pub user: &'a str,
    /// The secret, of 16 to 64 letters or digits.
    pub secret: &'a str,
}

impl TableWork for UserSet<'_> {
    ghost does = { λ u w. user_set_does u.org.now u.user.now u.secret.now w };

    ghost keeps = { true };

    ghost most = { λ u. 1 };

    ghost shown = { λ u removed. 0 };

    fn judge<K: Keeper>(
        &self,
        alloc: Global,
        draft: &mut Draft<'_, K>,
        _organisations: u32,
    ) -> Result<Judged<Printout>, StoreFail> {
        draft_laws::<K>();
        match set_user_key(alloc, draft, self.org, self.user, self.secret) {
            Ok(ids) => Ok(Judged::Changed(printout_of_user(alloc, ids)?)),
            Err(EditFail::Refused(refusal)) => Ok(Judged::Same(printout_of_refusal(
                alloc, &refusal,
            )?)),
            Err(EditFail::Store(fail)) => Err(fail),
        }
    }
}

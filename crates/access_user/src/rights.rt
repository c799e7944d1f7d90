//! The rights of a user who doesn't administer.

ghost use Rattle.access_user.specs.Granting.{FindsRights};
ghost use Rattle.store_kv.specs.Draft.{DraftTells, tables_of};
ghost use Rattle.store_abstraction.specs.Calls.{Calls, ended};

use access_closure::{Sharer, keyring_of};
use base_value::Id;
use people_rows::sharing_rules_of;
use std::alloc::Global;
use store_abstraction::call_laws;
use store_kv::{Draft, Keeper, draft_laws};
use store_rows::{SharingRow, StoreFail};

/// What decides a user's levels on records: the user's keyring, and the organisation's sharing rules.
#[derive(Drop)]
pub struct UserRights {
    /// The organisation's number.
    pub org: u32,
    /// The user's id.
    pub user: Id,
    /// The user's keyring, with the organisation's people.
    pub sharer: Sharer,
    /// The organisation's sharing rules.
    pub rules: Vec<SharingRow>,
}

/// The rights of the user with this id, if the organisation has such a user, who is no administrator.
///
/// # Errors
///
/// `Keeper` if the keeper failed, `Memory` if out of memory, `Damaged` never if the organisation's rows stand for a tenant or
/// for none.
pub fn user_rights<K: Keeper>(
    alloc: Global,
    draft: &mut Draft<'_, K>,
    org: u32,
    user: &Id,
) -> Result<UserRights, StoreFail>
    ensures finds { DraftTells K.state draft.old draft.new → FindsRights org user.now (tables_of K.state draft.old) result }
    ensures calls { Calls K.state 0 (ended result) draft.old draft.new }
{
    draft_laws::<K>();
    call_laws::<K>();
    let sharer = keyring_of(alloc, draft, org, user)?;
    let rules = sharing_rules_of(alloc, draft, org)?;
    Ok(UserRights {
        org,
        user: *user,
        sharer,
        rules,
    })
}

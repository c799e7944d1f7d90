//! The user whom two texts name.

ghost use Rattle.std.specs.Prelude.{◌≡◌};
ghost use Rattle.std.specs.Str.{chars};
ghost use Rattle.cmd_user_set.specs.UserSet.{user_named, user_with_id};
ghost use Rattle.cmd_user_set.specs.inner.Named.{FindsUser};
ghost use Rattle.store_kv.specs.Draft.{DraftTells, tables_of};
ghost use Rattle.model.specs.Callers.{named_ids};
ghost use Rattle.model.specs.World.{World};
ghost use Rattle.store_abstraction.specs.Calls.{Calls, ended_edit};
ghost use Rattle.store_abstraction.specs.Stands.{Stands};

use base_value::{Id, id_in};
use model::{Refusal, org_number};
use std::alloc::Global;
use store_abstraction::{EditFail, call_laws, local_laws, user};
use store_kv::{Draft, Keeper};

// The number of the organisation and the id of the user that these texts name.
fn named_ids(org: &str, user: &str) -> Option<(u64, Id)>
    ensures { result ≡ named_ids (chars org.now) (chars user.now) }
{
    match id_in(org) {
        None => None,
        Some(org) => match id_in(user) {
            None => None,
            Some(user) => match org_number(&org) {
                None => None,
                Some(number) => Some((number, user)),
            },
        },
    }
}

// The same, if the organisation with this number has a user with this id.
fn user_there<K: Keeper>(
    alloc: Global,
    draft: &mut Draft<'_, K>,
    number: u64,
    id: Id,
) -> Result<(u32, Id), EditFail>
    ensures finds { DraftTells K.state draft.old draft.new → (w : World) → Stands (tables_of K.state draft.old) w
        → FindsUser (user_with_id w (number, id)) result }
    ensures calls { Calls K.state 0 (ended_edit result) draft.old draft.new }
{
    call_laws::<K>();
    local_laws();
    let Ok(org) = u32::try_from(number) else {
        // There are fewer organisations.
        return Err(EditFail::Refused(Refusal::NotFound));
    };
    match user(alloc, draft, org, &id) {
        Ok(Some(_)) => Ok((org, id)),
        Ok(None) => Err(EditFail::Refused(Refusal::NotFound)),
        Err(fail) => Err(EditFail::Store(fail)),
    }
}

/// The number of the organisation and the id of the user that these texts name, if the organisation has such a user.
///
/// # Errors
///
/// `Refused` with `NotFound` if it has none, or if they name none. `Store` with `Keeper` if the keeper failed, `Memory` if out
/// of memory, `Damaged` never if the tables stand for a world.
pub(crate) fn user_named<K: Keeper>(
    alloc: Global,
    draft: &mut Draft<'_, K>,
    org: &str,
    user: &str,
) -> Result<(u32, Id), EditFail>
    ensures finds { DraftTells K.state draft.old draft.new → (w : World) → Stands (tables_of K.state draft.old) w
        → FindsUser (user_named w (chars org.now) (chars user.now)) result }
    ensures calls { Calls K.state 0 (ended_edit result) draft.old draft.new }
{
    call_laws::<K>();
    let (number, id) = named_ids(org, user).ok_or(EditFail::Refused(Refusal::NotFound))?;
    user_there(alloc, draft, number, id)
}

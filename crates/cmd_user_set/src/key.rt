//! A new secret of a user.

ghost use Rattle.std.specs.Prelude.{◌≡◌, ◌<◌, IfErr, OnOk};
ghost use Rattle.std.specs.Str.{chars};
ghost use Rattle.cmd_user_set.specs.UserSet.{key_change, user_set_verdict};
ghost use Rattle.cmd_user_set.specs.inner.Named.{ChangesKey};
ghost use Rattle.store_edit.specs.Edits.{DraftsEdit};
ghost use Rattle.store_kv.specs.Draft.{DraftReads, DraftTells, DraftWorks, count_of, state_of, tables_of};
ghost use Rattle.store_kv.specs.State.{KeeperCause, StaysAfter};
ghost use Rattle.model.specs.World.{World};
ghost use Rattle.store_abstraction.specs.Fails.{IsRefusal, KeeperFailsEdit, is_judged};
ghost use Rattle.store_abstraction.specs.Operations.{Edits};
ghost use Rattle.store_abstraction.specs.Stands.{Stands};

use crate::named::user_named;
use base_value::{Id, Text};
use model::{Refusal, UserChange};
use people_edit::{SetUser, is_secret};
use std::alloc::Global;
use store_abstraction::{EditFail, call_laws, local_laws};
use store_edit::make_edit;
use store_kv::{Draft, Keeper, draft_laws};

// What is changed of a user who is given this secret.
fn key_change(secret: Text) -> UserChange
    ensures { result ≡ key_change secret }
{
    UserChange {
        role: None,
        name: None,
        secret: Some(secret),
        admin: Some(true),
        active: Some(true),
    }
}

// Gives the user whom a text spells this secret, if it is one, in the organisation with this number.
fn change_key<K: Keeper>(
    alloc: Global,
    draft: &mut Draft<'_, K>,
    org: u32,
    user: &str,
    secret: &str,
) -> Result<(), EditFail>
    ensures what { DraftTells K.state draft.old draft.new
        → ChangesKey org (chars user.now) (chars secret.now) (tables_of K.state draft.old) (tables_of K.state draft.new) result }
    ensures drafts { DraftsEdit K.state 1 0 0 result draft.old draft.new }
{
    draft_laws::<K>();
    call_laws::<K>();
    let user = Text::from_str(alloc, user)?;
    let secret = Text::from_str(alloc, secret)?;
    if !is_secret(secret.as_str()) {
        return Err(EditFail::Refused(Refusal::SecretRefused));
    }
    let change = key_change(secret);
    make_edit(
        alloc,
        draft,
        org,
        &SetUser {
            user: &user,
            change: &change,
        },
    )
}

/// Gives the user with this id in the organisation with this id a new secret, and makes it an active administrator. It returns
/// the organisation's number and the user's id. Ids have 15 or 18 characters.
///
/// # Errors
///
/// `Refused` with `NotFound` if a text is no id, or there is no such organisation, or it has no such user; and then with
/// `SecretRefused` if the secret isn't one of 16 to 64 ASCII letters and digits. Nothing is changed then. `Store` with `Keeper` if
/// the keeper failed, `Memory` if out of memory, `Damaged` never if the tables stand for a world.
pub fn set_user_key<K: Keeper>(
    alloc: Global,
    draft: &mut Draft<'_, K>,
    org: &str,
    user: &str,
    secret: &str,
) -> Result<(u32, Id), EditFail>
    ensures sets { DraftTells K.state draft.old draft.new
        → (w : World) → Stands (tables_of K.state draft.old) w
        → Edits (user_set_verdict (chars org.now) (chars user.now) (chars secret.now)) w (tables_of K.state draft.new) result }
    ensures some { OnOk result (0 < count_of draft.new) }
    ensures refused { IfErr result (λ e. IsRefusal e → DraftReads K.state 0 draft.old draft.new) }
    ensures works { DraftWorks K.state 1 0 0 draft.old draft.new }
    ensures stays { StaysAfter (is_judged result) (state_of K.state draft.old) (state_of K.state draft.new) }
    ensures cause { KeeperCause (state_of K.state draft.old) (state_of K.state draft.new) (KeeperFailsEdit result) }
{
    draft_laws::<K>();
    call_laws::<K>();
    local_laws();
    let (number, id) = user_named(alloc, draft, org, user)?;
    change_key(alloc, draft, number, user, secret)?;
    Ok((number, id))
}

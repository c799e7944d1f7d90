ghost use Rattle.std.specs.Prelude.{◌≡◌, MatchOption, None, Some, length};
ghost use Rattle.sha2.specs.Sha256.{sha256};
ghost use Rattle.store_kv.specs.Draft.{DraftTells, tables_of};
ghost use Rattle.model.specs.Callers.{cut, named, named_by, named_ids};
ghost use Rattle.people_edit.specs.People.{FindsCaller, admitted_row};
ghost use Rattle.store_abstraction.specs.Calls.{Calls, ended};

use base_value::{Id, id_in};
use model::{Caller, org_number};
use sha2::{Digest, Sha256};
use std::alloc::Global;
use store_abstraction::{call_laws, user};
use store_kv::{Draft, Keeper, draft_laws};
use store_rows::{StoreFail, UserRow};

/// The SHA-256 digest of a secret's bytes.
pub(crate) fn digest_of(secret: &str) -> [u8; 32]
    ensures value { result ≡ sha256 secret.now }
    ensures size { length result ≡ 32 }
{
    Sha256::digest(secret.as_bytes())
}

// What stands before and behind the first `!`, if there is one.
#[tactic(auto, unfolding(model::specs::Callers::cut))]
fn cut(text: &str) -> Option<(&str, &str)>
    ensures { MatchOption result (cut text.now ≡ None) (λ x. cut text.now ≡ Some (x.0.now, x.1.now)) }
{
    text.split_once('!')
}

// The number of the organisation and the id of the user that these texts name.
fn named_ids(org: &str, user: &str) -> Option<(u64, Id)>
    ensures { MatchOption result (named_ids org.now user.now ≡ None) (λ x. named_ids org.now user.now ≡ Some (x.0, x.1)) }
{
    match id_in(org) {
        None => None,
        Some(org) => match id_in(user) {
            None => None,
            Some(user) => match org_number(&org) {
                None => None,
                Some(number) => Some((number, user)),
            },
        },
    }
}

// The caller whom a user's row in the organisation with this number gives, if the user is active and the secret is the user's.
fn admitted(org: u32, secret: &str, row: &UserRow) -> Option<Caller>
    ensures { result ≡ admitted_row org (sha256 secret.now) row.now }
{
    if row.active && row.digest == digest_of(secret) {
        Some(Caller {
            org,
            user: row.id,
            admin: row.admin,
        })
    } else {
        None
    }
}

// The caller with this secret, who has this id in the organisation with this number.
fn caller_with<K: Keeper>(
    alloc: Global,
    draft: &mut Draft<'_, K>,
    org: u64,
    id: &Id,
    secret: &str,
) -> Result<Option<Caller>, StoreFail>
    ensures finds { DraftTells K.state draft.old draft.new
        → FindsCaller (Some (record { org = org; user = id.now; secret = secret.now })) (tables_of K.state draft.old) result }
    ensures calls { Calls K.state 0 (ended result) draft.old draft.new }
{
    draft_laws::<K>();
    call_laws::<K>();
    let Ok(org) = u32::try_from(org) else {
        // There are fewer organisations.
        return Ok(None);
    };
    match user(alloc, draft, org, id) {
        Ok(Some(row)) => Ok(admitted(org, secret, &row)),
        Ok(None) => Ok(None),
        Err(fail) => Err(fail),
    }
}

/// The caller who is the user with this id in the organisation with this id, if the secret is the user's. Ids have 15 or 18 characters.
///
/// # Errors
///
/// As `caller`.
pub fn caller_named<K: Keeper>(
    alloc: Global,
    draft: &mut Draft<'_, K>,
    org: &str,
    user: &str,
    secret: &str,
) -> Result<Option<Caller>, StoreFail>
    ensures finds { DraftTells K.state draft.old draft.new
        → FindsCaller (named_by org.now user.now secret.now) (tables_of K.state draft.old) result }
    ensures calls { Calls K.state 0 (ended result) draft.old draft.new }
{
    draft_laws::<K>();
    call_laws::<K>();
    match named_ids(org, user) {
        None => Ok(None),
        Some((org, id)) => caller_with(alloc, draft, org, &id, secret),
    }
}

/// The caller whom a key `ORG!USER!SECRET` names and whose secret it has. The key is cut at its first two `!`; ids have 15
/// or 18 characters.
///
/// # Errors
///
/// `Keeper` if the keeper failed, `Memory` if out of memory, `Damaged` never if the rows of the organisation that is named
/// stand for a tenant or for none.
pub fn caller<K: Keeper>(
    alloc: Global,
    draft: &mut Draft<'_, K>,
    key: &str,
) -> Result<Option<Caller>, StoreFail>
    ensures finds { DraftTells K.state draft.old draft.new → FindsCaller (named key.now) (tables_of K.state draft.old) result }
    ensures calls { Calls K.state 0 (ended result) draft.old draft.new }
{
    draft_laws::<K>();
    call_laws::<K>();
    let Some((org, rest)) = cut(key) else {
        return Ok(None);
    };
    let Some((id, secret)) = cut(rest) else {
        return Ok(None);
    };
    caller_named(alloc, draft, org, id, secret)
}

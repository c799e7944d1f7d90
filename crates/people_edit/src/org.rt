ghost use Rattle.std.specs.Prelude.{◌≡◌, ◌<◌, [], IsTrue, IfErr, IfOk, OnOk, is_ok, length};
ghost use Rattle.std.specs.Str.{chars};
ghost use Rattle.sha2.specs.Sha256.{sha256};
ghost use Rattle.store_kv.specs.Draft.{DraftReads, DraftTells, DraftWorks, count_of, state_of, tables_of};
ghost use Rattle.store_kv.specs.State.{KeeperCause, StaysAfter};
ghost use Rattle.model.specs.Organisations.{administrator, fresh, is_secret, org_verdict};
ghost use Rattle.model.specs.Sound.{is_name};
ghost use Rattle.model.specs.World.{World};
ghost use Rattle.people_edit.specs.People.{with_rows};
ghost use Rattle.store_abstraction.specs.Fails.{IsRefusal, KeeperFailsEdit, is_judged};
ghost use Rattle.store_abstraction.specs.Metadata.{org_of, user_of};
ghost use Rattle.store_abstraction.specs.Operations.{Edits};
ghost use Rattle.store_abstraction.specs.Stands.{Stands};

use crate::admission::digest_of;
use base_value::{Text, id_laws};
use model::{Limit, Refusal, first_user_id, name_laws, organisation_laws};
use std::alloc::{AllocError, Global};
use store_abstraction::{EditFail, KNOWN_VERSION, stands_laws};
use store_kv::{Draft, Keeper, draft_laws};
use store_rows::{OrgRow, StoreFail, UserRow, VersionRow, put, table_laws};

// The row of a new organisation, which has one user.
fn org_row_of(alloc: Global, org: u32, name: &str) -> Result<OrgRow, AllocError>
    ensures { IfOk result (λ row. row ≡ org_of org (fresh (chars name.now) [])) }
{
    Ok(OrgRow {
        org,
        name: Text::from_str(alloc, name)?,
        counter: 1,
        objects: 0,
        records: 0,
        users: 1,
        roles: 0,
        groups: 0,
        sharing_rules: 0,
        rule_numbers: 0,
    })
}

// The row of its administrator.
fn administrator_of(
    alloc: Global,
    org: u32,
    name: &str,
    digest: [u8; 32],
) -> Result<UserRow, AllocError>
    ensures { IfOk result (λ row. row ≡ user_of org (administrator (chars name.now) digest)) }
{
    Ok(UserRow {
        org,
        id: first_user_id(),
        name: Text::from_str(alloc, name)?,
        digest,
        role: None,
        admin: true,
        active: true,
    })
}

// Puts the rows of a new organisation with this number.
fn put_rows<K: Keeper>(
    alloc: Global,
    draft: &mut Draft<'_, K>,
    org: u32,
    name: &str,
    digest: [u8; 32],
) -> Result<(), AllocError>
    requires { IsTrue (is_name (chars name.now)) }
    ensures works { DraftWorks K.state 3 0 0 draft.old draft.new }
    ensures stays { StaysAfter (is_ok result) (state_of K.state draft.old) (state_of K.state draft.new) }
    ensures ok { OnOk result (tables_of K.state draft.new ≡ with_rows org (chars name.now) digest (tables_of K.state draft.old)) }
    ensures some { OnOk result (0 < count_of draft.new) }
{
    draft_laws::<K>();
    name_laws();
    id_laws();
    let version = VersionRow {
        version: KNOWN_VERSION,
        organisations: org,
    };
    put(alloc, draft, &version)?;
    put(alloc, draft, &org_row_of(alloc, org, name)?)?;
    put(alloc, draft, &administrator_of(alloc, org, name, digest)?)
}

/// Adds an organisation with this name, whose administrator has its name and this secret, and returns its number.
///
/// `organisations` is how many there are, as `open_tables` returned it.
///
/// # Errors
///
/// `Refused` with `LimitExceeded` exactly if there are 10,000 organisations; nothing is then changed. `Store` with
/// `Memory` if out of memory.
pub fn add_org<K: Keeper>(
    alloc: Global,
    draft: &mut Draft<'_, K>,
    organisations: u32,
    name: &str,
    secret: &str,
) -> Result<u32, EditFail>
    requires name { IsTrue (is_name (chars name.now)) }
    requires secret { IsTrue (is_secret secret.now) }
    ensures adds { DraftTells K.state draft.old draft.new
        → (w : World) → Stands (tables_of K.state draft.old) w → length w ≡ organisations
        → Edits (org_verdict (chars name.now) (sha256 secret.now)) w (tables_of K.state draft.new) result }
    ensures some { OnOk result (0 < count_of draft.new) }
    ensures refused { IfErr result (λ e. IsRefusal e → DraftReads K.state 0 draft.old draft.new) }
    ensures works { DraftWorks K.state 3 0 0 draft.old draft.new }
    ensures stays { StaysAfter (is_judged result) (state_of K.state draft.old) (state_of K.state draft.new) }
    ensures cause { KeeperCause (state_of K.state draft.old) (state_of K.state draft.new) (KeeperFailsEdit result) }
{
    draft_laws::<K>();
    table_laws();
    stands_laws();
    organisation_laws();
    id_laws();
    if u64::from(organisations) >= Limit::Organisations.number() {
        return Err(EditFail::Refused(Refusal::LimitExceeded {
            limit: Limit::Organisations,
        }));
    }
    let org = organisations + 1;
    match put_rows(alloc, draft, org, name, digest_of(secret)) {
        Ok(()) => Ok(org),
        Err(_) => Err(EditFail::Store(StoreFail::Memory)),
    }
}

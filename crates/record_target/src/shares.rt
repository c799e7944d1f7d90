//! The manual shares of a record.

ghost use Rattle.std.specs.Prelude.{◌≡◌, ◌≤◌, ◌+◌, ◌++◌, ◌∷◌, [], IfOk, None, OnOk, Some, length, map, take};
ghost use Rattle.std.specs.List.{AllByRecursion};
ghost use Rattle.store_edit.specs.Rows.{spelled};
ghost use Rattle.store_kv.specs.Draft.{DraftTells, tables_of};
ghost use Rattle.store_kv.specs.Prefixes.{raised};
ghost use Rattle.store_rows.specs.Keys.{FitsKey, Share};
ghost use Rattle.store_rows.specs.Listings.{rows_to};
ghost use Rattle.store_rows.specs.Reads.{ListsAs};
ghost use Rattle.store_rows.specs.Rows.{share_form};
ghost use Rattle.model.specs.Limits.{limit_number};
ghost use Rattle.model.specs.Tenant.{Tenant};
ghost use Rattle.model.specs.declared.limit.Limit.TheVariants.{SharesPerRecord};
ghost use Rattle.store_codec.specs.Plain.{number32, number8};
ghost use Rattle.store_codec.specs.Shapes.{Both, FitsIn, Identity, Number32};
ghost use Rattle.record_target.specs.Shares.{ListsShares, shares_removed};
ghost use Rattle.schema_rules.specs.inner.Pages.{at_most};
ghost use Rattle.store_abstraction.specs.Calls.{Calls, ended};
ghost use Rattle.store_abstraction.specs.Local.{StandsIn};
ghost use Rattle.store_abstraction.specs.Plan.{OrgPlan};

use base_value::{Id, Items, Principal, id_laws, principal_laws};
use std::alloc::{AllocError, Global};
use store_abstraction::{call_laws, local_laws};
use store_codec::shape_laws;
use store_edit::remove_row;
use store_kv::{Change, Draft, Keeper};
use store_rows::{Mark, ShareRow, StoreFail, listing_laws, page_under, table_laws};

// The most manual shares of a record.
const MOST_SHARES: usize = 100;

// The rows that were read, unless they are more than a record may have.
fn at_most_all(rows: Result<Vec<ShareRow>, StoreFail>) -> Result<Items<ShareRow>, StoreFail>
    ensures { result ≡ at_most (limit_number SharesPerRecord) rows }
{
    match rows {
        Ok(rows) => {
            if rows.len() <= MOST_SHARES {
                Ok(Items::from_vec(rows))
            } else {
                Err(StoreFail::Damaged)
            }
        }
        Err(fail) => Err(fail),
    }
}

// The rows of a record's shares, in the order of their keys, and one more than it may have.
fn page_of<K: Keeper>(
    alloc: Global,
    draft: &mut Draft<'_, K>,
    org: u32,
    id: &Id,
) -> Result<Vec<ShareRow>, StoreFail>
    ensures rows { DraftTells K.state draft.old draft.new
        → ListsAs share_form (take (limit_number SharesPerRecord + 1) (rows_to (tables_of K.state draft.old) 12
        (number32 org ++ (number8 0 ++ id.now)) (raised (number32 org ++ (number8 0 ++ id.now))))) result }
    ensures fits { FitsIn (Both Number32 Identity) (org, id.now) }
    ensures calls { Calls K.state 0 (ended result) draft.old draft.new }
{
    // That these are an id's characters.
    let _ = id.as_bytes();
    page_under(
        alloc,
        draft,
        &(org, (Mark::<0>, *id)),
        None,
        MOST_SHARES + 1,
    )
}

/// The rows of a record's manual shares, in the order of their keys.
///
/// # Errors
///
/// `Keeper` if the keeper failed, `Memory` if out of memory, `Damaged` never if the organisation's rows stand for a tenant.
pub fn shares_of<K: Keeper>(
    alloc: Global,
    draft: &mut Draft<'_, K>,
    org: u32,
    id: &Id,
) -> Result<Items<ShareRow>, StoreFail>
    ensures lists { DraftTells K.state draft.old draft.new
        → (q : OrgPlan) (t : Tenant) → StandsIn org q (tables_of K.state draft.old) (Some t) → ListsShares org t id.now result }
    ensures few { IfOk result (λ rows. length rows ≤ limit_number SharesPerRecord) }
    ensures calls { Calls K.state 0 (ended result) draft.old draft.new }
{
    listing_laws::<ShareRow>();
    table_laws();
    shape_laws();
    local_laws();
    id_laws();
    principal_laws();
    call_laws::<K>();
    at_most_all(page_of(alloc, draft, org, id))
}

// One change more: no share of a record with this principal.
fn remove_share(
    alloc: Global,
    org: u32,
    id: &Id,
    to: Principal,
    changes: &mut Vec<Change>,
) -> Result<(), AllocError>
    ensures changes { OnOk result (changes.new.items ≡ changes.old.items ++ spelled (Share org id.now to, None) ∷ []) }
    ensures fits { FitsKey (Share org id.now to) }
{
    // That these are the characters of ids.
    let _ = id.as_bytes();
    let _ = to.id().as_bytes();
    remove_row::<ShareRow>(alloc, changes, &(org, (Mark::<0>, (*id, to))))
}

/// Changes that remove these rows of a record's shares.
///
/// # Errors
///
/// If out of memory.
pub fn remove_shares(
    alloc: Global,
    org: u32,
    id: &Id,
    rows: &[ShareRow],
    changes: &mut Vec<Change>,
) -> Result<(), AllocError>
    ensures changes { OnOk result (changes.new.items ≡ changes.old.items ++ map spelled (shares_removed org id.now rows.now)) }
    // Their keys have spellings.
    ensures fits { OnOk result (AllByRecursion (λ c. FitsKey c.0) (shares_removed org id.now rows.now)) }
{
    for row in rows {
        remove_share(alloc, org, id, row.to, changes)?;
    }
    Ok(())
}

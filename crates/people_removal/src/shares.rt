//! Whether a manual share is with one of certain principals: the rows of all shares are gone through once, a page at a time.

ghost use Rattle.std.specs.Prelude.{◌≡◌, IfSome, None, take};
ghost use Rattle.std.specs.List.{list_any};
ghost use Rattle.std.specs.Option.{option_map};
ghost use Rattle.store_kv.specs.Draft.{DraftTells, tables_of};
ghost use Rattle.store_rows.specs.Reads.{ListsAs};
ghost use Rattle.store_rows.specs.Rows.{share_form};
ghost use Rattle.people_removal.specs.inner.Naming.{names};
ghost use Rattle.people_removal.specs.inner.Scanning.{FitsParts, Scans, any_with, kept_after, parts_bytes};
ghost use Rattle.store_abstraction.specs.Calls.{Calls, ended};
ghost use Rattle.store_abstraction.specs.Local.{FindsIn};

use crate::named::{Named, is_named};
use base_value::{Id, Principal, id_laws, principal_laws};
use std::alloc::Global;
use store_abstraction::{call_laws, local_laws};
use store_codec::shape_laws;
use store_kv::{Draft, Keeper, draft_laws, walk_laws};
use store_rows::{Mark, ShareRow, StoreFail, page_under, table_laws};

// How many rows are read at once.
const PAGE: usize = 200;

// The parts of a key of a share.
type Parts = (u32, (Mark<0>, (Id, Principal)));

// A page of the rows of an organisation's shares, in the order of their keys: the first, or those after a key.
fn page_after<K: Keeper>(
    alloc: Global,
    draft: &mut Draft<'_, K>,
    org: u32,
    after: Option<&Parts>,
) -> Result<Vec<ShareRow>, StoreFail>
    requires { IfSome after (λ key. FitsParts key.now) }
    ensures rows { DraftTells K.state draft.old draft.new
        → ListsAs share_form (take 200 (kept_after (tables_of K.state draft.old) org
        (option_map (λ key. parts_bytes key.now) after.entry))) result }
    ensures calls { Calls K.state 0 (ended result) draft.old draft.new }
{
    page_under(alloc, draft, &(org, Mark::<0>), after, PAGE)
}

// Whether one of these shares is with a principal of the role, or with the group.
fn is_one_with(named: &Named, rows: &[ShareRow]) -> bool
    ensures { result ≡ list_any (λ row. names named.now row.to) rows.now }
{
    rows.iter().any(|row| is_named(named, &row.to))
}

// The key of the row of a share.
fn key_of(row: ShareRow) -> Parts
    ensures is { result ≡ share_form.keyed row }
    ensures fits { FitsParts (share_form.keyed row) }
{
    // That these are an id's characters.
    let _ = row.id.as_bytes();
    let _ = row.to.id().as_bytes();
    (row.org, (Mark::<0>, (row.id, row.to)))
}

// Whether one of all shares that are kept is such.
fn is_any_kept<K: Keeper>(
    alloc: Global,
    draft: &mut Draft<'_, K>,
    org: u32,
    named: &Named,
) -> Result<bool, StoreFail>
    ensures scans { DraftTells K.state draft.old draft.new
        → Scans (kept_after (tables_of K.state draft.old) org None) (names named.now) result }
    ensures calls { Calls K.state 0 (ended result) draft.old draft.new }
{
    draft_laws::<K>();
    call_laws::<K>();
    table_laws();
    walk_laws();
    let mut last: Option<Parts> = None;
    'pages: for _ in 0..u64::MAX {
        let rows = page_after(alloc, draft, org, last.as_ref())?;
        let Some(row) = rows.last() else {
            return Ok(false);
        };
        if is_one_with(named, rows.as_slice()) {
            return Ok(true);
        }
        last = Some(key_of(*row));
    }
    // Not reached: there are fewer rows.
    Err(StoreFail::Memory)
}

/// Whether some manual share of an organisation is with a principal of the role, or with the group.
///
/// # Errors
///
/// `Keeper` if the keeper failed, `Memory` if out of memory, `Damaged` never if the organisation's rows stand for a tenant or
/// for none.
pub(crate) fn any_share<K: Keeper>(
    alloc: Global,
    draft: &mut Draft<'_, K>,
    org: u32,
    named: &Named,
) -> Result<bool, StoreFail>
    ensures finds { DraftTells K.state draft.old draft.new
        → FindsIn org (λ q t. any_with (names named.now) t) (tables_of K.state draft.old) result }
    ensures calls { Calls K.state 0 (ended result) draft.old draft.new }
{
    table_laws();
    shape_laws();
    walk_laws();
    id_laws();
    principal_laws();
    local_laws();
    is_any_kept(alloc, draft, org, named)
}

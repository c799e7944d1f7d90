//! Whether an organisation has manual shares.

ghost use Rattle.std.specs.Prelude.{◌≡◌};
ghost use Rattle.access_user.specs.Sights.{has_shares};
ghost use Rattle.access_user.specs.inner.Judging.{is_some_row};
ghost use Rattle.store_kv.specs.Draft.{DraftTells, tables_of};
ghost use Rattle.store_abstraction.specs.Calls.{Calls, ended};
ghost use Rattle.store_abstraction.specs.Local.{FindsIn};

use base_value::{id_laws, principal_laws};
use std::alloc::Global;
use store_abstraction::local_laws;
use store_codec::shape_laws;
use store_kv::{Draft, Keeper};
use store_rows::{Mark, ShareRow, StoreFail, listing_laws, page_under, table_laws};

// Whether some row was read.
fn is_some_row(rows: Result<Vec<ShareRow>, StoreFail>) -> Result<bool, StoreFail>
    ensures { result ≡ is_some_row rows }
{
    match rows {
        Ok(rows) => Ok(!rows.as_slice().is_empty()),
        Err(fail) => Err(fail),
    }
}

/// Whether an organisation has any manual share. One row is read at most.
///
/// # Errors
///
/// `Keeper` if the keeper failed, `Memory` if out of memory, `Damaged` never if the organisation's rows stand for a tenant or
/// for none.
pub(crate) fn has_shares<K: Keeper>(
    alloc: Global,
    draft: &mut Draft<'_, K>,
    org: u32,
) -> Result<bool, StoreFail>
    ensures finds { DraftTells K.state draft.old draft.new → FindsIn org (λ q t. has_shares t) (tables_of K.state draft.old) result }
    ensures calls { Calls K.state 0 (ended result) draft.old draft.new }
{
    local_laws();
    listing_laws::<ShareRow>();
    table_laws();
    shape_laws();
    id_laws();
    principal_laws();
    is_some_row(page_under(alloc, draft, &(org, Mark::<0>), None, 1))
}

//! The sharing rules of an organisation.

ghost use Rattle.people_rows.specs.sharing.SharingRules.{sharing_rows};
ghost use Rattle.store_kv.specs.Draft.{DraftTells, tables_of};
ghost use Rattle.people_rows.specs.Roster.{ListsIn};
ghost use Rattle.store_abstraction.specs.Calls.{Calls, ended};

use base_value::id_laws;
use std::alloc::Global;
use store_abstraction::local_laws;
use store_codec::shape_laws;
use store_kv::{Draft, Keeper};
use store_rows::{Mark, SharingRow, StoreFail, listing_laws, page_under, table_laws};

// The most sharing rules of an organisation, by the limits of `model`.
const MOST_RULES: usize = 300;

/// The sharing rules of an organisation as rows, in the order of their lower-case names.
///
/// # Errors
///
/// `Keeper` if the keeper failed, `Memory` if out of memory, `Damaged` never if the organisation's rows stand for a tenant or
/// for none.
pub fn sharing_rules_of<K: Keeper>(
    alloc: Global,
    draft: &mut Draft<'_, K>,
    org: u32,
) -> Result<Vec<SharingRow>, StoreFail>
    ensures finds { DraftTells K.state draft.old draft.new
        → ListsIn org (λ q t. sharing_rows org t) (tables_of K.state draft.old) result }
    ensures calls { Calls K.state 0 (ended result) draft.old draft.new }
{
    local_laws();
    listing_laws::<SharingRow>();
    table_laws();
    shape_laws();
    id_laws();
    page_under(alloc, draft, &(org, Mark::<1>), None, MOST_RULES + 1)
}

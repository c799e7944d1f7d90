//! Records and what goes with them, level by level.

ghost use Rattle.std.specs.Prelude.{◌≡◌, ◌∷◌, ◌++◌, [], IfOk};
ghost use Rattle.record_cascade.specs.Cascade.{FindsWith};
ghost use Rattle.store_kv.specs.Draft.{DraftTells, tables_of};
ghost use Rattle.model.specs.declared.limit.Limit.TheVariants as limit;
ghost use Rattle.model.specs.Deletes.{and_details};
ghost use Rattle.model.specs.Limits.{limit_number};
ghost use Rattle.store_abstraction.specs.Calls.{Calls, ended};

use crate::taking::details;
use base_value::{Id, Items};
use std::alloc::{AllocError, Global};
use store_abstraction::{Layout, call_laws};
use store_kv::{Draft, Keeper, draft_laws};
use store_rows::StoreFail;

// So many levels of details there are.
const LEVELS: u8 = 3;

// These, and then those.
fn joined(alloc: Global, these: &[Id], those: &[Id]) -> Result<Items<Id>, AllocError>
    ensures { IfOk result (λ all. all ≡ these.now ++ those.now) }
{
    let mut all = Vec::from_slice(alloc, these)?;
    all.extend_from_slice(those)?;
    Ok(Items::from_vec(all))
}

// The ids of the records with these ids, of their details, the details of these, and so on through so many levels.
fn with_details<K: Keeper>(
    alloc: Global,
    draft: &mut Draft<'_, K>,
    org: u32,
    layouts: &[Layout],
    levels: u8,
    ids: &[Id],
) -> Result<Items<Id>, StoreFail>
    ensures finds { DraftTells K.state draft.old draft.new
        → FindsWith org layouts.now ids.now (and_details levels) (tables_of K.state draft.old) result }
    ensures calls { Calls K.state 0 (ended result) draft.old draft.new }
{
    draft_laws::<K>();
    call_laws::<K>();
    if levels == 0 {
        return Ok(joined(alloc, ids, &[])?);
    }
    let below = details(alloc, draft, org, layouts, ids)?;
    let rest = with_details(alloc, draft, org, layouts, levels - 1, below.as_slice())?;
    Ok(joined(alloc, ids, rest.as_slice())?)
}

/// The ids of the record with this id, and level by level of all its details.
///
/// # Errors
///
/// As `details`.
pub(crate) fn cascade<K: Keeper>(
    alloc: Global,
    draft: &mut Draft<'_, K>,
    org: u32,
    layouts: &[Layout],
    id: &Id,
) -> Result<Items<Id>, StoreFail>
    ensures finds { DraftTells K.state draft.old draft.new
        → FindsWith org layouts.now (id.now ∷ []) (and_details (limit_number limit.DetailLevels)) (tables_of K.state draft.old) result }
    ensures calls { Calls K.state 0 (ended result) draft.old draft.new }
{
    with_details(alloc, draft, org, layouts, LEVELS, &[*id])
}

//! Records that can be read, by their ids.

ghost use Rattle.std.specs.Prelude.{Ok};
ghost use Rattle.store_kv.specs.Draft.{DraftTells, tables_of};
ghost use Rattle.record_constraints.specs.inner.Reading.{readable_there};
ghost use Rattle.access_traits.specs.Rights.{FindsFor, level_shown};
ghost use Rattle.store_abstraction.specs.Calls.{Calls, ended};

use access_traits::{Rights, at_least};
use base_value::{Id, Level};
use std::alloc::Global;
use store_kv::{Draft, Keeper};
use store_rows::StoreFail;

/// Whether the object has a record with this id that can be read by whose rights these are.
///
/// # Errors
///
/// `Keeper` if the keeper failed, `Memory` if out of memory, `Damaged` never if the organisation's rows stand for a tenant of
/// whose user the rights are.
pub(crate) fn is_readable<K: Keeper, R: Rights>(
    alloc: Global,
    draft: &mut Draft<'_, K>,
    rights: &R,
    org: u32,
    object: u16,
    id: &Id,
) -> Result<bool, StoreFail>
    ensures finds { DraftTells K.state draft.old draft.new
        → FindsFor org (R.whose rights.now) (λ t u. readable_there t u object id.now) (tables_of K.state draft.old) result }
    ensures calls { Calls K.state level_shown (ended result) draft.old draft.new }
{
    match rights.level_at(alloc, draft, org, object, id) {
        Ok(level) => Ok(at_least(Level::Read, level)),
        Err(fail) => Err(fail),
    }
}

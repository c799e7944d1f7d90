//! Records that may be read, by their ids.

ghost use Rattle.std.specs.Prelude.{◌≡◌};
ghost use Rattle.store_kv.specs.Draft.{DraftTells, tables_of};
ghost use Rattle.model.specs.Rights.{record_of_object};
ghost use Rattle.query_related.specs.parents.Parents.{FindsReadable, readable_shown};
ghost use Rattle.query_related.specs.parents.inner.Reading.{kept_if_readable};
ghost use Rattle.store_abstraction.specs.Calls.{Calls, ended};

use access_traits::{Rights, at_least};
use base_value::{Id, Level};
use model::Record;
use record_read::load_record;
use std::alloc::Global;
use store_abstraction::{Layout, call_laws};
use store_kv::{Draft, Keeper, draft_laws};
use store_rows::StoreFail;

// The record, if who has this level on it may read it.
fn kept_if_readable(
    level: Result<Level, StoreFail>,
    item: Record,
) -> Result<Option<Record>, StoreFail>
    ensures { result ≡ kept_if_readable level item }
{
    match level {
        Ok(level) => {
            if at_least(Level::Read, level) {
                Ok(Some(item))
            } else {
                Ok(None)
            }
        }
        Err(fail) => Err(fail),
    }
}

/// The record of an object that has this id, if who asks may read it.
///
/// # Errors
///
/// `Keeper` if the keeper failed, `Memory` if out of memory, `Damaged` never if the organisation's rows stand for a tenant whose
/// layout it is and of whose user the rights are.
pub(crate) fn readable_by_id<K: Keeper, R: Rights>(
    alloc: Global,
    draft: &mut Draft<'_, K>,
    rights: &R,
    layout: &Layout,
    id: &Id,
) -> Result<Option<Record>, StoreFail>
    ensures finds { DraftTells K.state draft.old draft.new
        → FindsReadable layout.now (R.whose rights.now) (λ t. record_of_object t layout.now.object id.now)
        (tables_of K.state draft.old) result }
    ensures calls { Calls K.state readable_shown (ended result) draft.old draft.new }
{
    draft_laws::<K>();
    call_laws::<K>();
    match load_record(alloc, draft, layout, id) {
        Ok(Some(item)) => {
            let level = rights.level_at(alloc, draft, layout.org, layout.object, id);
            kept_if_readable(level, item)
        }
        Ok(None) => Ok(None),
        Err(fail) => Err(fail),
    }
}

//! Reads of records, by the rights of who asks.

ghost use Rattle.api_read.specs.Tells.{IsAsker, TellsTo};
ghost use Rattle.model.specs.Shown.{readable_shown};
ghost use Rattle.store_abstraction.specs.Calls.{Calls, ended_edit};
ghost use Rattle.store_kv.specs.Draft.{DraftTells, tables_of};

use access_traits::{Administrator, Rights};
use access_user::user_rights;
use base_json::Json;
use model::Caller;
use std::alloc::Global;
use store_abstraction::{EditFail, call_laws};
use store_kv::{Draft, Keeper, draft_laws};

/// A read of a record.
pub(crate) trait RecordRead {
    ghost use Rattle.model.specs.Paths.{Asked};
    ghost use Rattle.model_reads.specs.Told.{Telling};

    /// What it is told.
    ghost telling: { Self → Asked → Telling };

    /// What is told to whose rights these are, in the organisation with this number.
    fn tell<K: Keeper, R: Rights>(
        &self,
        alloc: Global,
        draft: &mut Draft<'_, K>,
        rights: &R,
        org: u32,
    ) -> Result<Json, EditFail>
        ensures tells { DraftTells K.state draft.old draft.new
            → TellsTo org (λ a. R.whose rights.now a.tenant a.user) (telling self.now) (tables_of K.state draft.old) result }
        ensures calls { Calls K.state readable_shown (ended_edit result) draft.old draft.new };
}

/// What a read of a record tells the caller.
pub(crate) fn tell_caller<K: Keeper, Q: RecordRead>(
    alloc: Global,
    draft: &mut Draft<'_, K>,
    caller: &Caller,
    read: &Q,
) -> Result<Json, EditFail>
    ensures tells { DraftTells K.state draft.old draft.new
        → TellsTo caller.now.org (IsAsker caller.now) (Q.telling read.now) (tables_of K.state draft.old) result }
    ensures calls { Calls K.state readable_shown (ended_edit result) draft.old draft.new }
{
    draft_laws::<K>();
    call_laws::<K>();
    if caller.admin {
        return read.tell(alloc, draft, &Administrator, caller.org);
    }
    match user_rights(alloc, draft, caller.org, &caller.user) {
        Ok(rights) => read.tell(alloc, draft, &rights, caller.org),
        Err(fail) => Err(EditFail::Store(fail)),
    }
}

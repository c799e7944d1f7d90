//! The record that a read finds, with the level on it.

ghost use Rattle.std.specs.Prelude.{◌≡◌, ◌≤◌, Option, Some, length};
ghost use Rattle.access_traits.specs.Rights.{level_shown};
ghost use Rattle.api_read.specs.Tells.{TellsSo};
ghost use Rattle.api_read.specs.inner.RecordParts.{FindsReadable, IsFound, IsOf, readable_by};
ghost use Rattle.model.specs.Objects.{Numbered};
ghost use Rattle.model.specs.Paths.{Asked};
ghost use Rattle.model.specs.declared.record.Record.{Record};
ghost use Rattle.model_reads.specs.RecordJson.{record_asked};
ghost use Rattle.model_reads.specs.Told.{of_readable};
ghost use Rattle.record_target.specs.Named.{SpellsId};
ghost use Rattle.store_abstraction.specs.Calls.{Calls, ended_edit, fell};
ghost use Rattle.store_abstraction.specs.Local.{StandsIn};
ghost use Rattle.store_abstraction.specs.Plan.{OrgPlan};
ghost use Rattle.store_kv.specs.Draft.{DraftTells, tables_of};

use crate::records::parts::record_asked;
use access_traits::{Rights, at_least};
use base_json::Json;
use base_value::{Id, Level, Text, id_in};
use model::Refusal;
use record_read::data_laws;
use record_target::KeptRecord;
use std::alloc::Global;
use store_abstraction::{EditFail, Layout, call_laws};
use store_kv::{Draft, Keeper};
use store_rows::StoreFail;

/// A record that may be read, and the level of who asks on it.
#[derive(Drop)]
pub(crate) struct Readable {
    pub(crate) kept: KeptRecord,
    pub(crate) level: Level,
}

/// The id that a text spells.
///
/// # Errors
///
/// `Refused` with `MalformedId` if it spells none, `Store` with `Memory` if out of memory.
pub(crate) fn spelled_id(alloc: Global, text: &Text) -> Result<Id, EditFail>
    ensures spells { SpellsId text.now result }
    ensures cause { ended_edit result ≡ fell → ⊥ }
{
    match id_in(text.as_str()) {
        Some(id) => Ok(id),
        None => {
            let text = text.copy(alloc)?;
            Err(EditFail::Refused(Refusal::MalformedId { text }))
        }
    }
}

// A record with the level on it, if it may be read by that.
fn readable_by(kept: KeptRecord, level: Result<Level, StoreFail>) -> Result<Readable, EditFail>
    ensures { result ≡ readable_by kept level }
{
    match level {
        Ok(level) => {
            if at_least(Level::Read, level) {
                Ok(Readable { kept, level })
            } else {
                Err(EditFail::Refused(Refusal::NotFound))
            }
        }
        Err(fail) => Err(EditFail::Store(fail)),
    }
}

/// The record that was found, if who has the rights may read it, with their level on it.
///
/// # Errors
///
/// `Refused` with `NotFound` if there is none, or they may not read it. `Store` with `Keeper` if the keeper failed, `Memory` if out
/// of memory, `Damaged` never if the organisation's rows stand for a tenant of whose user the rights are.
pub(crate) fn find_readable<K: Keeper, R: Rights>(
    alloc: Global,
    draft: &mut Draft<'_, K>,
    rights: &R,
    layout: &Layout,
    found: Option<KeptRecord>,
) -> Result<Readable, EditFail>
    ensures finds { DraftTells K.state draft.old draft.new
        → (q : OrgPlan) (a : Asked) (x : Option Record) → StandsIn layout.now.org q (tables_of K.state draft.old) (Some a.tenant)
        → R.whose rights.now a.tenant a.user → IsFound a.tenant layout.now x found → FindsReadable a layout.now.object x result }
    ensures calls { Calls K.state level_shown (ended_edit result) draft.old draft.new }
{
    call_laws::<K>();
    match found {
        Some(kept) => {
            let level = rights.level_at(alloc, draft, layout.org, layout.object, &kept.item.id);
            readable_by(kept, level)
        }
        None => Err(EditFail::Refused(Refusal::NotFound)),
    }
}

/// What is told of the record that was found.
///
/// # Errors
///
/// As in `find_readable` and `record_asked`.
pub(crate) fn tell_found<K: Keeper, R: Rights>(
    alloc: Global,
    draft: &mut Draft<'_, K>,
    rights: &R,
    layout: &Layout,
    found: Option<KeptRecord>,
    pairs: &Text,
) -> Result<Json, EditFail>
    requires { length layout.now.fields ≤ 40 }
    ensures tells { DraftTells K.state draft.old draft.new
        → (q : OrgPlan) (a : Asked) (o : Numbered) (x : Option Record) → StandsIn layout.now.org q (tables_of K.state draft.old) (Some a.tenant)
        → R.whose rights.now a.tenant a.user → IsOf q a.tenant o layout.now → IsFound a.tenant layout.now x found
        → TellsSo (of_readable a x (record_asked a o.object pairs.now)) result }
    ensures calls { Calls K.state level_shown (ended_edit result) draft.old draft.new }
{
    call_laws::<K>();
    data_laws();
    match find_readable(alloc, draft, rights, layout, found) {
        Ok(readable) => record_asked(alloc, layout, &readable, pairs),
        Err(fail) => Err(fail),
    }
}

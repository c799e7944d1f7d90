//! The record of an object with an id.

ghost use Rattle.std.specs.Prelude.{◌≤◌, length};
ghost use Rattle.api_read.specs.inner.RecordParts.{TellsOn, told_at, told_named};
ghost use Rattle.model.specs.Shown.{readable_shown};
ghost use Rattle.store_abstraction.specs.Calls.{Calls, ended_edit};
ghost use Rattle.store_kv.specs.Draft.{DraftTells, tables_of};

use crate::records::finding::{spelled_id, tell_found};
use crate::rights::RecordRead;
use access_traits::Rights;
use base_json::Json;
use base_value::{Id, Text};
use model::object_laws;
use record_target::{kept_record, ready_layout};
use std::alloc::Global;
use store_abstraction::{EditFail, Layout, call_laws};
use store_kv::{Draft, Keeper, draft_laws};

/// The record of an object with this id, with the fields that a query string asks for.
#[derive(Drop)]
pub(crate) struct RecordById<'a> {
    pub(crate) object: &'a Text,
    pub(crate) key: &'a Text,
    pub(crate) pairs: &'a Text,
}

// What is told of the object's record with this id.
fn tell_at<K: Keeper, R: Rights>(
    alloc: Global,
    draft: &mut Draft<'_, K>,
    rights: &R,
    layout: &Layout,
    id: &Id,
    pairs: &Text,
) -> Result<Json, EditFail>
    requires { length layout.now.fields ≤ 40 }
    ensures tells { DraftTells K.state draft.old draft.new
        → TellsOn layout.now (R.whose rights.now) (λ a o. told_at a o id.now pairs.now) (tables_of K.state draft.old) result }
    ensures calls { Calls K.state readable_shown (ended_edit result) draft.old draft.new }
{
    draft_laws::<K>();
    call_laws::<K>();
    match kept_record(alloc, draft, layout, id) {
        Ok(found) => tell_found(alloc, draft, rights, layout, found, pairs),
        Err(fail) => Err(EditFail::Store(fail)),
    }
}

// What is told of the one that a text names.
fn tell_named<K: Keeper, R: Rights>(
    alloc: Global,
    draft: &mut Draft<'_, K>,
    rights: &R,
    layout: &Layout,
    key: &Text,
    pairs: &Text,
) -> Result<Json, EditFail>
    requires { length layout.now.fields ≤ 40 }
    ensures tells { DraftTells K.state draft.old draft.new
        → TellsOn layout.now (R.whose rights.now) (λ a o. told_named a o key.now pairs.now) (tables_of K.state draft.old) result }
    ensures calls { Calls K.state readable_shown (ended_edit result) draft.old draft.new }
{
    call_laws::<K>();
    match spelled_id(alloc, key) {
        Ok(id) => tell_at(alloc, draft, rights, layout, &id, pairs),
        Err(fail) => Err(fail),
    }
}

impl RecordRead for RecordById<'_> {
    ghost use Rattle.model_reads.specs.Reads.{record_told};

    ghost telling = { λ r a. record_told a r.object.now r.key.now r.pairs.now };

    fn tell<K: Keeper, R: Rights>(
        &self,
        alloc: Global,
        draft: &mut Draft<'_, K>,
        rights: &R,
        org: u32,
    ) -> Result<Json, EditFail> {
        draft_laws::<K>();
        call_laws::<K>();
        object_laws();
        match ready_layout(alloc, draft, org, self.object) {
            Ok(layout) => tell_named(alloc, draft, rights, &layout, self.key, self.pairs),
            Err(fail) => Err(fail),
        }
    }
}

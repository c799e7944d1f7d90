//! The record of an object that has a value in a unique field.

ghost use Rattle.std.specs.Prelude.{◌≤◌, length};
ghost use Rattle.api_read.specs.inner.RecordParts.{TellsOn, told_by, told_with};
ghost use Rattle.model.specs.Shown.{readable_shown};
ghost use Rattle.record_constraints.specs.Uniques.{HasUnique};
ghost use Rattle.record_target.specs.Usable.{IsReady};
ghost use Rattle.store_abstraction.specs.Calls.{Calls, ended_edit};
ghost use Rattle.store_kv.specs.Draft.{DraftTells, tables_of};

use crate::records::finding::tell_found;
use crate::rights::RecordRead;
use access_traits::Rights;
use base_json::Json;
use base_value::Text;
use model::object_laws;
use model_reads::value_part;
use record_save::{FoundKey, found_key, found_record};
use record_target::ready_layout;
use std::alloc::Global;
use store_abstraction::{EditFail, Layout, call_laws};
use store_kv::{Draft, Keeper, draft_laws};
use store_rows::StoreFail;

/// The record of an object that has a value, spelled in a path, in a unique field.
#[derive(Drop)]
pub(crate) struct RecordByValue<'a> {
    pub(crate) object: &'a Text,
    pub(crate) field: &'a Text,
    pub(crate) value: &'a Text,
    pub(crate) pairs: &'a Text,
}

// What is told of the object's record that has this value in this unique field.
fn tell_key<K: Keeper, R: Rights>(
    alloc: Global,
    draft: &mut Draft<'_, K>,
    rights: &R,
    layout: &Layout,
    key: &FoundKey,
    pairs: &Text,
) -> Result<Json, EditFail>
    requires few { length layout.now.fields ≤ 40 }
    requires unique { HasUnique layout.now key.now.number key.now.value }
    ensures tells { DraftTells K.state draft.old draft.new
        → TellsOn layout.now (R.whose rights.now) (λ a o. told_by a o key.now pairs.now) (tables_of K.state draft.old) result }
    ensures calls { Calls K.state readable_shown (ended_edit result) draft.old draft.new }
{
    draft_laws::<K>();
    call_laws::<K>();
    match found_record(alloc, draft, layout, key) {
        Ok(found) => tell_found(alloc, draft, rights, layout, found, pairs),
        Err(fail) => Err(EditFail::Store(fail)),
    }
}

// What is told of the one that has a value, spelled in a part of a path, in the unique field with this name.
fn tell_with<K: Keeper, R: Rights>(
    alloc: Global,
    draft: &mut Draft<'_, K>,
    rights: &R,
    layout: &Layout,
    field: &Text,
    part: &Text,
    pairs: &Text,
) -> Result<Json, EditFail>
    requires { IsReady layout.now.org layout.now }
    ensures tells { DraftTells K.state draft.old draft.new
        → TellsOn layout.now (R.whose rights.now) (λ a o. told_with a o field.now part.now pairs.now) (tables_of K.state draft.old) result }
    ensures calls { Calls K.state readable_shown (ended_edit result) draft.old draft.new }
{
    call_laws::<K>();
    let Ok(text) = value_part(alloc, part) else {
        return Err(EditFail::Store(StoreFail::Memory));
    };
    match found_key(alloc, layout, field, text.as_ref()) {
        Ok(key) => tell_key(alloc, draft, rights, layout, &key, pairs),
        Err(fail) => Err(fail),
    }
}

impl RecordRead for RecordByValue<'_> {
    ghost use Rattle.model_reads.specs.Reads.{record_by_told};

    ghost telling = { λ r a. record_by_told a r.object.now r.field.now r.value.now r.pairs.now };

    fn tell<K: Keeper, R: Rights>(
        &self,
        alloc: Global,
        draft: &mut Draft<'_, K>,
        rights: &R,
        org: u32,
    ) -> Result<Json, EditFail> {
        draft_laws::<K>();
        call_laws::<K>();
        object_laws();
        match ready_layout(alloc, draft, org, self.object) {
            Ok(layout) => tell_with(
                alloc, draft, rights, &layout, self.field, self.value, self.pairs,
            ),
            Err(fail) => Err(fail),
        }
    }
}

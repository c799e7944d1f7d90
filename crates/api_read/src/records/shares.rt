//! The manual shares of a record.

ghost use Rattle.std.specs.Prelude.{◌≡◌, ℕ, List, IfOk, Ok, Some, codes, map};
ghost use Rattle.std.specs.Str.{chars};
ghost use Rattle.api_read.specs.Tells.{TellsSo};
ghost use Rattle.api_read.specs.inner.RecordParts.{share_row_json};
ghost use Rattle.base_value.specs.Id.{id_in};
ghost use Rattle.model.specs.Paths.{Asked};
ghost use Rattle.model.specs.Shown.{readable_shown};
ghost use Rattle.model.specs.Tenant.{Tenant};
ghost use Rattle.model.specs.declared.record.Record.{Record};
ghost use Rattle.model_reads.specs.PeopleJson.{kind_word, listed, principal_text};
ghost use Rattle.model_reads.specs.Reads.{shares_told};
ghost use Rattle.model_reads.specs.SettingsJson.{shares_json};
ghost use Rattle.store_abstraction.specs.Calls.{Calls, ended_edit};
ghost use Rattle.store_abstraction.specs.Local.{StandsIn};
ghost use Rattle.store_abstraction.specs.Plan.{OrgPlan};
ghost use Rattle.store_kv.specs.Draft.{DraftTells, tables_of};

use crate::records::finding::spelled_id;
use crate::records::parts::{id_text, level_name};
use crate::rights::RecordRead;
use access_shares::find_shareable;
use access_traits::Rights;
use base_json::Json;
use base_json_tree::Members;
use base_value::{Id, Items, Principal, Text};
use record_target::shares_of;
use std::alloc::{AllocError, Global};
use store_abstraction::{EditFail, call_laws};
use store_kv::{Draft, Keeper, draft_laws};
use store_rows::ShareRow;

/// The manual shares of the record with this id.
#[derive(Drop)]
pub(crate) struct SharesOf<'a> {
    pub(crate) record: &'a Text,
}

// The word before the id of a principal.
fn kind_word(to: &Principal) -> &'static str
    ensures { chars result.now ≡ kind_word to.now }
{
    match to {
        Principal::User(_) => "user:",
        Principal::Role(_) => "role:",
        Principal::Subordinates(_) => "subordinates:",
        Principal::Group(_) => "group:",
    }
}

// A principal, as a body spells it.
fn principal_text(alloc: Global, to: &Principal) -> Result<Text, AllocError>
    ensures { IfOk result (λ t. t ≡ principal_text to.now) }
{
    let id = id_text(alloc, to.id())?;
    let mut string = String::from_str(alloc, kind_word(to))?;
    string.push_str(id.as_str())?;
    Ok(Text::from_string(string))
}

// A share in JSON.
fn share_json(alloc: Global, row: &ShareRow) -> Result<Json, AllocError>
    ensures { IfOk result (λ v. v ≡ share_row_json row.now) }
{
    let to = principal_text(alloc, &row.to)?;
    let mut members = Members::new(alloc);
    members.text(alloc, "to", to.as_str())?;
    members.text(alloc, "level", level_name(row.level))?;
    Ok(members.finish())
}

// Shares in JSON.
fn share_items(alloc: Global, rows: &[ShareRow]) -> Result<Items<Json>, AllocError>
    ensures { IfOk result (λ items. items ≡ map share_row_json rows.now) }
{
    let mut items = Items::new(alloc);
    for row in rows {
        items.push(share_json(alloc, row)?)?;
    }
    Ok(items)
}

// The list of a record's shares.
fn rows_json(alloc: Global, rows: &[ShareRow]) -> Result<Json, AllocError>
    ensures { IfOk result (λ v. v ≡ listed (codes "shares") (map share_row_json rows.now)) }
{
    let items = share_items(alloc, rows)?;
    let mut members = Members::new(alloc);
    members.put(alloc, "shares", Json::List(items))?;
    Ok(members.finish())
}

// What is told of the shares of the record with this id.
fn list_shares<K: Keeper>(
    alloc: Global,
    draft: &mut Draft<'_, K>,
    org: u32,
    id: &Id,
) -> Result<Json, EditFail>
    ensures lists { DraftTells K.state draft.old draft.new
        → (q : OrgPlan) (t : Tenant) (r : Record) → StandsIn org q (tables_of K.state draft.old) (Some t) → r.id ≡ id.now
        → TellsSo (Ok (shares_json t r)) result }
    ensures calls { Calls K.state 0 (ended_edit result) draft.old draft.new }
{
    call_laws::<K>();
    match shares_of(alloc, draft, org, id) {
        Ok(rows) => {
            let value = rows_json(alloc, rows.as_slice())?;
            Ok(value)
        }
        Err(fail) => Err(EditFail::Store(fail)),
    }
}

// The same, to who may share it.
fn tell_shares<K: Keeper, R: Rights>(
    alloc: Global,
    draft: &mut Draft<'_, K>,
    rights: &R,
    org: u32,
    id: &Id,
) -> Result<Json, EditFail>
    ensures tells { DraftTells K.state draft.old draft.new
        → (q : OrgPlan) (a : Asked) (text : List ℕ) → StandsIn org q (tables_of K.state draft.old) (Some a.tenant)
        → R.whose rights.now a.tenant a.user → id_in text ≡ Some id.now → TellsSo (shares_told a text) result }
    ensures calls { Calls K.state readable_shown (ended_edit result) draft.old draft.new }
{
    draft_laws::<K>();
    call_laws::<K>();
    match find_shareable(alloc, draft, rights, org, id) {
        Ok(()) => list_shares(alloc, draft, org, id),
        Err(fail) => Err(fail),
    }
}

impl RecordRead for SharesOf<'_> {
    ghost use Rattle.model_reads.specs.Reads.{shares_told};

    ghost telling = { λ r a. shares_told a r.record.now };

    fn tell<K: Keeper, R: Rights>(
        &self,
        alloc: Global,
        draft: &mut Draft<'_, K>,
        rights: &R,
        org: u32,
    ) -> Result<Json, EditFail> {
        call_laws::<K>();
        match spelled_id(alloc, self.record) {
            Ok(id) => tell_shares(alloc, draft, rights, org, &id),
            Err(fail) => Err(fail),
        }
    }
}

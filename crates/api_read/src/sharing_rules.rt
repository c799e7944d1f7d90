//! Sharing rules.

ghost use Rattle.std.specs.Prelude.{◌≡◌, [], ◌∷◌, ◌++◌, IfOk, Ok, OnOk, codes, map};
ghost use Rattle.std.specs.Str.{chars};
ghost use Rattle.api_read.specs.Tells.{TellsOf};
ghost use Rattle.api_read.specs.inner.People.{name_at, source_told, told_rule};
ghost use Rattle.base_json_tree.specs.Words.{list};
ghost use Rattle.model_reads.specs.PeopleJson.{listed};
ghost use Rattle.model_reads.specs.SettingsJson.{level_name, sharing_rule_json, state_name};
ghost use Rattle.store_abstraction.specs.Calls.{Calls, ended_edit};
ghost use Rattle.store_kv.specs.Draft.{DraftTells, tables_of};

use crate::people::{listed, principal_json};
use base_json::Json;
use base_json_tree::{Members, or_null_id};
use base_value::{Items, Level, RuleSource, RuleState};
use people_rows::sharing_rules_of;
use std::alloc::{AllocError, Global};
use store_abstraction::{EditFail, Layout, call_laws, layouts};
use store_kv::{Draft, Keeper};
use store_rows::SharingRow;

// A level's name.
fn level_name(level: Level) -> &'static str
    ensures { chars result.now ≡ level_name level }
{
    match level {
        Level::Nothing => "Nothing",
        Level::Read => "Read",
        Level::Edit => "Edit",
        Level::Full => "Full",
    }
}

// How far a rule's grants are written, in one word.
fn state_name(state: RuleState) -> &'static str
    ensures { chars result.now ≡ state_name state }
{
    match state {
        RuleState::Whole => "Whole",
        RuleState::Building => "Building",
        RuleState::Leaving => "Leaving",
    }
}

// The name of the object with this number, of all objects in their order.
fn name_at(objects: &[Layout], number: u16) -> &str
    ensures { chars result.now ≡ name_at objects.now number }
{
    match objects.get(number as usize) {
        Some(object) => object.name.as_str(),
        None => "",
    }
}

// One more member: whose records they are, or the formula that they meet.
fn put_source(alloc: Global, members: &mut Members, source: &RuleSource) -> Result<(), AllocError>
    ensures { OnOk result (members.new ≡ members.old ++ source_told source.now ∷ []) }
{
    match source {
        RuleSource::Owner(principal) => {
            let from = principal_json(alloc, principal)?;
            members.put(alloc, "from", from)
        }
        RuleSource::Criteria(formula) => members.text(alloc, "formula", formula.as_str()),
    }
}

// What is told of a rule, from its row and all objects in their order.
fn rule_json(alloc: Global, objects: &[Layout], row: &SharingRow) -> Result<Json, AllocError>
    ensures { IfOk result (λ v. v ≡ told_rule objects.now row.now) }
{
    let to = principal_json(alloc, &row.to)?;
    let cursor = or_null_id(alloc, &row.cursor)?;
    let mut members = Members::new(alloc);
    members.text(alloc, "object", name_at(objects, row.object))?;
    members.text(alloc, "name", row.name.as_str())?;
    put_source(alloc, &mut members, &row.source)?;
    members.put(alloc, "to", to)?;
    members.text(alloc, "level", level_name(row.level))?;
    members.text(alloc, "state", state_name(row.state))?;
    members.put(alloc, "cursor", cursor)?;
    Ok(members.finish())
}

// What is told of rules, in their order.
fn rules_json(alloc: Global, objects: &[Layout], rows: &[SharingRow]) -> Result<Json, AllocError>
    ensures { IfOk result (λ v. v ≡ list (map (told_rule objects.now) rows.now)) }
{
    let mut told = Items::new(alloc);
    for row in rows {
        told.push(rule_json(alloc, objects, row)?)?;
    }
    Ok(Json::List(told))
}

// The same, as an object whose one member is their list.
fn listed_rules(alloc: Global, objects: &[Layout], rows: &[SharingRow]) -> Result<Json, AllocError>
    ensures { IfOk result (λ v. v ≡ listed (codes "sharingRules") (map (told_rule objects.now) rows.now)) }
{
    let rules = rules_json(alloc, objects, rows)?;
    listed(alloc, "sharingRules", rules)
}

/// All sharing rules, each with its object's name.
pub(crate) fn sharing_rules<K: Keeper>(
    alloc: Global,
    draft: &mut Draft<'_, K>,
    org: u32,
) -> Result<Json, EditFail>
    ensures tells { DraftTells K.state draft.old draft.new
        → TellsOf org (λ t. Ok (listed (codes "sharingRules") (map (sharing_rule_json t) t.sharing_rules)))
        (tables_of K.state draft.old) result }
    ensures calls { Calls K.state 0 (ended_edit result) draft.old draft.new }
{
    call_laws::<K>();
    let objects = layouts(alloc, draft, org)?;
    let rows = sharing_rules_of(alloc, draft, org)?;
    Ok(listed_rules(alloc, objects.as_slice(), rows.as_slice())?)
}

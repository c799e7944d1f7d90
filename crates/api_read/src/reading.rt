//! What each read is told.

ghost use Rattle.std.specs.Prelude.{◌≡◌, IfOk, Ok, Some, ℕ};
ghost use Rattle.api_read.specs.Tells.{IsAsker, TellsSo, TellsTo};
ghost use Rattle.base_json.specs.declared.tree.Json.{Json};
ghost use Rattle.model.specs.Asker.{IsAsking};
ghost use Rattle.model.specs.Paths.{Asked};
ghost use Rattle.model.specs.Shown.{readable_shown};
ghost use Rattle.model_reads.specs.Reads.{read_shown, read_verdict, told_of};
ghost use Rattle.model_reads.specs.declared.read.Read.TheVariants as read;
ghost use Rattle.query_json.specs.Answers.{AnswersBy, IsReadReply};
ghost use Rattle.store_abstraction.specs.Calls.{Calls, ended, ended_edit, fell};
ghost use Rattle.store_abstraction.specs.Local.{StandsIn};
ghost use Rattle.store_abstraction.specs.Plan.{OrgPlan};
ghost use Rattle.store_kv.specs.Draft.{DraftTells, tables_of};

use crate::caller::{limits, resources, user, versions};
use crate::describe::{description, object_named, objects};
use crate::objects::{object_settings, validation_rules};
use crate::people::{groups, people, roles, users};
use crate::records::{RecordById, RecordByValue, SharesOf};
use crate::replies::reply_to;
use crate::rights::tell_caller;
use crate::sharing_rules::sharing_rules;
use base_json::Json;
use base_value::{Text, is_text};
use model::{Caller, Reply};
use model_reads::Read;
use std::alloc::{AllocError, Global};
use store_abstraction::{EditFail, call_laws};
use store_kv::{Draft, Keeper, draft_laws};
use store_rows::StoreFail;

// The record of an object, or with `describe` as its key the object's description.
fn record_or_description<K: Keeper>(
    alloc: Global,
    draft: &mut Draft<'_, K>,
    caller: &Caller,
    object: &Text,
    key: &Text,
    pairs: &Text,
) -> Result<Json, EditFail>
    ensures tells { DraftTells K.state draft.old draft.new
        → TellsTo caller.now.org (IsAsker caller.now) (λ a. told_of caller.now.org a (read.Record object.now key.now pairs.now))
        (tables_of K.state draft.old) result }
    ensures calls { Calls K.state readable_shown (ended_edit result) draft.old draft.new }
{
    draft_laws::<K>();
    if is_text(key, "describe") {
        return description(alloc, draft, caller.org, object);
    }
    tell_caller(alloc, draft, caller, &RecordById { object, key, pairs })
}

// What is made without a look at the tables.
fn made(value: Result<Json, AllocError>) -> Result<Json, EditFail>
    ensures tells { (v : Json) → IfOk value (λ w. w ≡ v) → TellsSo (Ok v) result }
    ensures cause { ended_edit result ≡ fell → ⊥ }
{
    match value {
        Ok(value) => Ok(value),
        Err(_) => Err(EditFail::Store(StoreFail::Memory)),
    }
}

// What a read tells the caller.
fn told<K: Keeper>(
    alloc: Global,
    draft: &mut Draft<'_, K>,
    caller: &Caller,
    read: &Read,
) -> Result<Json, EditFail>
    ensures tells { DraftTells K.state draft.old draft.new
        → TellsTo caller.now.org (IsAsker caller.now) (λ a. told_of caller.now.org a read.now) (tables_of K.state draft.old) result }
    ensures calls { Calls K.state (read_shown read.now) (ended_edit result) draft.old draft.new }
{
    call_laws::<K>();
    let org = caller.org;
    match read {
        Read::Caller => user(alloc, draft, org, &caller.user),
        Read::People => people(alloc, draft, org),
        Read::Versions => made(versions(alloc)),
        Read::Resources => made(resources(alloc)),
        Read::Limits => limits(alloc, draft, org),
        Read::Objects => objects(alloc, draft, org),
        Read::Object { object } => object_named(alloc, draft, org, object),
        Read::Record { object, key, pairs } => {
            record_or_description(alloc, draft, caller, object, key, pairs)
        }
        Read::RecordBy {
            object,
            field,
            value,
            pairs,
        } => tell_caller(
            alloc,
            draft,
            caller,
            &RecordByValue {
                object,
                field,
                value,
                pairs,
            },
        ),
        Read::Shares { record } => tell_caller(alloc, draft, caller, &SharesOf { record }),
        Read::Users => users(alloc, draft, org),
        Read::Roles => roles(alloc, draft, org),
        Read::Groups => groups(alloc, draft, org),
        Read::SharingRules => sharing_rules(alloc, draft, org),
        Read::ObjectSettings => object_settings(alloc, draft, org),
        Read::ValidationRules { object } => validation_rules(alloc, draft, org, object),
    }
}

/// Answers a caller's read. Nothing is changed.
///
/// # Errors
///
/// `Keeper` if the keeper failed, `Memory` if out of memory, `Damaged` never if the rows of the caller's organisation stand for a
/// tenant of which the caller is a user.
pub fn answer_read<K: Keeper>(
    alloc: Global,
    draft: &mut Draft<'_, K>,
    caller: &Caller,
    read: &Read,
) -> Result<Reply, StoreFail>
    ensures what { DraftTells K.state draft.old draft.new
        → (q : OrgPlan) (a : Asked) (moment : ℕ) → StandsIn caller.now.org q (tables_of K.state draft.old) (Some a.tenant)
        → IsAsking caller.now moment a → AnswersBy a (read_verdict caller.now.org a read.now) result }
    ensures form { IfOk result IsReadReply }
    ensures calls { Calls K.state (read_shown read.now) (ended result) draft.old draft.new }
{
    call_laws::<K>();
    let told = told(alloc, draft, caller, read);
    reply_to(alloc, told)
}

//! The edit that a row asks for.

ghost use Rattle.std.specs.Prelude.{◌≡◌, IsTrue, pos};
ghost use Rattle.std.specs.List.{list_all};
ghost use Rattle.std.specs.Option.{option_map};
ghost use Rattle.cmd_load_plan.specs.Rows.{has_characters};
ghost use Rattle.store_edit.specs.Edits.{DraftsEdit};
ghost use Rattle.store_kv.specs.Draft.{DraftTells, tables_of};
ghost use Rattle.cmd_load_row.specs.Loads.{load_shown, row_changes};
ghost use Rattle.cmd_load_row.specs.inner.Edits.{AsksBy, EditsRow, KnowsFound, as_new, asked_for, seen, text_is_spelled};
ghost use Rattle.model_requests.specs.Requests.{creates, upserts};
ghost use Rattle.base_value.specs.Dates.{is_moment};

use crate::parents::{find_parents, found_in};
use access_traits::Rights;
use base_value::{Id, Text, id_laws, value_laws};
use model::{Assignment, Caller, object_laws};
use model_invariant::fit_laws;
use model_requests::refusal_laws;
use record_input::{Found, given_laws};
use record_save::{Create, Upsert, Upserted};
use std::alloc::Global;
use store_abstraction::{EditFail, call_laws};
use store_edit::make_edit;
use store_kv::{Draft, Keeper, draft_laws};

// A moment of the calendar, as edits have it.
fn moment(now: u64) -> i64
    requires { IsTrue (is_moment (pos now)) }
    ensures { result ≡ pos now }
{
    now as i64
}

// What a create made, in the words of an upsert.
fn made(edit: Result<Id, EditFail>) -> Result<Upserted, EditFail>
    ensures { result ≡ seen as_new edit }
{
    let id = edit?;
    let created = true;
    Ok(Upserted { id, created })
}

// Makes a record of the object with this name.
fn create_row<K: Keeper, R: Rights>(
    alloc: Global,
    draft: &mut Draft<'_, K>,
    rights: &R,
    caller: &Caller,
    now: u64,
    object: &Text,
    given: &[Assignment],
    found: &[Found<'_>],
) -> Result<Upserted, EditFail>
    requires moment { IsTrue (is_moment (pos now)) }
    requires spelled { IsTrue (list_all (λ x. has_characters x.given) given.now) }
    ensures what { DraftTells K.state draft.old draft.new
        → EditsRow caller.now.org (KnowsFound (R.whose rights.now) caller.now now object.now given.now found.now)
        (creates object.now given.now) (tables_of K.state draft.old) (tables_of K.state draft.new) result }
    ensures drafts { DraftsEdit K.state row_changes 0 load_shown result draft.old draft.new }
{
    call_laws::<K>();
    id_laws();
    value_laws();
    fit_laws();
    refusal_laws();
    let create = Create {
        rights,
        user: caller.user,
        now: moment(now),
        object,
        given,
        found,
    };
    made(make_edit(alloc, draft, caller.org, &create))
}

// Gives values to the record of the object with this name that has the value of a text in the unique field with a name, or else makes
// one.
fn upsert_row<K: Keeper, R: Rights>(
    alloc: Global,
    draft: &mut Draft<'_, K>,
    rights: &R,
    caller: &Caller,
    now: u64,
    object: &Text,
    key: &Text,
    text: Option<Text>,
    given: &[Assignment],
    found: &[Found<'_>],
) -> Result<Upserted, EditFail>
    requires moment { IsTrue (is_moment (pos now)) }
    requires spelled { IsTrue (list_all (λ x. has_characters x.given) given.now) }
    requires text { IsTrue (text_is_spelled text) }
    ensures what { DraftTells K.state draft.old draft.new
        → EditsRow caller.now.org (KnowsFound (R.whose rights.now) caller.now now object.now given.now found.now)
        (upserts object.now key.now text given.now) (tables_of K.state draft.old) (tables_of K.state draft.new)
        result }
    ensures drafts { DraftsEdit K.state row_changes 0 load_shown result draft.old draft.new }
{
    call_laws::<K>();
    id_laws();
    value_laws();
    fit_laws();
    refusal_laws();
    let upsert = Upsert {
        rights,
        user: caller.user,
        now: moment(now),
        object,
        key,
        text,
        given,
        found,
    };
    make_edit(alloc, draft, caller.org, &upsert)
}

// The same, where there is such a name.
fn edit_found<K: Keeper, R: Rights>(
    alloc: Global,
    draft: &mut Draft<'_, K>,
    rights: &R,
    caller: &Caller,
    now: u64,
    object: &Text,
    key: Option<&Text>,
    text: Option<Text>,
    given: &[Assignment],
    found: &[Found<'_>],
) -> Result<Upserted, EditFail>
    requires moment { IsTrue (is_moment (pos now)) }
    requires spelled { IsTrue (list_all (λ x. has_characters x.given) given.now) }
    requires text { IsTrue (text_is_spelled text) }
    ensures what { DraftTells K.state draft.old draft.new
        → EditsRow caller.now.org (KnowsFound (R.whose rights.now) caller.now now object.now given.now found.now)
        (asked_for object.now (option_map (λ k. k.now) key.entry) text given.now) (tables_of K.state draft.old) (tables_of K.state draft.new) result }
    ensures drafts { DraftsEdit K.state row_changes 0 load_shown result draft.old draft.new }
{
    match key {
        None => create_row(alloc, draft, rights, caller, now, object, given, found),
        Some(key) => upsert_row(
            alloc, draft, rights, caller, now, object, key, text, given, found,
        ),
    }
}

/// Makes the record of the object with this name to which this is given; or, with the name of a unique field, gives it to the record
/// that has the value of the text there, or else makes that.
///
/// # Errors
///
/// `Refused` as the verdict says; nothing is then changed. `Store` with `Keeper` if the keeper failed, `Memory` if out of memory or as
/// `find_parents` has it, `Damaged` never if the organisation's rows stand for a tenant of whose user, the caller, the rights are.
pub(crate) fn edit_given<K: Keeper, R: Rights>(
    alloc: Global,
    draft: &mut Draft<'_, K>,
    rights: &R,
    caller: &Caller,
    now: u64,
    object: &Text,
    key: Option<&Text>,
    text: Option<Text>,
    given: &[Assignment],
) -> Result<Upserted, EditFail>
    requires moment { IsTrue (is_moment (pos now)) }
    requires spelled { IsTrue (list_all (λ x. has_characters x.given) given.now) }
    requires text { IsTrue (text_is_spelled text) }
    ensures what { DraftTells K.state draft.old draft.new
        → EditsRow caller.now.org (AsksBy (R.whose rights.now) caller.now now) (asked_for object.now (option_map (λ k. k.now) key.entry) text given.now)
        (tables_of K.state draft.old) (tables_of K.state draft.new) result }
    ensures drafts { DraftsEdit K.state row_changes 0 load_shown result draft.old draft.new }
{
    draft_laws::<K>();
    call_laws::<K>();
    object_laws();
    given_laws();
    let parents = find_parents(alloc, draft, caller.org, object, given)?;
    let known = parents.as_slice();
    let found = found_in(alloc, known)?;
    let told = found.as_slice();
    edit_found(
        alloc, draft, rights, caller, now, object, key, text, given, told,
    )
}

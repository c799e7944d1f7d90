//! The edits of records that requests ask for.

ghost use Rattle.std.specs.Prelude.{◌≡◌, IfOk, IsTrue, List, pos, ℕ};
ghost use Rattle.api_edit.specs.Administration.{AsksWith};
ghost use Rattle.api_edit.specs.inner.Edits.{EditsFrom, IsAnswerTo};
ghost use Rattle.store_edit.specs.Edits.{DraftsEdit};
ghost use Rattle.store_kv.specs.Draft.{DraftTells, tables_of};
ghost use Rattle.model_requests.specs.RequestOf.{request_of, verdict_or};
ghost use Rattle.model_reads.specs.Parts.{value_part};
ghost use Rattle.model_requests.specs.declared.route.Route.TheVariants as route;
ghost use Rattle.model.specs.Bounds.{edit_shown, request_changes, request_gone};
ghost use Rattle.base_value.specs.Dates.{is_moment};

use crate::answer::{Answer, done, made, upserted};
use crate::bodies::values_in;
use access_traits::Rights;
use base_value::Text;
use model::Caller;
use model_reads::value_part;
use model_requests::{refusal_laws, requests_fit};
use record_delete::Delete;
use record_input::given_laws;
use record_save::{Create, Update, Upsert};
use std::alloc::Global;
use store_abstraction::{EditFail, call_laws};
use store_edit::make_edit;
use store_kv::{Draft, Keeper};

/// A moment of the calendar, as edits have it.
pub fn moment(now: u64) -> i64
    requires { IsTrue (is_moment (pos now)) }
    ensures { result ≡ pos now }
{
    now as i64
}

/// Makes a record of the object with this name, by a body.
///
/// # Errors
///
/// `Refused` if the body isn't of its form, or as the edit is; nothing is then changed. `Store` with `Keeper` if the keeper failed,
/// `Memory` if out of memory.
pub(crate) fn new_record<K: Keeper, R: Rights>(
    alloc: Global,
    draft: &mut Draft<'_, K>,
    rights: &R,
    caller: &Caller,
    now: u64,
    object: &Text,
    body: &[u8],
) -> Result<Answer, EditFail>
    requires { IsTrue (is_moment (pos now)) }
    ensures what { DraftTells K.state draft.old draft.new
        → EditsFrom caller.now.org (AsksWith (R.whose rights.now) caller.now now) (λ a. verdict_or a (request_of (route.Create object.now) body.now))
        (tables_of K.state draft.old) (tables_of K.state draft.new) result }
    ensures form { IfOk result (IsAnswerTo (route.Create object.now)) }
    ensures makes { DraftsEdit K.state request_changes request_gone edit_shown result draft.old draft.new }
{
    call_laws::<K>();
    requests_fit();
    refusal_laws();
    given_laws();
    let values = values_in(alloc, body)?;
    let create = Create {
        rights,
        user: caller.user,
        now: moment(now),
        object,
        given: values.as_slice(),
        found: &[],
    };
    made(make_edit(alloc, draft, caller.org, &create))
}

/// Gives a record of the object with this name other values, by a body. The record is named by its id.
///
/// # Errors
///
/// `Refused` if the body isn't of its form, or as the edit is; nothing is then changed. `Store` with `Keeper` if the keeper failed,
/// `Memory` if out of memory.
pub(crate) fn changed_record<K: Keeper, R: Rights>(
    alloc: Global,
    draft: &mut Draft<'_, K>,
    rights: &R,
    caller: &Caller,
    now: u64,
    object: &Text,
    key: &Text,
    body: &[u8],
) -> Result<Answer, EditFail>
    requires { IsTrue (is_moment (pos now)) }
    ensures what { DraftTells K.state draft.old draft.new
        → EditsFrom caller.now.org (AsksWith (R.whose rights.now) caller.now now)
        (λ a. verdict_or a (request_of (route.Update object.now key.now) body.now)) (tables_of K.state draft.old)
        (tables_of K.state draft.new) result }
    ensures form { IfOk result (IsAnswerTo (route.Update object.now key.now)) }
    ensures makes { DraftsEdit K.state request_changes request_gone edit_shown result draft.old draft.new }
{
    call_laws::<K>();
    requests_fit();
    refusal_laws();
    let values = values_in(alloc, body)?;
    let update = Update {
        rights,
        user: caller.user,
        now: moment(now),
        object,
        key,
        given: values.as_slice(),
    };
    done(make_edit(alloc, draft, caller.org, &update))
}

/// Gives values, by a body, to the record of the object with this name that has the value of the path in a unique field, or else
/// makes one. A body that isn't of its form is refused first, whatever the value is.
///
/// # Errors
///
/// `Refused` if the body isn't of its form, or as the edit is; nothing is then changed. `Store` with `Keeper` if the keeper failed,
/// `Memory` if out of memory.
pub(crate) fn upserted_record<K: Keeper, R: Rights>(
    alloc: Global,
    draft: &mut Draft<'_, K>,
    rights: &R,
    caller: &Caller,
    now: u64,
    object: &Text,
    key: &Text,
    value: &Text,
    body: &[u8],
) -> Result<Answer, EditFail>
    requires { IsTrue (is_moment (pos now)) }
    ensures what { DraftTells K.state draft.old draft.new
        → EditsFrom caller.now.org (AsksWith (R.whose rights.now) caller.now now)
        (λ a. verdict_or a (request_of (route.Upsert object.now key.now value.now) body.now)) (tables_of K.state draft.old)
        (tables_of K.state draft.new) result }
    ensures form { IfOk result (IsAnswerTo (route.Upsert object.now key.now value.now)) }
    ensures makes { DraftsEdit K.state request_changes request_gone edit_shown result draft.old draft.new }
{
    call_laws::<K>();
    requests_fit();
    refusal_laws();
    given_laws();
    let values = values_in(alloc, body)?;
    let text = value_part(alloc, value)?;
    let upsert = Upsert {
        rights,
        user: caller.user,
        now: moment(now),
        object,
        key,
        text,
        given: values.as_slice(),
        found: &[],
    };
    upserted(make_edit(alloc, draft, caller.org, &upsert))
}

/// Deletes a record of the object with this name, with all that goes with it. The record is named by its id. Of the request no
/// body is looked at.
///
/// # Errors
///
/// `Refused` as the edit is; nothing is then changed. `Store` with `Keeper` if the keeper failed, `Memory` if out of memory.
pub(crate) fn deleted_record<K: Keeper, R: Rights>(
    alloc: Global,
    draft: &mut Draft<'_, K>,
    rights: &R,
    caller: &Caller,
    now: u64,
    object: &Text,
    key: &Text,
) -> Result<Answer, EditFail>
    requires { IsTrue (is_moment (pos now)) }
    ensures what { DraftTells K.state draft.old draft.new
        → (body : List ℕ) → EditsFrom caller.now.org (AsksWith (R.whose rights.now) caller.now now)
        (λ a. verdict_or a (request_of (route.Delete object.now key.now) body)) (tables_of K.state draft.old)
        (tables_of K.state draft.new) result }
    ensures form { IfOk result (IsAnswerTo (route.Delete object.now key.now)) }
    ensures makes { DraftsEdit K.state request_changes request_gone edit_shown result draft.old draft.new }
{
    call_laws::<K>();
    refusal_laws();
    let delete = Delete {
        rights,
        now: moment(now),
        object,
        key,
    };
    done(make_edit(alloc, draft, caller.org, &delete))
}

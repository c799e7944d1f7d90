//! Records that the administrator makes.

ghost use Rattle.std.specs.Prelude.{◌≡◌, IfOk, IsTrue, List, pos, ℕ};
ghost use Rattle.std.specs.List.{list_all};
ghost use Rattle.store_edit.specs.Edits.{DecidesTo};
ghost use Rattle.record_input.specs.Given.{IsInJson};
ghost use Rattle.store_kv.specs.Memory.{memory_state};
ghost use Rattle.model.specs.Creates.{create};
ghost use Rattle.model.specs.Paths.{Asked};
ghost use Rattle.model.specs.Verdict.{made_new};
ghost use Rattle.record_target.specs.Usable.{IsReady};
ghost use Rattle.cmd_sandbox.specs.Making.{IsLayoutFound, IsLaidOut, IsOwned, StepsLaidOut, StepsOwn};
ghost use Rattle.record_save.specs.Creating.{PlansNew};
ghost use Rattle.model_invariant.specs.Fit.{is_spelled};
ghost use Rattle.store_abstraction.specs.Calls.{Calls, ended_edit};
ghost use Rattle.base_value.specs.Dates.{is_moment};

use crate::organisation::{ORG, moment};
use access_traits::Administrator;
use base_value::{Id, Text};
use model::{Assignment, Refusal, first_user_id, object_laws};
use model_invariant::{fit_laws, records_sound};
use record_input::{AllGiven, given_laws};
use record_save::decide_create;
use record_target::ready_layout;
use std::alloc::Global;
use store_abstraction::{EditFail, Layout, local_laws};
use store_edit::{Decided, make_changes};
use store_kv::{Draft, MemoryKeeper};
use store_rows::StoreFail;

/// The layout of the object with this name, by which its records are made; or why each of them is refused.
///
/// # Errors
///
/// `Memory` if out of memory. No call of this keeper fails.
pub fn ready_object(
    alloc: Global,
    draft: &mut Draft<'_, MemoryKeeper>,
    name: &Text,
) -> Result<Result<Layout, Refusal>, StoreFail>
    ensures ready { IfOk result (λ found. IfOk found (IsReady 1)) }
    ensures found { (now : ℕ) (a : Asked) → IsOwned now draft.old a
        → IsLayoutFound now draft.new name.now a result }
{
    match ready_layout(alloc, draft, ORG, name) {
        Ok(layout) => Ok(Ok(layout)),
        Err(EditFail::Refused(refusal)) => Ok(Err(refusal)),
        Err(EditFail::Store(fail)) => Err(fail),
    }
}

// The changes by which a record of the object with this layout is made, or why it isn't.
fn decide_record(
    alloc: Global,
    draft: &mut Draft<'_, MemoryKeeper>,
    layout: &Layout,
    now: u64,
    given: &[Assignment],
) -> Result<Decided<Id>, EditFail>
    requires ready { IsReady 1 layout.now }
    requires moment { IsTrue (is_moment (pos now)) }
    requires spelled { IsTrue (list_all (λ x. is_spelled x.given) given.now) }
    requires json { IsInJson given.now }
    ensures decided { (name : List ℕ) (a : Asked) → (laid : IsLaidOut now draft.old name layout.now a)
        → DecidesTo 1 laid.owned.plan a.tenant (create a name given.now) (λ (id : List ℕ). made_new id) PlansNew result }
    ensures calls { Calls memory_state 168 (ended_edit result) draft.old draft.new }
{
    object_laws();
    fit_laws();
    given_laws();
    records_sound();
    let given = AllGiven {
        body: given,
        key: None,
        found: &[],
    };
    let now = moment(now);
    let user = first_user_id();
    decide_create(alloc, draft, &Administrator, layout, user, now, &given)
}

/// Makes a record of the object with this layout, at this moment, or returns why it is refused. What is given is in JSON. The layout
/// stays that of the object.
///
/// # Errors
///
/// `Memory` if out of memory. No call of this keeper fails.
pub fn make_record_of(
    alloc: Global,
    draft: &mut Draft<'_, MemoryKeeper>,
    layout: &Layout,
    now: u64,
    given: &[Assignment],
) -> Result<Option<Refusal>, StoreFail>
    requires ready { IsReady 1 layout.now }
    requires moment { IsTrue (is_moment (pos now)) }
    requires spelled { IsTrue (list_all (λ x. is_spelled x.given) given.now) }
    requires json { IsInJson given.now }
    ensures { (name : List ℕ) (a : Asked) → IsLaidOut now draft.old name layout.now a
        → StepsLaidOut now draft.new name layout.now a (create a name given.now) result }
{
    local_laws();
    match decide_record(alloc, draft, layout, now, given) {
        Ok(decided) => match make_changes(alloc, draft, decided.changes) {
            Ok(()) => Ok(None),
            Err(_) => Err(StoreFail::Memory),
        },
        Err(EditFail::Refused(refusal)) => Ok(Some(refusal)),
        Err(EditFail::Store(fail)) => Err(fail),
    }
}

/// Makes a record of the object with this name, at this moment, or returns why it is refused. What is given is in JSON.
///
/// # Errors
///
/// `Memory` if out of memory. No call of this keeper fails.
pub fn make_record(
    alloc: Global,
    draft: &mut Draft<'_, MemoryKeeper>,
    now: u64,
    object: &Text,
    given: &[Assignment],
) -> Result<Option<Refusal>, StoreFail>
    requires moment { IsTrue (is_moment (pos now)) }
    requires spelled { IsTrue (list_all (λ x. is_spelled x.given) given.now) }
    requires json { IsInJson given.now }
    ensures { (a : Asked) → IsOwned now draft.old a
        → StepsOwn now draft.new a (create a object.now given.now) result }
{
    match ready_object(alloc, draft, object) {
        Ok(Ok(layout)) => make_record_of(alloc, draft, &layout, now, given),
        Ok(Err(refusal)) => Ok(Some(refusal)),
        Err(fail) => Err(fail),
    }
}

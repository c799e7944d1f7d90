//! The organisation, and one verdict after the other in it.

ghost use Rattle.std.specs.Prelude.{◌≡◌, [], IfOk, IsTrue, pos, ℕ};
ghost use Rattle.cmd_sandbox.specs.Making.{IsOwned, KeepsUsers, NeverFails, OrMemory, StepsOwn};
ghost use Rattle.cmd_sandbox.specs.Own.{asker, only_name};
ghost use Rattle.store_kv.specs.Draft.{tables_of};
ghost use Rattle.store_kv.specs.Memory.{memory_state};
ghost use Rattle.model.specs.Paths.{Asked};
ghost use Rattle.store_abstraction.specs.Stands.{Stands};
ghost use Rattle.base_value.specs.Dates.{is_moment};

use base_value::{Items, Text};
use model::Refusal;
use people_edit::add_org;
use std::alloc::{AllocError, Global};
use store_abstraction::{EditFail, local_laws};
use store_edit::{Edit, make_edit};
use store_kv::{Draft, MemoryKeeper};
use store_rows::StoreFail;

// The number of the organisation.
pub(crate) const ORG: u32 = 1;

const ORG_NAME: &str = "Rows";

// A secret that no one is asked for.
const ORG_SECRET: &str = "0000000000000000";

/// A moment of the calendar, as records and queries have it.
pub(crate) fn moment(now: u64) -> i64
    requires { IsTrue (is_moment (pos now)) }
    ensures { result ≡ pos now }
{
    now as i64
}

/// The member of a body that names an object or a field and tells no more.
///
/// # Errors
///
/// If out of memory.
pub fn only_name(alloc: Global) -> Result<Items<Text>, AllocError>
    ensures { IfOk result (λ members. members ≡ only_name) }
{
    let mut members = Vec::new(alloc);
    members.push(Text::from_str(alloc, "name")?)?;
    Ok(Items::from_vec(members))
}

/// Makes the organisation with its administrator, in tables without rows.
///
/// # Errors
///
/// `Memory` if out of memory. No call of this keeper fails.
pub fn make_org(alloc: Global, draft: &mut Draft<'_, MemoryKeeper>) -> Result<(), StoreFail>
    ensures { Stands (tables_of memory_state draft.old) [] → NeverFails draft.old → (now : ℕ)
        → OrMemory result (λ _. IsOwned now draft.new (asker (pos now))) }
{
    local_laws();
    match add_org(alloc, draft, 0, ORG_NAME, ORG_SECRET) {
        Ok(_org) => Ok(()),
        Err(EditFail::Store(fail)) => Err(fail),
        // There is room for one.
        Err(EditFail::Refused(_)) => Err(StoreFail::Damaged),
    }
}

/// Makes an edit, unless its verdict refuses it.
///
/// # Errors
///
/// `Memory` if out of memory. No call of this keeper fails.
pub(crate) fn step<E: Edit>(
    alloc: Global,
    draft: &mut Draft<'_, MemoryKeeper>,
    edit: &E,
) -> Result<Option<Refusal>, StoreFail>
    ensures { (now : ℕ) (a : Asked) → IsOwned now draft.old a → E.fits edit.now a
        → KeepsUsers a (E.verdict edit.now a)
        → StepsOwn now draft.new a (E.verdict edit.now a) result }
{
    match make_edit(alloc, draft, ORG, edit) {
        Ok(_answer) => Ok(None),
        Err(EditFail::Refused(refusal)) => Ok(Some(refusal)),
        Err(EditFail::Store(fail)) => Err(fail),
    }
}

//! The ids that a request spells, and the roles that they name.

ghost use Rattle.std.specs.Prelude.{◌≡◌, IfSome, IsTrue, Some};
ghost use Rattle.std.specs.Option.{option_copied, option_map};
ghost use Rattle.std.specs.Str.{chars};
ghost use Rattle.store_kv.specs.Draft.{DraftTells, tables_of};
ghost use Rattle.model.specs.Cases.{in_case};
ghost use Rattle.model.specs.People.{given};
ghost use Rattle.model.specs.Principals.{bad_id, bad_id_if_any, spelled_id};
ghost use Rattle.model.specs.Tenant.{Tenant};
ghost use Rattle.people_edit.specs.inner.Judging.{lacks_role};
ghost use Rattle.store_edit.specs.Judging.{Passes};
ghost use Rattle.store_abstraction.specs.Calls.{Calls, ended_edit, fell};
ghost use Rattle.store_abstraction.specs.Local.{StandsIn};
ghost use Rattle.store_abstraction.specs.Plan.{OrgPlan};
ghost use Rattle.base_value.specs.Id.{is_id};

use base_value::{Id, Text, id_in};
use model::Refusal;
use people_rows::role;
use std::alloc::Global;
use store_abstraction::{EditFail, call_laws};
use store_kv::{Draft, Keeper};

/// The id that a text spells.
///
/// # Errors
///
/// `Refused` with `MalformedId` if it spells none, `Store` with `Memory` if out of memory.
pub(crate) fn id_of(alloc: Global, text: &Text) -> Result<Id, EditFail>
    ensures passes { Passes (bad_id text.now) (λ id. (id ≡ spelled_id text.now) × IsTrue (is_id id)) result }
    ensures cause { ended_edit result ≡ fell → ⊥ }
{
    match id_in(text.as_str()) {
        Some(id) => {
            // That these are an id's characters.
            let _ = id.as_bytes();
            Ok(id)
        }
        None => Err(EditFail::Refused(Refusal::MalformedId {
            text: text.copy(alloc)?,
        })),
    }
}

/// The same of a text that may be missing.
///
/// # Errors
///
/// As of one that isn't.
pub(crate) fn id_if_any(alloc: Global, text: Option<&Text>) -> Result<Option<Id>, EditFail>
    ensures passes { Passes (bad_id_if_any (option_copied text.entry))
        (λ id. (id ≡ option_map spelled_id (option_copied text.entry)) × IfSome id (λ i. IsTrue (is_id i))) result }
    ensures cause { ended_edit result ≡ fell → ⊥ }
{
    match text {
        None => Ok(None),
        Some(text) => Ok(Some(id_of(alloc, text)?)),
    }
}

/// The text of the id that a body says, if it says one.
pub(crate) fn id_given(said: &Option<Option<Text>>) -> Option<&Text>
    ensures { option_copied result ≡ given said.now }
{
    match said {
        Some(Some(text)) => Some(text),
        Some(None) | None => None,
    }
}

/// The id that a body's text spells, or that there is none; where the body doesn't say it, the one that there was.
pub(crate) fn id_or(
    said: &Option<Option<Text>>,
    named: Option<Id>,
    before: Option<Id>,
) -> Option<Id>
    ensures { result ≡ in_case said.now before (λ x. named) }
{
    match said {
        None => before,
        Some(_) => named,
    }
}

/// Looks for a role with this id, if there is an id, which the body's member with this name spells.
///
/// # Errors
///
/// `Refused` with `InvalidReference` if there is none. `Store` with `Keeper` if the keeper failed, `Memory` if out of memory,
/// `Damaged` never if the organisation's rows stand for a tenant.
pub(crate) fn find_role<K: Keeper>(
    alloc: Global,
    draft: &mut Draft<'_, K>,
    org: u32,
    member: &str,
    id: &Option<Id>,
) -> Result<(), EditFail>
    ensures passes { DraftTells K.state draft.old draft.new
        → (q : OrgPlan) (t : Tenant) → StandsIn org q (tables_of K.state draft.old) (Some t)
        → Passes (lacks_role t (chars member.now) id.now) (λ x. Unit {0}) result }
    ensures calls { Calls K.state 0 (ended_edit result) draft.old draft.new }
{
    call_laws::<K>();
    match id {
        None => Ok(()),
        Some(id) => match role(alloc, draft, org, id)? {
            Some(_) => Ok(()),
            None => Err(EditFail::Refused(Refusal::InvalidReference {
                name: Text::from_str(alloc, member)?,
            })),
        },
    }
}

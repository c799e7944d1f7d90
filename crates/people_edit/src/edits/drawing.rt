//! What every new user, role and group is judged by and is given.

ghost use Rattle.std.specs.Prelude.{◌≡◌, ◌+◌, ◌<◌, ◌∷◌, [], IfOk, IfErr, IfSome, Some};
ghost use Rattle.std.specs.Option.{option_copied, option_map};
ghost use Rattle.store_edit.specs.Rows.{AreSpelled, change_to};
ghost use Rattle.store_kv.specs.Draft.{DraftTells, tables_of};
ghost use Rattle.store_rows.specs.declared.fail.StoreFail.TheVariants.{Memory};
ghost use Rattle.store_rows.specs.Forms.{FitsForm};
ghost use Rattle.store_rows.specs.Rows.{org_form};
ghost use Rattle.model.specs.Limits.{limit_number};
ghost use Rattle.model.specs.Principals.{spelled_id};
ghost use Rattle.model.specs.Rules.{first_refusal, over_limit};
ghost use Rattle.model.specs.Tenant.{Tenant};
ghost use Rattle.model.specs.declared.limit.Limit.TheVariants as limits;
ghost use Rattle.people_edit.specs.inner.Drawing.{FitsDrawn, HasRoom, IsDrawn, new_rules};
ghost use Rattle.store_edit.specs.Judging.{Passes};
ghost use Rattle.store_abstraction.specs.Calls.{Calls, ended_edit, fell};
ghost use Rattle.store_abstraction.specs.Fails.{of_store};
ghost use Rattle.store_abstraction.specs.Local.{StandsIn};
ghost use Rattle.store_abstraction.specs.Metadata.{org_of};
ghost use Rattle.store_abstraction.specs.Plan.{OrgPlan};
ghost use Rattle.base_value.specs.Id.{is_id};

use crate::edits::ids::{find_role, id_if_any};
use crate::edits::kind::{Kind, one_more};
use crate::edits::names::check_name;
use base_value::{Id, Text, id_laws};
use model::{Limit, Refusal};
use std::alloc::Global;
use store_abstraction::{EditFail, call_laws, org_there};
use store_edit::{Decided, put_row};
use store_kv::{Draft, Keeper, draft_laws};
use store_rows::{OrgRow, RowForm};

/// What a new user, role or group is given.
#[derive(Drop)]
pub(crate) struct Drawn {
    /// The organisation's row, with one more of its kind and one id more.
    pub org: OrgRow,
    /// Its id, which is the next one.
    pub id: Id,
    /// The role that is named for it, if one is.
    pub role: Option<Id>,
}

// Refuses one more, of which there are so many, or one id more.
fn check_room(limit: Limit, count: u64, counter: u64) -> Result<(), EditFail>
    ensures passes { Passes (over_limit ((limit, count + 1) ∷ (limits.Ids, counter + 1) ∷ []))
        (λ x. (count < limit_number limit) × (counter < limit_number limits.Ids)) result }
    ensures cause { ended_edit result ≡ fell → ⊥ }
{
    if limit.number() <= count {
        Err(EditFail::Refused(Refusal::LimitExceeded { limit }))
    } else if Limit::Ids.number() <= counter {
        Err(EditFail::Refused(Refusal::LimitExceeded { limit: Limit::Ids }))
    } else {
        Ok(())
    }
}

// The role that a text names for what is new, unless a rule refuses: on the name, the text, the role, or what there is room for.
fn judge_new<K: Keeper>(
    alloc: Global,
    draft: &mut Draft<'_, K>,
    org: u32,
    kind: Kind,
    row: &OrgRow,
    name: &Text,
    role: Option<&Text>,
) -> Result<Option<Id>, EditFail>
    ensures passes { DraftTells K.state draft.old draft.new
        → (q : OrgPlan) (t : Tenant) → StandsIn org q (tables_of K.state draft.old) (Some t)
        → Passes (first_refusal (new_rules kind row.now t name.now (option_copied role.entry)))
        (λ id. id ≡ option_map spelled_id (option_copied role.entry)) result }
    ensures room { IfOk result (HasRoom kind row.now name.now) }
    ensures calls { Calls K.state 0 (ended_edit result) draft.old draft.new }
{
    call_laws::<K>();
    check_name(alloc, name)?;
    let named = id_if_any(alloc, role)?;
    find_role(alloc, draft, org, kind.member(), &named)?;
    check_room(kind.limit(), u64::from(kind.count(row)), row.counter)?;
    Ok(named)
}

/// What a new user, role or group with this name is given, if it isn't refused. The text, if there is one, spells the id of its
/// role or of the role above it.
///
/// # Errors
///
/// `Refused` by the first rule that refuses it: on its name, on the text, on the role, on how many there are, on how many ids.
/// `Store` with `Keeper` if the keeper failed, `Memory` if out of memory, `Damaged` never if the organisation's rows stand for a
/// tenant.
pub(crate) fn draw<K: Keeper>(
    alloc: Global,
    draft: &mut Draft<'_, K>,
    org: u32,
    kind: Kind,
    name: &Text,
    role: Option<&Text>,
) -> Result<Drawn, EditFail>
    ensures draws { DraftTells K.state draft.old draft.new
        → (q : OrgPlan) (t : Tenant) → StandsIn org q (tables_of K.state draft.old) (Some t)
        → Passes (first_refusal (new_rules kind (org_of org t) t name.now (option_copied role.entry)))
        (IsDrawn kind org t (option_copied role.entry)) result }
    ensures own { DraftTells K.state draft.old draft.new → IfOk result (λ drawn. drawn.org.org ≡ org) }
    ensures fits { IfOk result (FitsDrawn name.now) }
    ensures calls { Calls K.state 0 (ended_edit result) draft.old draft.new }
{
    draft_laws::<K>();
    call_laws::<K>();
    id_laws();
    let row = org_there(alloc, draft, org)?;
    let named = judge_new(alloc, draft, org, kind, &row, name, role)?;
    let id = Id::new(kind.prefix(), row.counter);
    Ok(Drawn {
        org: one_more(kind, row),
        id,
        role: named,
    })
}

/// The edit, decided: it puts the organisation's row and that of what is new, and answers the id.
///
/// # Errors
///
/// `Store` with `Memory` if out of memory.
pub(crate) fn two_rows<R: RowForm>(
    alloc: Global,
    drawn: &Drawn,
    row: &R,
) -> Result<Decided<Id>, EditFail>
    requires org { FitsForm org_form drawn.now.org }
    requires row { FitsForm R.form row.now }
    ensures answers { IfOk result (λ x. x.answer ≡ drawn.now.id) }
    ensures made { IfOk result (λ x. AreSpelled (change_to org_form drawn.now.org ∷ change_to R.form row.now ∷ []) x.changes.items) }
    ensures cause { IfErr result (λ e. e ≡ of_store Memory) }
{
    let mut changes = Vec::new(alloc);
    put_row(alloc, &mut changes, &drawn.org)?;
    put_row(alloc, &mut changes, row)?;
    Ok(Decided {
        answer: drawn.id,
        changes,
    })
}

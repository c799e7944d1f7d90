//! New groups, and changes of old ones.

ghost use Rattle.std.specs.Prelude.{◌≡◌, IfOk, Some};
ghost use Rattle.std.specs.List.{All};
ghost use Rattle.store_kv.specs.Draft.{DraftTells, tables_of};
ghost use Rattle.store_rows.specs.Forms.{FitsForm};
ghost use Rattle.store_rows.specs.Rows.{group_form};
ghost use Rattle.model.specs.Cases.{in_case};
ghost use Rattle.model.specs.People.{add_group, group_rules, members_given, set_group};
ghost use Rattle.model.specs.Rules.{first_refusal};
ghost use Rattle.model.specs.Tenant.{Tenant};
ghost use Rattle.model.specs.Verdict.{done, made_new};
ghost use Rattle.people_edit.specs.inner.Changing.{IsChangedGroup, group_row_rules, group_row_with};
ghost use Rattle.store_codec.specs.Composed.{FitsPrincipal};
ghost use Rattle.store_edit.specs.Judging.{Passes};
ghost use Rattle.store_abstraction.specs.Calls.{Calls, ended_edit};
ghost use Rattle.store_abstraction.specs.Local.{StandsIn};
ghost use Rattle.store_abstraction.specs.Plan.{OrgPlan};

use crate::edits::drawing::{draw, two_rows};
use crate::edits::ids::id_of;
use crate::edits::kind::Kind;
use crate::edits::members::{check_count, find_members, members_of};
use crate::edits::names::{check_name_if_any, name_or};
use crate::edits::rows::group_there;
use base_value::{Id, Items, Principal, Text};
use model::{GroupChange, Spelled, name_laws};
use model_invariant::people_sound;
use people_rows::roster_laws;
use std::alloc::{AllocError, Global};
use store_abstraction::{EditFail, call_laws};
use store_edit::{Decided, Edit, one_row};
use store_kv::{Draft, Keeper, draft_laws};
use store_rows::GroupRow;

/// Makes a group with this name, which has no members. It answers the group's id.
///
/// It is refused with the refusal of the first rule that refuses it: by its name, by how many groups there are, and by how many
/// ids.
#[derive(Drop)]
pub struct AddGroup<'a> {
    pub name: &'a Text,
}

impl Edit for AddGroup<'_> {
    type Answer = Id;

    ghost verdict = { λ e a. add_group a.tenant e.name.now };

    ghost answered = { λ id. made_new id };

    ghost planned = { λ e q t next. next ≡ q };

    ghost fits = { λ e a. Unit {0} };

    ghost most = { 2 };

    ghost gone = { 0 };

    ghost shown = { 0 };

    fn judge<K: Keeper>(
        &self,
        alloc: Global,
        draft: &mut Draft<'_, K>,
        org: u32,
    ) -> Result<Decided<Id>, EditFail> {
        call_laws::<K>();
        roster_laws();
        people_sound();
        name_laws();
        let drawn = draw(alloc, draft, org, Kind::Group, self.name, None)?;
        let group = GroupRow {
            org,
            id: drawn.id,
            name: self.name.copy(alloc)?,
            members: Items::new(alloc),
        };
        two_rows(alloc, &drawn, &group)
    }
}

// The members that a body gives, or none.
fn members_given(change: &GroupChange) -> &[Spelled]
    ensures { result.now ≡ members_given change.now }
{
    match &change.members {
        None => &[],
        Some(members) => members.as_slice(),
    }
}

// The members that a body gives, or else these.
fn members_or(
    change: &GroupChange,
    named: Vec<Principal>,
    before: Items<Principal>,
) -> Items<Principal>
    ensures { result ≡ in_case change.now.members before (λ x. named.items) }
{
    match &change.members {
        None => before,
        Some(_) => Items::from_vec(named),
    }
}

// The row of a group with what is said of it. The members, if any are said, are these.
fn changed_row(
    alloc: Global,
    row: GroupRow,
    change: &GroupChange,
    named: Vec<Principal>,
) -> Result<GroupRow, AllocError>
    ensures { IfOk result (λ next. next ≡ group_row_with change.now named.items row) }
{
    Ok(GroupRow {
        org: row.org,
        id: row.id,
        name: name_or(alloc, &change.name, row.name)?,
        members: members_or(change, named, row.members),
    })
}

// The same, unless a rule refuses: on the name, on the members, or on how many these are.
fn row_to_set<K: Keeper>(
    alloc: Global,
    draft: &mut Draft<'_, K>,
    org: u32,
    row: GroupRow,
    change: &GroupChange,
    named: Vec<Principal>,
) -> Result<GroupRow, EditFail>
    requires row { FitsForm group_form row }
    requires named { All FitsPrincipal named.items }
    ensures passes { DraftTells K.state draft.old draft.new
        → (q : OrgPlan) (t : Tenant) → StandsIn org q (tables_of K.state draft.old) (Some t)
        → Passes (first_refusal (group_row_rules t change.now named.items)) (λ x. Unit {0}) result }
    ensures made { IfOk result (λ next. next ≡ group_row_with change.now named.items row) }
    ensures fits { IfOk result (FitsForm group_form) }
    ensures calls { Calls K.state 0 (ended_edit result) draft.old draft.new }
{
    draft_laws::<K>();
    call_laws::<K>();
    name_laws();
    check_name_if_any(alloc, &change.name)?;
    find_members(alloc, draft, org, "members", named.as_slice())?;
    check_count(named.len())?;
    Ok(changed_row(alloc, row, change, named)?)
}

// The row of a group as it is to be, unless a rule refuses.
fn group_to_set<K: Keeper>(
    alloc: Global,
    draft: &mut Draft<'_, K>,
    org: u32,
    group: &Text,
    change: &GroupChange,
) -> Result<GroupRow, EditFail>
    ensures passes { DraftTells K.state draft.old draft.new
        → (q : OrgPlan) (t : Tenant) → StandsIn org q (tables_of K.state draft.old) (Some t)
        → Passes (first_refusal (group_rules t group.now change.now)) (IsChangedGroup org t group.now change.now) result }
    ensures own { DraftTells K.state draft.old draft.new → IfOk result (λ row. row.org ≡ org) }
    ensures fits { IfOk result (FitsForm group_form) }
    ensures calls { Calls K.state 0 (ended_edit result) draft.old draft.new }
{
    draft_laws::<K>();
    call_laws::<K>();
    let id = id_of(alloc, group)?;
    let named = members_of(alloc, members_given(change))?;
    let row = group_there(alloc, draft, org, &id)?;
    row_to_set(alloc, draft, org, row, change, named)
}

/// Changes the group whose id a text spells, as a body says: its members, in their order, and its name. What the body doesn't say
/// stays.
///
/// It is refused with the refusal of the first rule that refuses it: by the texts of ids, if there is no such group, by the name, by
/// the members that aren't there, and by how many there are.
#[derive(Drop)]
pub struct SetGroup<'a> {
    pub group: &'a Text,
    pub change: &'a GroupChange,
}

impl Edit for SetGroup<'_> {
    type Answer = ();

    ghost verdict = { λ e a. set_group a.tenant e.group.now e.change.now };

    ghost answered = { λ _. done };

    ghost planned = { λ e q t next. next ≡ q };

    ghost fits = { λ e a. Unit {0} };

    ghost most = { 1 };

    ghost gone = { 0 };

    ghost shown = { 0 };

    fn judge<K: Keeper>(
        &self,
        alloc: Global,
        draft: &mut Draft<'_, K>,
        org: u32,
    ) -> Result<Decided<()>, EditFail> {
        call_laws::<K>();
        roster_laws();
        people_sound();
        let row = group_to_set(alloc, draft, org, self.group, self.change)?;
        one_row(alloc, (), &row)
    }
}

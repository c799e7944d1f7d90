//! New roles, and changes of old ones.

ghost use Rattle.std.specs.Prelude.{◌≡◌, IfOk, IfSome, IsTrue, Some};
ghost use Rattle.std.specs.Option.{option_copied};
ghost use Rattle.store_kv.specs.Draft.{DraftTells, tables_of};
ghost use Rattle.store_rows.specs.Forms.{FitsForm};
ghost use Rattle.store_rows.specs.Rows.{role_form};
ghost use Rattle.model.specs.People.{add_role, role_rules, set_role};
ghost use Rattle.model.specs.Rules.{first_refusal};
ghost use Rattle.model.specs.Tenant.{Tenant};
ghost use Rattle.model.specs.Verdict.{done, made_new};
ghost use Rattle.people_edit.specs.inner.Changing.{IsChangedRole, role_row_rules, role_row_with};
ghost use Rattle.store_edit.specs.Judging.{Passes};
ghost use Rattle.store_abstraction.specs.Calls.{Calls, ended_edit};
ghost use Rattle.store_abstraction.specs.Local.{StandsIn};
ghost use Rattle.store_abstraction.specs.Plan.{OrgPlan};
ghost use Rattle.base_value.specs.Id.{is_id};

use crate::edits::drawing::{draw, two_rows};
use crate::edits::hierarchy::check_parent;
use crate::edits::ids::{id_given, id_if_any, id_of, id_or};
use crate::edits::kind::Kind;
use crate::edits::names::{check_name_if_any, name_or};
use crate::edits::rows::role_there;
use base_value::{Id, Text};
use model::{RoleChange, name_laws};
use model_invariant::people_sound;
use people_rows::roster_laws;
use std::alloc::{AllocError, Global};
use store_abstraction::{EditFail, call_laws};
use store_edit::{Decided, Edit, one_row};
use store_kv::{Draft, Keeper, draft_laws};
use store_rows::RoleRow;

/// Makes a role with this name, below the role whose id a text spells, if there is a text. It answers the role's id.
///
/// It is refused with the refusal of the first rule that refuses it: by its name, by the text, by the role above it, by how many
/// roles there are, and by how many ids.
#[derive(Drop)]
pub struct AddRole<'a> {
    pub name: &'a Text,
    pub parent: Option<&'a Text>,
}

impl Edit for AddRole<'_> {
    type Answer = Id;

    ghost verdict = { λ e a. add_role a.tenant e.name.now (option_copied e.parent) };

    ghost answered = { λ id. made_new id };

    ghost planned = { λ e q t next. next ≡ q };

    ghost fits = { λ e a. Unit {0} };

    ghost most = { 2 };

    ghost gone = { 0 };

    ghost shown = { 0 };

    fn judge<K: Keeper>(
        &self,
        alloc: Global,
        draft: &mut Draft<'_, K>,
        org: u32,
    ) -> Result<Decided<Id>, EditFail> {
        call_laws::<K>();
        roster_laws();
        people_sound();
        name_laws();
        let drawn = draw(alloc, draft, org, Kind::Role, self.name, self.parent)?;
        let role = RoleRow {
            org,
            id: drawn.id,
            name: self.name.copy(alloc)?,
            parent: drawn.role,
        };
        two_rows(alloc, &drawn, &role)
    }
}

// The row of a role with what is said of it. The role above it, if one is said, is this.
fn changed_row(
    alloc: Global,
    row: RoleRow,
    change: &RoleChange,
    named: Option<Id>,
) -> Result<RoleRow, AllocError>
    ensures { IfOk result (λ next. next ≡ role_row_with change.now named row) }
{
    Ok(RoleRow {
        org: row.org,
        id: row.id,
        name: name_or(alloc, &change.name, row.name)?,
        parent: id_or(&change.parent, named, row.parent),
    })
}

// The same, unless a rule refuses: on the name, or on the role above it.
fn row_to_set<K: Keeper>(
    alloc: Global,
    draft: &mut Draft<'_, K>,
    org: u32,
    row: RoleRow,
    change: &RoleChange,
    named: Option<Id>,
) -> Result<RoleRow, EditFail>
    requires row { FitsForm role_form row }
    requires named { IfSome named (λ i. IsTrue (is_id i)) }
    ensures passes { DraftTells K.state draft.old draft.new
        → (q : OrgPlan) (t : Tenant) → StandsIn org q (tables_of K.state draft.old) (Some t)
        → Passes (first_refusal (role_row_rules t row change.now named)) (λ x. Unit {0}) result }
    ensures made { IfOk result (λ next. next ≡ role_row_with change.now named row) }
    ensures fits { IfOk result (FitsForm role_form) }
    ensures calls { Calls K.state 0 (ended_edit result) draft.old draft.new }
{
    draft_laws::<K>();
    call_laws::<K>();
    name_laws();
    check_name_if_any(alloc, &change.name)?;
    check_parent(alloc, draft, org, "parent", &row.id, &named)?;
    Ok(changed_row(alloc, row, change, named)?)
}

// The row of a role as it is to be, unless a rule refuses.
fn role_to_set<K: Keeper>(
    alloc: Global,
    draft: &mut Draft<'_, K>,
    org: u32,
    role: &Text,
    change: &RoleChange,
) -> Result<RoleRow, EditFail>
    ensures passes { DraftTells K.state draft.old draft.new
        → (q : OrgPlan) (t : Tenant) → StandsIn org q (tables_of K.state draft.old) (Some t)
        → Passes (first_refusal (role_rules t role.now change.now)) (IsChangedRole org t role.now change.now) result }
    ensures own { DraftTells K.state draft.old draft.new → IfOk result (λ row. row.org ≡ org) }
    ensures fits { IfOk result (FitsForm role_form) }
    ensures calls { Calls K.state 0 (ended_edit result) draft.old draft.new }
{
    draft_laws::<K>();
    call_laws::<K>();
    let id = id_of(alloc, role)?;
    let named = id_if_any(alloc, id_given(&change.parent))?;
    let row = role_there(alloc, draft, org, &id)?;
    row_to_set(alloc, draft, org, row, change, named)
}

/// Changes the role whose id a text spells, as a body says: the role above it, or that there is none, and its name. What the body
/// doesn't say stays.
///
/// It is refused with the refusal of the first rule that refuses it: by the texts, if there is no such role, by the name, and by the
/// role above it, which may be neither the role itself nor one below it.
#[derive(Drop)]
pub struct SetRole<'a> {
    pub role: &'a Text,
    pub change: &'a RoleChange,
}

impl Edit for SetRole<'_> {
    type Answer = ();

    ghost verdict = { λ e a. set_role a.tenant e.role.now e.change.now };

    ghost answered = { λ _. done };

    ghost planned = { λ e q t next. next ≡ q };

    ghost fits = { λ e a. Unit {0} };

    ghost most = { 1 };

    ghost gone = { 0 };

    ghost shown = { 0 };

    fn judge<K: Keeper>(
        &self,
        alloc: Global,
        draft: &mut Draft<'_, K>,
        org: u32,
    ) -> Result<Decided<()>, EditFail> {
        call_laws::<K>();
        roster_laws();
        people_sound();
        let row = role_to_set(alloc, draft, org, self.role, self.change)?;
        one_row(alloc, (), &row)
    }
}

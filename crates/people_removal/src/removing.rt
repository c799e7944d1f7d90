//! The edits that end a role and a group.

ghost use Rattle.std.specs.Prelude.{◌≡◌, IfOk, Some};
ghost use Rattle.store_edit.specs.Judging.{Passes};
ghost use Rattle.store_kv.specs.Draft.{DraftTells, tables_of};
ghost use Rattle.store_rows.specs.Forms.{FitsForm};
ghost use Rattle.store_rows.specs.Rows.{org_form};
ghost use Rattle.model.specs.Rules.{first_refusal};
ghost use Rattle.model.specs.Tenant.{Tenant};
ghost use Rattle.model.specs.Verdict.{done};
ghost use Rattle.model_requests.specs.Removals.{remove_group, remove_role};
ghost use Rattle.people_removal.specs.inner.Removing.{removal_rules, without};
ghost use Rattle.store_abstraction.specs.Calls.{Calls, ended_edit};
ghost use Rattle.store_abstraction.specs.Local.{StandsIn};
ghost use Rattle.store_abstraction.specs.Metadata.{org_of};
ghost use Rattle.store_abstraction.specs.Plan.{OrgPlan};

use crate::named::Named;
use crate::rows::{decided, id_spelled, row_without};
use crate::uses::check_uses;
use base_value::Text;
use model_requests::removals_sound;
use people_rows::roster_laws;
use std::alloc::Global;
use store_abstraction::{EditFail, call_laws};
use store_edit::{Decided, Edit};
use store_kv::{Draft, Keeper};
use store_rows::OrgRow;

// The organisation's row without it, unless a rule refuses: if it isn't there, or something names it.
fn row_left<K: Keeper>(
    alloc: Global,
    draft: &mut Draft<'_, K>,
    org: u32,
    named: &Named,
) -> Result<OrgRow, EditFail>
    ensures passes { DraftTells K.state draft.old draft.new
        → (q : OrgPlan) (t : Tenant) → StandsIn org q (tables_of K.state draft.old) (Some t)
        → Passes (first_refusal (removal_rules t named.now)) (λ row. row ≡ org_of org (without named.now t)) result }
    ensures own { DraftTells K.state draft.old draft.new → IfOk result (λ row. row.org ≡ org) }
    ensures fits { IfOk result (FitsForm org_form) }
    ensures calls { Calls K.state 0 (ended_edit result) draft.old draft.new }
{
    call_laws::<K>();
    let row = row_without(alloc, draft, org, named)?;
    check_uses(alloc, draft, org, named)?;
    Ok(row)
}

/// Removes the role whose id a text spells.
///
/// It is refused with the refusal of the first rule that refuses it: by the text, if there is no such role, and while a user, another
/// role, a group, a sharing rule or a manual share names it.
#[derive(Drop)]
pub struct RemoveRole<'a> {
    pub role: &'a Text,
}

impl Edit for RemoveRole<'_> {
    type Answer = ();

    ghost verdict = { λ e a. remove_role a.tenant e.role.now };

    ghost answered = { λ _. done };

    ghost planned = { λ e q t next. next ≡ q };

    ghost fits = { λ e a. Unit {0} };

    ghost most = { 2 };

    ghost gone = { 0 };

    ghost shown = { 0 };

    fn judge<K: Keeper>(
        &self,
        alloc: Global,
        draft: &mut Draft<'_, K>,
        org: u32,
    ) -> Result<Decided<()>, EditFail> {
        call_laws::<K>();
        roster_laws();
        removals_sound();
        let named = Named::Role(id_spelled(alloc, self.role)?);
        let row = row_left(alloc, draft, org, &named)?;
        decided(alloc, org, &named, &row)
    }
}

/// Removes the group whose id a text spells.
///
/// It is refused with the refusal of the first rule that refuses it: by the text, if there is no such group, and while another group,
/// a sharing rule or a manual share names it. That it is a member of itself doesn't count.
#[derive(Drop)]
pub struct RemoveGroup<'a> {
    pub group: &'a Text,
}

impl Edit for RemoveGroup<'_> {
    type Answer = ();

    ghost verdict = { λ e a. remove_group a.tenant e.group.now };

    ghost answered = { λ _. done };

    ghost planned = { λ e q t next. next ≡ q };

    ghost fits = { λ e a. Unit {0} };

    ghost most = { 2 };

    ghost gone = { 0 };

    ghost shown = { 0 };

    fn judge<K: Keeper>(
        &self,
        alloc: Global,
        draft: &mut Draft<'_, K>,
        org: u32,
    ) -> Result<Decided<()>, EditFail> {
        call_laws::<K>();
        roster_laws();
        removals_sound();
        let named = Named::Group(id_spelled(alloc, self.group)?);
        let row = row_left(alloc, draft, org, &named)?;
        decided(alloc, org, &named, &row)
    }
}

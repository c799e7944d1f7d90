//! Another name of the organisation.

ghost use Rattle.std.specs.Prelude.{◌≡◌, ◌∷◌, [], IfOk, Some};
ghost use Rattle.store_kv.specs.Draft.{DraftTells, tables_of};
ghost use Rattle.store_rows.specs.Forms.{FitsForm};
ghost use Rattle.store_rows.specs.Rows.{org_form};
ghost use Rattle.model.specs.Names.{bad_name};
ghost use Rattle.model.specs.People.{set_organisation};
ghost use Rattle.model.specs.Rules.{first_refusal};
ghost use Rattle.model.specs.Sound.{is_name};
ghost use Rattle.model.specs.Tenant.{Tenant};
ghost use Rattle.model.specs.Verdict.{done};
ghost use Rattle.store_edit.specs.Judging.{Passes};
ghost use Rattle.store_abstraction.specs.Calls.{Calls, ended_edit};
ghost use Rattle.store_abstraction.specs.Local.{StandsIn};
ghost use Rattle.store_abstraction.specs.Metadata.{org_of};
ghost use Rattle.store_abstraction.specs.Plan.{OrgPlan};

use crate::edits::names::check_name;
use base_value::Text;
use model::name_laws;
use model_invariant::people_sound;
use people_rows::roster_laws;
use std::alloc::Global;
use store_abstraction::{EditFail, call_laws, org_there};
use store_edit::{Decided, Edit, one_row};
use store_kv::{Draft, Keeper, draft_laws};
use store_rows::OrgRow;

// The organisation's row as it is to be, with this name, unless a rule refuses.
fn org_to_set<K: Keeper>(
    alloc: Global,
    draft: &mut Draft<'_, K>,
    org: u32,
    name: &Text,
) -> Result<OrgRow, EditFail>
    ensures passes { DraftTells K.state draft.old draft.new
        → (q : OrgPlan) (t : Tenant) → StandsIn org q (tables_of K.state draft.old) (Some t)
        → Passes (first_refusal (bad_name is_name name.now ∷ [])) (λ row. row ≡ org_of org (record t { name = name.now })) result }
    ensures own { DraftTells K.state draft.old draft.new → IfOk result (λ row. row.org ≡ org) }
    ensures fits { IfOk result (FitsForm org_form) }
    ensures calls { Calls K.state 0 (ended_edit result) draft.old draft.new }
{
    draft_laws::<K>();
    call_laws::<K>();
    name_laws();
    check_name(alloc, name)?;
    let mut row = org_there(alloc, draft, org)?;
    row.name = name.copy(alloc)?;
    Ok(row)
}

/// Gives the organisation this name.
///
/// It is refused by its name alone.
#[derive(Drop)]
pub struct SetOrganisation<'a> {
    pub name: &'a Text,
}

impl Edit for SetOrganisation<'_> {
    type Answer = ();

    ghost verdict = { λ e a. set_organisation a.tenant e.name.now };

    ghost answered = { λ _. done };

    ghost planned = { λ e q t next. next ≡ q };

    ghost fits = { λ e a. Unit {0} };

    ghost most = { 1 };

    ghost gone = { 0 };

    ghost shown = { 0 };

    fn judge<K: Keeper>(
        &self,
        alloc: Global,
        draft: &mut Draft<'_, K>,
        org: u32,
    ) -> Result<Decided<()>, EditFail> {
        call_laws::<K>();
        roster_laws();
        people_sound();
        let row = org_to_set(alloc, draft, org, self.name)?;
        one_row(alloc, (), &row)
    }
}

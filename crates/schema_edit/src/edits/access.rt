//! Another default access of an object, or whether the role hierarchy counts.

ghost use Rattle.std.specs.Prelude.{◌≡◌, ◌||◌, IsTrue, Some, true};
ghost use Rattle.std.specs.Str.{chars};
ghost use Rattle.store_codec.specs.Choices.{is_own};
ghost use Rattle.store_kv.specs.Draft.{DraftTells, tables_of};
ghost use Rattle.schema_edit.specs.Judging.{AcceptsOn};
ghost use Rattle.model.specs.Fields.{by_parent};
ghost use Rattle.model.specs.Metadata.{set_object};
ghost use Rattle.model.specs.declared.metadata_bodies.ObjectChange.{ObjectChange};
ghost use Rattle.model_invariant.specs.Fit.{is_fit_object_change};
ghost use Rattle.model.specs.Tenant.{Tenant};
ghost use Rattle.model.specs.Verdict.{done};
ghost use Rattle.store_abstraction.specs.Calls.{Calls, ended_edit};
ghost use Rattle.store_abstraction.specs.Local.{StandsIn};
ghost use Rattle.store_abstraction.specs.Plan.{OrgPlan};
ghost use Rattle.schema_edit.specs.inner.Access.{changed_access, spelled_access};

use crate::judging::judge_change;
use base_value::Access;
use model::ObjectChange;
use model_invariant::objects_sound;
use std::alloc::Global;
use store_abstraction::{
    EditFail, call_laws, layout_named, metadata_laws, object_there, slot_laws,
};
use store_codec::ObjectAccess;
use store_edit::{Decided, Edit, one_row};
use store_kv::{Draft, Keeper};

// Whether an access is the master's.
fn is_by_parent(access: Access) -> bool
    ensures { result ≡ by_parent access }
{
    match access {
        Access::ControlledByParent => true,
        _ => false,
    }
}

/// What the row of an object says of access: where that is the master's, the role hierarchy counts.
pub(crate) fn spelled_access(access: Access, hierarchy: bool) -> ObjectAccess
    ensures same { result ≡ spelled_access access hierarchy }
    ensures fits { (result.hierarchy || is_own result.access) ≡ true }
{
    ObjectAccess {
        access,
        hierarchy: hierarchy || is_by_parent(access),
    }
}

// What it says after a change.
fn changed_access(change: ObjectChange, was: ObjectAccess) -> ObjectAccess
    ensures { result ≡ changed_access change was }
{
    spelled_access(
        change.access.unwrap_or(was.access),
        change.hierarchy.unwrap_or(was.hierarchy),
    )
}

// The number of the object with this name, if a change of it isn't refused.
fn object_to_set<K: Keeper>(
    alloc: Global,
    draft: &mut Draft<'_, K>,
    org: u32,
    name: &str,
) -> Result<u16, EditFail>
    ensures accepts { DraftTells K.state draft.old draft.new
        → (q : OrgPlan) (t : Tenant) (change : ObjectChange) → StandsIn org q (tables_of K.state draft.old) (Some t)
        → AcceptsOn t (chars name.now) (set_object t (chars name.now) change) result }
    ensures calls { Calls K.state 0 (ended_edit result) draft.old draft.new }
{
    call_laws::<K>();
    let layout = layout_named(alloc, draft, org, name)?;
    judge_change(alloc, &layout, name)
}

/// Sets what every user may do with the records of the object with this name, whatever the case of its ASCII letters, or whether
/// who is above others in the role hierarchy gets what they have; what the change doesn't say stays. Access by the master is set
/// by a new detail alone.
///
/// It is refused with `InvalidType` exactly if there is no such object, or if it is a detail, whose access is its master's.
#[derive(Drop)]
pub struct SetObject<'a> {
    pub object: &'a str,
    pub change: ObjectChange,
}

impl Edit for SetObject<'_> {
    type Answer = ();

    ghost verdict = { λ e a. set_object a.tenant (chars e.object.now) e.change };

    ghost answered = { λ _. done };

    ghost planned = { λ e q t next. next ≡ q };

    ghost fits = { λ e a. IsTrue (is_fit_object_change e.change) };

    ghost most = { 1 };

    ghost gone = { 0 };

    ghost shown = { 0 };

    fn judge<K: Keeper>(
        &self,
        alloc: Global,
        draft: &mut Draft<'_, K>,
        org: u32,
    ) -> Result<Decided<()>, EditFail> {
        call_laws::<K>();
        metadata_laws();
        slot_laws();
        objects_sound();
        let object = object_to_set(alloc, draft, org, self.object)?;
        let mut row = object_there(alloc, draft, org, object)?;
        row.access = changed_access(self.change, row.access);
        one_row(alloc, (), &row)
    }
}

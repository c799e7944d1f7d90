//! What is added to an organisation's metadata.

ghost use Rattle.std.specs.Prelude.{◌≡◌, IfErr, IfOk, Some};
ghost use Rattle.store_edit.specs.Edits.{FailsBy};
ghost use Rattle.store_kv.specs.Draft.{DraftTells, tables_of};
ghost use Rattle.schema_edit.specs.Judging.{AreLayouts, verdict_refusal};
ghost use Rattle.model.specs.Metadata.{add_object};
ghost use Rattle.model.specs.NewFields.{add_field};
ghost use Rattle.model.specs.Tenant.{Tenant};
ghost use Rattle.model.specs.Verdict.{Verdict};
ghost use Rattle.store_abstraction.specs.Calls.{Calls, ended_edit};
ghost use Rattle.store_abstraction.specs.Local.{StandsIn};
ghost use Rattle.store_abstraction.specs.Plan.{OrgPlan};

use crate::judging::fields::judge_field;
use crate::judging::objects::{bad_form, judge_object};
use model::{NewField, NewObject, Refusal};
use std::alloc::{AllocError, Global};
use store_abstraction::{EditFail, Layout, call_laws};
use store_edit::layout_there;
use store_kv::{Draft, Keeper};

/// What is added, judged by the layouts of the organisation's objects alone.
pub trait Addition {
    /// What adding it comes to.
    ghost verdict: { Self → Tenant → Verdict };

    /// Why it is refused, if it is.
    ///
    /// # Errors
    ///
    /// When out of memory.
    fn refusal(&self, alloc: Global, layouts: &[Layout]) -> Result<Option<Refusal>, AllocError>
        ensures { (t : Tenant) → AreLayouts t layouts.now → IfOk result (λ r. r ≡ verdict_refusal (verdict self.now t)) };

    /// Refuses it where the fields of other objects needn't be read for that. Later refusals are left to `refusal`.
    ///
    /// # Errors
    ///
    /// `Refused` as its verdict says. `Store` with `Keeper` if the keeper failed, `Memory` if out of memory, `Damaged` never if the
    /// organisation's rows stand for a tenant.
    fn refuse_early<K: Keeper>(
        &self,
        alloc: Global,
        draft: &mut Draft<'_, K>,
        org: u32,
    ) -> Result<(), EditFail>
        ensures fails { DraftTells K.state draft.old draft.new
            → (q : OrgPlan) (t : Tenant) → StandsIn org q (tables_of K.state draft.old) (Some t)
            → IfErr result (FailsBy (verdict self.now t)) }
        ensures calls { Calls K.state 0 (ended_edit result) draft.old draft.new };
}

impl Addition for NewObject {
    ghost verdict = { λ b t. add_object t b };

    fn refusal(&self, alloc: Global, layouts: &[Layout]) -> Result<Option<Refusal>, AllocError> {
        judge_object(alloc, layouts, self)
    }

    // A name that isn't of its form is refused before anything is read.
    fn refuse_early<K: Keeper>(
        &self,
        alloc: Global,
        _draft: &mut Draft<'_, K>,
        _org: u32,
    ) -> Result<(), EditFail> {
        call_laws::<K>();
        match bad_form(alloc, self)? {
            Some(refusal) => Err(EditFail::Refused(refusal)),
            None => Ok(()),
        }
    }
}

impl Addition for NewField {
    ghost verdict = { λ b t. add_field t b };

    fn refusal(&self, alloc: Global, layouts: &[Layout]) -> Result<Option<Refusal>, AllocError> {
        judge_field(alloc, layouts, self)
    }

    // An object that isn't there is refused by the names of objects.
    fn refuse_early<K: Keeper>(
        &self,
        alloc: Global,
        draft: &mut Draft<'_, K>,
        org: u32,
    ) -> Result<(), EditFail> {
        call_laws::<K>();
        match layout_there(alloc, draft, org, &self.object) {
            Ok(_layout) => Ok(()),
            Err(fail) => Err(fail),
        }
    }
}

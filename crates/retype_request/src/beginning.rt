//! The beginning of a change of a field's type.

ghost use Rattle.std.specs.Prelude.{◌≡◌, IfOk, IsTrue};
ghost use Rattle.model.specs.Retyping.{begin_retype, new_type};
ghost use Rattle.model.specs.Verdict.{done};
ghost use Rattle.base_value.specs.Types.{is_type};

use crate::judging::choose;
use crate::rows::row_of;
use base_value::{FieldType, Outcome, Phase, Text};
use model::SpelledType;
use model_invariant::jobs_sound;
use retype_cutover::switch_laws;
use schema_edit::free_slot;
use std::alloc::{AllocError, Global};
use store_abstraction::{EditFail, call_laws, slot_laws};
use store_edit::{Decided, Edit, one_row};
use store_kv::{Draft, Keeper};

// The type that is spelled. A lookup is none of those that convert, whatever its object is.
fn new_type(alloc: Global, kind: &SpelledType) -> Result<FieldType, AllocError>
    ensures { IfOk result (λ to. to ≡ new_type kind.now) }
{
    match kind {
        SpelledType::Plain(kind) => kind.copy(alloc),
        SpelledType::LookupTo { on_delete, .. } => Ok(FieldType::Lookup {
            object: 0,
            on_delete: *on_delete,
        }),
    }
}

/// Begins the change of a custom field's type. The values of its records are copied in a free slot, step by step.
///
/// It is refused, by the first rule that refuses it, if there is no such object, no such field, another change that isn't done, if
/// the field can't have the type in place of its own, or if a rule's formula names it.
#[derive(Drop)]
pub struct BeginRetype<'a> {
    pub object: &'a Text,
    pub field: &'a Text,
    pub kind: &'a SpelledType,
}

impl Edit for BeginRetype<'_> {
    type Answer = ();

    ghost verdict = { λ e a. begin_retype a.tenant e.object.now e.field.now e.kind.now };

    ghost answered = { λ _. done };

    ghost planned = { λ e q t next. next ≡ record q { other = next.other } };

    ghost fits = { λ e a. IsTrue (is_type (new_type e.kind.now)) };

    ghost most = { 1 };

    ghost gone = { 0 };

    ghost shown = { 0 };

    fn judge<K: Keeper>(
        &self,
        alloc: Global,
        draft: &mut Draft<'_, K>,
        org: u32,
    ) -> Result<Decided<()>, EditFail> {
        call_laws::<K>();
        slot_laws();
        jobs_sound();
        switch_laws();
        let kind = new_type(alloc, self.kind)?;
        let chosen = choose(alloc, draft, org, self.object, self.field, &kind)?;
        let object = chosen.layout.object;
        let slot = free_slot(&chosen.layout);
        let row = row_of(
            org,
            object,
            chosen.field,
            kind,
            slot,
            Phase::Copy,
            Outcome::Open,
        )?;
        one_row(alloc, (), &row)
    }
}

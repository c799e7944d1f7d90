//! Changes of an object.

ghost use Rattle.std.specs.Prelude.{◌≡◌};
ghost use Rattle.std.specs.List.{list_any};
ghost use Rattle.std.specs.Str.{chars};
ghost use Rattle.schema_edit.specs.Judging.{AcceptsOn, IsNamedLayout};
ghost use Rattle.model.specs.Fields.{is_master};
ghost use Rattle.model.specs.Metadata.{set_object};
ghost use Rattle.model.specs.Tenant.{Tenant};
ghost use Rattle.store_abstraction.specs.Calls.{ended_edit, fell};
ghost use Rattle.model.specs.declared.metadata_bodies.ObjectChange.{ObjectChange};

use crate::references::is_master;
use base_value::Text;
use model::Refusal;
use std::alloc::Global;
use store_abstraction::{EditFail, FieldPlace, Layout};
use store_edit::invalid_type;

// Whether one of the fields is a detail's reference to its master.
fn has_master(fields: &[FieldPlace]) -> bool
    ensures { result ≡ list_any (λ f. is_master f.kind) fields.now }
{
    fields.iter().any(|field| is_master(&field.kind))
}

/// The number of the object with this name, if a change of it isn't refused. The layout is the object's, if there is one.
///
/// # Errors
///
/// `Refused` as the verdict says, `Store` with `Memory` if out of memory.
pub(crate) fn judge_change(
    alloc: Global,
    layout: &Option<Layout>,
    object: &str,
) -> Result<u16, EditFail>
    ensures accepts { (t : Tenant) (change : ObjectChange) → IsNamedLayout t (chars object.now) layout.now
        → AcceptsOn t (chars object.now) (set_object t (chars object.now) change) result }
    ensures cause { ended_edit result ≡ fell → ⊥ }
{
    match layout {
        None => Err(EditFail::Refused(Refusal::InvalidType {
            name: Text::from_str(alloc, object)?,
        })),
        Some(layout) => {
            if has_master(layout.fields.as_slice()) {
                Err(EditFail::Refused(invalid_type(alloc, &layout.name)?))
            } else {
                Ok(layout.object)
            }
        }
    }
}

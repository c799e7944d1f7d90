//! The relationships from a record to its parents.

ghost use Rattle.std.specs.Prelude.{◌≡◌};
ghost use Rattle.std.specs.Option.{option_map};
ghost use Rattle.std.specs.Str.{chars};
ghost use Rattle.model.specs.Relationships.{parent_named};
ghost use Rattle.model.specs.Tenant.{Tenant};
ghost use Rattle.store_abstraction.specs.Layouts.{IsLayout};
ghost use Rattle.store_abstraction.specs.Plan.{OrgPlan};
ghost use Rattle.query_plan.specs.paths.Ways.{parent_step};
ghost use Rattle.query_plan.specs.paths.ByLayout as spec;

use crate::paths::names::is_parent_name;
use crate::paths::references::target_of;
use store_abstraction::{FieldPlace, Layout};

/// A step from a record to its parent.
#[derive(Clone, Copy, Debug, PartialEq, Eq)]
pub struct ParentStep {
    /// Where a record's value of the reference is among its values.
    pub position: usize,
    /// The number of the object to whose records it refers.
    pub target: u16,
}

// The step of the field at this position, if it is a reference whose parent relationship has this name.
fn parent_at(position: usize, field: &FieldPlace, name: &str) -> Option<ParentStep>
    ensures { result ≡ spec.parent_at position field.now (chars name.now) }
{
    let target = target_of(&field.kind)?;
    if is_parent_name(field.name.as_str(), name) {
        Some(ParentStep { position, target })
    } else {
        None
    }
}

// The step of the first of these fields that has one. The name's value is at position 0, and theirs are behind it.
fn parent_among(fields: &[FieldPlace], name: &str) -> Option<ParentStep>
    ensures { result ≡ spec.parent_from 1 fields.now (chars name.now) }
{
    for (number, field) in fields.iter().enumerate() {
        if let Some(step) = parent_at(number + 1, field, name) {
            return Some(step);
        }
    }
    None
}

/// The step by the parent relationship of a layout's object that has this name, whatever the case of its ASCII letters.
pub fn parent_in(layout: &Layout, name: &str) -> Option<ParentStep>
    ensures by_layout { result ≡ spec.parent_from 1 layout.now.fields (chars name.now) }
    ensures finds { (q : OrgPlan) (t : Tenant) → IsLayout q t layout.now
        → result ≡ option_map parent_step (parent_named t layout.now.object (chars name.now)) }
{
    parent_among(layout.fields.as_slice(), name)
}

//! The relationships from a record to those that refer to it.

ghost use Rattle.std.specs.Prelude.{◌≡◌, ℕ, Some, position};
ghost use Rattle.std.specs.Option.{option_map};
ghost use Rattle.std.specs.Str.{chars};
ghost use Rattle.model.specs.Relationships.{child_named};
ghost use Rattle.model.specs.Tenant.{Tenant};
ghost use Rattle.store_abstraction.specs.Layouts.{own_layouts};
ghost use Rattle.store_abstraction.specs.Plan.{OrgPlan};
ghost use Rattle.query_plan.specs.paths.Ways.{child_step};
ghost use Rattle.query_plan.specs.paths.ByLayout as spec;

use crate::paths::names::is_child_name;
use crate::paths::references::target_of;
use store_abstraction::{FieldPlace, Layout};

/// A relationship from a record to those that refer to it.
#[derive(Clone, Copy, Debug, PartialEq, Eq)]
pub struct ChildStep {
    /// The number of the object whose records refer.
    pub object: u16,
    /// The number of the field by which they do.
    pub field: usize,
}

// Whether the field refers to the object with this number, and names the child relationship so.
fn is_child(field: &FieldPlace, object: u16, name: &str) -> bool
    ensures { result ≡ spec.is_child object (chars name.now) field.now }
{
    match target_of(&field.kind) {
        Some(target) => target == object && is_child_name(&field.child, name),
        None => false,
    }
}

// The number of the first of these fields that does.
fn child_among(fields: &[FieldPlace], object: u16, name: &str) -> Option<usize>
    ensures { result ≡ position (spec.is_child object (chars name.now)) fields.now }
{
    fields
        .iter()
        .position(|field| is_child(field, object, name))
}

// The relationship by the first layout with such a field.
fn child_of(layouts: &[Layout], object: u16, name: &str) -> Option<ChildStep>
    ensures { result ≡ spec.child_of object (chars name.now) layouts.now }
{
    for layout in layouts {
        if let Some(field) = child_among(layout.fields.as_slice(), object, name) {
            return Some(ChildStep {
                object: layout.object,
                field,
            });
        }
    }
    None
}

/// The child relationship with this name, whatever the case of its ASCII letters, of the object with this number, by the layouts
/// of all objects.
pub fn child_in(layouts: &[Layout], object: u16, name: &str) -> Option<ChildStep>
    ensures by_layouts { result ≡ spec.child_of object (chars name.now) layouts.now }
    ensures finds { (org : ℕ) (q : OrgPlan) (t : Tenant) → layouts.now ≡ own_layouts org q (Some t)
        → result ≡ option_map child_step (child_named t object (chars name.now)) }
{
    child_of(layouts, object, name)
}

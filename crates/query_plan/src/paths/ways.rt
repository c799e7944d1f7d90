//! The layout of an object, by its number.

ghost use Rattle.std.specs.Prelude.{◌≡◌, ◌==◌, ◌↔◌, ℕ, IfSome, IsNone, None, Some};
ghost use Rattle.std.specs.List.{find};
ghost use Rattle.std.specs.Option.{option_copied};
ghost use Rattle.model.specs.Objects.{object_numbered};
ghost use Rattle.model.specs.Tenant.{Tenant};
ghost use Rattle.store_abstraction.specs.Layouts.{IsLayout, own_layout, own_layouts};
ghost use Rattle.store_abstraction.specs.Plan.{OrgPlan};

use store_abstraction::Layout;

/// The layout of the object with this number, among those of all objects.
pub fn layout_in(layouts: &[Layout], object: u16) -> Option<&Layout>
    ensures by_layouts { option_copied result ≡ find (λ l. l.object == object) layouts.now }
    ensures own { (org : ℕ) (q : OrgPlan) (t : Tenant) → layouts.now ≡ own_layouts org q (Some t)
        → option_copied result ≡ own_layout org object q (Some t) }
    ensures found { (org : ℕ) (q : OrgPlan) (t : Tenant) → layouts.now ≡ own_layouts org q (Some t)
        → IfSome result (λ l. (l.now.org ≡ org) × (l.now.object ≡ object) × IsLayout q t l.now) }
    ensures missing { (org : ℕ) (q : OrgPlan) (t : Tenant) → layouts.now ≡ own_layouts org q (Some t)
        → (IsNone result ↔ (object_numbered t object ≡ None)) }
{
    layouts.iter().find(|layout| layout.object == object)
}

//! What holds of the plans of objects that layouts spell.

ghost use Rattle.std.specs.Prelude.{◌≡◌, ℕ, List};
ghost use Rattle.cmd_load_plan.specs.Columns.{plan_of};
ghost use Rattle.model.specs.Objects.{Numbered};
ghost use Rattle.model.specs.Tenant.{Tenant};
ghost use Rattle.schema_rules.specs.Objects.{numbered_in};
ghost use Rattle.store_abstraction.specs.Layouts.{layout_of};
ghost use Rattle.store_abstraction.specs.Plan.{OrgPlan};

/// An object and the one that its layout spells have the same plans, whatever the object's validation rules are. The call does
/// nothing.
pub fn load_laws()
    ensures { (org : ℕ) (q : OrgPlan) (t : Tenant) (o : Numbered) (heading : List (List ℕ))
        → plan_of t (numbered_in (layout_of org q t o)) heading ≡ plan_of t o heading }
{}

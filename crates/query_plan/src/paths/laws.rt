//! What a path's field and a path's value are by its steps.

ghost use Rattle.std.specs.Prelude.{◌≡◌, ℕ, List, [], ◌∷◌, ◌++◌, Some, None};
ghost use Rattle.std.specs.Option.{option_and_then};
ghost use Rattle.model.specs.Asking.{path_column};
ghost use Rattle.model.specs.Cases.{in_case};
ghost use Rattle.model.specs.Fields.{column_named};
ghost use Rattle.model.specs.Membership.{Has};
ghost use Rattle.model.specs.Objects.{object_number, object_numbered};
ghost use Rattle.model.specs.Paths.{Asked, field_value, path_value};
ghost use Rattle.model.specs.Sound.{IsSound};
ghost use Rattle.model.specs.Tenant.{Tenant};
ghost use Rattle.model.specs.declared.record.Record.{Record};
ghost use Rattle.base_value.specs.declared.value.Value.TheVariants as value;
ghost use Rattle.query_plan.specs.declared.paths.parents.ParentStep.{ParentStep};
ghost use Rattle.query_plan.specs.paths.Ways.{led_to, path_end};

/// The laws of ways. The call does nothing.
pub fn way_laws()
    // The field to which a path leads is that of the object at the end of its steps.
    ensures column { (t : Tenant) (n : ℕ) (names : List (List ℕ)) (name : List ℕ)
        → path_column t n (names ++ name ∷ [])
        ≡ in_case (path_end t n names) None (λ e. option_and_then (λ o. column_named o name) (object_numbered t e.1)) }

    // The value of a path is that of the record to which its steps lead, and null where they lead to none.
    ensures value { (a : Asked) (r : Record) (names : List (List ℕ)) (name : List ℕ) (steps : List ParentStep) (n : ℕ)
        → IsSound a.tenant → Has a.tenant.records r → path_end a.tenant (object_number r.id) names ≡ Some (steps, n)
        → path_value a r (names ++ name ∷ [])
        ≡ in_case (led_to a steps r) value.Null (λ p. field_value a.tenant p name) }

    // That record is one of the object at their end.
    ensures number { (a : Asked) (r p : Record) (names : List (List ℕ)) (steps : List ParentStep) (n : ℕ)
        → IsSound a.tenant → Has a.tenant.records r → path_end a.tenant (object_number r.id) names ≡ Some (steps, n)
        → led_to a steps r ≡ Some p → Has a.tenant.records p × (object_number p.id ≡ n) }
{}

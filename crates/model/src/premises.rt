//! The premises of laws, met by a small organisation.

ghost use Rattle.std.specs.Prelude.{◌≡◌, ◌∷◌, [], codes, Some};
ghost use Rattle.std.specs.List.Sorted.{IsStrictlySortedBy};
ghost use Rattle.base_value.specs.declared.value.FieldType.TheVariants as type;
ghost use Rattle.model.specs.Objects.{Numbered, object_named};
ghost use Rattle.model.specs.Ordered.{by_id};
ghost use Rattle.model.specs.Retyping.{new_job, with_job};
ghost use Rattle.model.specs.Steps.{IsBegun, copy_steps};
ghost use Rattle.model.specs.World.{tenant_at};
ghost use Rattle.model.specs.WorkedAccess.{private};

/// What `object_laws`, `record_laws`, `tenant_laws` and `change_laws` take as given, worked by hand. What they ask of a sound
/// organisation is in `sound_rows` of `model_invariant`. The call does nothing.
pub fn law_rows()
    ensures named { (o : Numbered) × (object_named private (codes "line__C") ≡ Some o) × (o.number ≡ 1) }
    ensures rising { IsStrictlySortedBy by_id private.records }
    ensures put { tenant_at (private ∷ []) 1 ≡ Some private }

    // A picklist that becomes a text, over one deal; and how many steps go over none, a hundred and one more.
    ensures begun { IsBegun (with_job (new_job 0 0 (type.Text 20)) private) (new_job 0 0 (type.Text 20)) }
    ensures counted { (copy_steps 0 ≡ 0) × (copy_steps 1 ≡ 1) × (copy_steps 100 ≡ 1) × (copy_steps 101 ≡ 2) }
{}

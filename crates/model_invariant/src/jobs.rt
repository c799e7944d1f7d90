//! The change of a field's type: its beginning, its end before time, and its steps.

ghost use Rattle.std.specs.Prelude.{IsTrue, List, ℕ};
ghost use Rattle.base_value.specs.Types.{is_type};
ghost use Rattle.model.specs.Jobs.{job_step};
ghost use Rattle.model.specs.declared.metadata_bodies.SpelledType.{SpelledType};
ghost use Rattle.model.specs.Retyping.{begin_retype, cancel_retype, new_type};
ghost use Rattle.model.specs.Sound.{IsSound};
ghost use Rattle.model.specs.Tenant.{Tenant};

use crate::rule_text::text_laws;
use base_value::value_laws;

/// What a change of a type leaves that begins, is called off or goes on to its end is sound; the new type is within its bounds,
/// as every type is that is read. The call does nothing.
pub fn jobs_sound()
    ensures begin { (t : Tenant) (object field : List ℕ) (to : SpelledType) → IsTrue (is_type (new_type to))
        → IsSound t → IsSound (begin_retype t object field to).tenant }
    ensures cancel { (t : Tenant) → IsSound t → IsSound (cancel_retype t).tenant }
    ensures step { (t : Tenant) → IsSound t → IsSound (job_step t) }
{
    value_laws();
    text_laws();
}

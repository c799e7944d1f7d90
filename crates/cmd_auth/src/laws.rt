//! From the organisation that is named to the world.

ghost use Rattle.std.specs.Prelude.{Option, Result, ℕ};
ghost use Rattle.cmd_auth.specs.Asking.{Doing, world_does};
ghost use Rattle.cmd_auth.specs.Judging.{JudgesFor};
ghost use Rattle.store_kv.specs.Tables.{Tables};
ghost use Rattle.store_rows.specs.declared.fail.StoreFail.{StoreFail};
ghost use Rattle.model.specs.Callers.{Named};
ghost use Rattle.model.specs.World.{World};
ghost use Rattle.store_abstraction.specs.declared.judged.Judged.{Judged};
ghost use Rattle.store_abstraction.specs.Operations.{Judges};
ghost use Rattle.store_abstraction.specs.Stands.{Stands};

use model_requests::step_laws;
use store_abstraction::local_laws;

/// What is judged in the organisation that is named is judged in the world, where tables stand for one. The call does nothing.
pub fn asking_laws<X>()
    ensures world { (does : Doing X) (refused : X) (now : ℕ) (named : Option Named) (before after : Tables) (result : Result (Judged X) StoreFail) (w : World)
        → Stands before w → JudgesFor does refused now named before after result
        → Judges Stands (world_does does refused now named) w after result }
{
    local_laws();
    step_laws();
}

//! Any message of a caller: its request is read, judged and answered.

ghost use Rattle.std.specs.Prelude.{IsTrue, pos, ℕ};
ghost use Rattle.base_value.specs.Dates.{is_moment};
ghost use Rattle.model.specs.Paths.{Asked};
ghost use Rattle.model_requests.specs.RequestOf.{answer_to};
ghost use Rattle.model.specs.Sound.{IsSound, IsWorld};
ghost use Rattle.model.specs.Step.{Message, step_by};
ghost use Rattle.model_requests.specs.Answered.{answered};
ghost use Rattle.model.specs.World.{World};
ghost use Rattle.model_invariant.specs.Fit.{IsCaller};

use crate::fits::requests_fit;
use crate::verdicts::verdicts_sound;
use model::tenant_laws;
use model_reads::read_laws;

/// What the answer to any message of a caller leaves of a sound organisation is sound. The call does nothing.
pub fn answers_sound()
    ensures answer { (org : ℕ) (a : Asked) (m : Message) → IsCaller a
        → IsSound a.tenant → IsSound (answer_to org a m).1 }
{
    requests_fit();
    verdicts_sound();
    tenant_laws();
    read_laws();
}

/// What a step of the world leaves of sound organisations is sound, at a moment of the calendar. The call does nothing.
pub fn world_sound()
    ensures step { (w : World) (m : Message) (now : ℕ) → IsTrue (is_moment (pos now))
        → IsWorld w → IsWorld (step_by answered w m now).1 }
{
    answers_sound();
}

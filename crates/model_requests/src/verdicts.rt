//! Any request, and the step that each makes first.

ghost use Rattle.model.specs.Jobs.{job_step};
ghost use Rattle.model.specs.Paths.{Asked};
ghost use Rattle.model.specs.Sound.{IsSound};
ghost use Rattle.model.specs.Tenant.{Tenant};
ghost use Rattle.model_invariant.specs.Fit.{IsCaller};
ghost use Rattle.model_requests.specs.Fit.{IsFit};
ghost use Rattle.model_requests.specs.Requests.{Request, verdict_on};

use crate::removals::removals_sound;
use model_invariant::{
    deletes_sound, jobs_sound, objects_sound, people_sound, records_sound, sharing_sound,
};

/// What the verdict of any request leaves of a sound organisation is sound, if one of its users asks at a moment of the
/// calendar and the body has its form; and so is what a step of a change of a field's type leaves. The call does nothing.
pub fn verdicts_sound()
    ensures verdict { (a : Asked) (r : Request) → IsCaller a → IsFit a r → IsSound a.tenant → IsSound (verdict_on a r).tenant }
    ensures step { (t : Tenant) → IsSound t → IsSound (job_step t) }
{
    records_sound();
    deletes_sound();
    sharing_sound();
    objects_sound();
    people_sound();
    removals_sound();
    jobs_sound();
}

//! From the organisation that is named to the world.

ghost use Rattle.std.specs.Prelude.{List, Option, Result, ℕ};
ghost use Rattle.cmd_load.specs.Batches.{AskedRow, JudgesRowsFor, rows_loaded};
ghost use Rattle.cmd_load.specs.declared.target.Target.{Target};
ghost use Rattle.cmd_load.specs.Targets.{FindsTarget, FindsTargetFor, named_object};
ghost use Rattle.cmd_load_plan.specs.declared.plan.LoadPlan.{LoadPlan};
ghost use Rattle.store_kv.specs.Tables.{Tables};
ghost use Rattle.store_rows.specs.declared.fail.StoreFail.{StoreFail};
ghost use Rattle.model.specs.Callers.{Named};
ghost use Rattle.model.specs.declared.refusal.Refusal.{Refusal};
ghost use Rattle.model.specs.World.{World};
ghost use Rattle.store_abstraction.specs.declared.judged.Judged.{Judged};
ghost use Rattle.store_abstraction.specs.Operations.{Judges};
ghost use Rattle.store_abstraction.specs.Stands.{Stands};

use model_requests::step_laws;
use store_abstraction::local_laws;

/// What is found and judged in the organisation that is named is so in the world, where tables stand for one. The call does nothing.
pub fn batch_laws()
    ensures target { (named : Option Named) (object : List ℕ) (m : Tables) (result : Result (Result Target Refusal) StoreFail) (w : World)
        → Stands m w → FindsTargetFor named object m result → FindsTarget (named_object named object w) result }
    ensures rows { (named : Option Named) (p : LoadPlan) (rows : List AskedRow) (before after : Tables) (result : Result (Judged (List ℕ)) StoreFail) (w : World)
        → Stands before w → JudgesRowsFor named p rows before after result
        → Judges Stands (rows_loaded named p rows) w after result }
{
    local_laws();
    step_laws();
}

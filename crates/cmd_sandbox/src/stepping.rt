//! The change of a field's type: a step of it, and how far it is.

ghost use Rattle.std.specs.Prelude.{◌≡◌, ℕ};
ghost use Rattle.std.specs.Option.{option_map};
ghost use Rattle.cmd_sandbox.specs.Making.{IsOwned, OrMemory};
ghost use Rattle.store_kv.specs.Draft.{tables_of};
ghost use Rattle.store_kv.specs.Memory.{memory_state};
ghost use Rattle.model.specs.Paths.{Asked};
ghost use Rattle.retype_request.specs.States.{state_in};
ghost use Rattle.model.specs.Asker.{stepped};

use crate::organisation::ORG;
use model::tenant_laws;
use retype_request::{ChangeState, change_state};
use std::alloc::Global;
use store_kv::{Draft, MemoryKeeper, draft_laws};
use store_rows::StoreFail;

/// Makes the step of the change of a field's type, if one is under way, as before each request.
///
/// # Errors
///
/// `Memory` if out of memory. No call of this keeper fails.
pub fn make_step(alloc: Global, draft: &mut Draft<'_, MemoryKeeper>) -> Result<(), StoreFail>
    ensures { (now : ℕ) (a : Asked) → IsOwned now draft.old a
        → OrMemory result (λ _. IsOwned now draft.new (stepped a)) }
{
    draft_laws::<MemoryKeeper>();
    tenant_laws();
    match retype_step::step(alloc, draft, ORG) {
        Ok(_made) => Ok(()),
        Err(fail) => Err(fail),
    }
}

/// How far the change of a field's type is, if there was one.
///
/// # Errors
///
/// `Memory` if out of memory. No call of this keeper fails.
pub fn change(
    alloc: Global,
    draft: &mut Draft<'_, MemoryKeeper>,
) -> Result<Option<ChangeState>, StoreFail>
    ensures is { (now : ℕ) (a : Asked) → IsOwned now draft.old a
        → OrMemory result (λ change. change ≡ option_map (state_in a.tenant) a.tenant.job) }
    ensures kept { (now : ℕ) (a : Asked) → IsOwned now draft.old a → IsOwned now draft.new a }
    ensures same { tables_of memory_state draft.new ≡ tables_of memory_state draft.old }
{
    change_state(alloc, draft, ORG)
}

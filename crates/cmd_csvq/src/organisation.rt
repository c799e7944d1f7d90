//! The object of the rows.

ghost use Rattle.std.specs.Prelude.{◌≡◌, IfOk, ℕ};
ghost use Rattle.cmd_csvq.specs.Organisation.{new_rows};
ghost use Rattle.model.specs.Metadata.{add_object};
ghost use Rattle.model.specs.Paths.{Asked};
ghost use Rattle.cmd_sandbox.specs.Making.{IsOwned, StepsOwn};

use base_value::{Access, Text};
use cmd_sandbox::{make_object, only_name};
use model::{NewObject, Refusal};
use std::alloc::{AllocError, Global};
use store_kv::{Draft, MemoryKeeper};
use store_rows::StoreFail;

fn new_rows(alloc: Global) -> Result<NewObject, AllocError>
    ensures { IfOk result (λ new. new ≡ new_rows) }
{
    Ok(NewObject {
        members: only_name(alloc)?,
        name: Text::from_str(alloc, "Row__c")?,
        access: Access::Private,
        hierarchy: true,
        master: None,
    })
}

/// Makes the object of the rows.
///
/// # Errors
///
/// `Memory` if out of memory. No call of this keeper fails.
pub(crate) fn make_object_of_rows(
    alloc: Global,
    draft: &mut Draft<'_, MemoryKeeper>,
) -> Result<Option<Refusal>, StoreFail>
    ensures { (now : ℕ) (a : Asked) → IsOwned now draft.old a
        → StepsOwn now draft.new a (add_object a.tenant new_rows) result }
{
    let new = new_rows(alloc)?;
    make_object(alloc, draft, &new)
}

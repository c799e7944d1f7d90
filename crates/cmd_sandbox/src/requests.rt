//! What the administrator asks for: objects, fields, and the change of a field's type.

ghost use Rattle.std.specs.Prelude.{◌≡◌, IsTrue, ℕ};
ghost use Rattle.model.specs.Metadata.{add_object};
ghost use Rattle.model.specs.NewFields.{add_field};
ghost use Rattle.model.specs.Paths.{Asked};
ghost use Rattle.model.specs.Retyping.{begin_retype, new_type};
ghost use Rattle.cmd_sandbox.specs.Making.{IsOwned, StepsOwn};
ghost use Rattle.model_invariant.specs.Fit.{is_fit_field, is_fit_object};
ghost use Rattle.base_value.specs.Types.{is_type};

use crate::organisation::step;
use base_value::Text;
use model::{NewField, NewObject, Refusal, SpelledType};
use retype_request::BeginRetype;
use schema_edit::{AddField, AddObject};
use std::alloc::Global;
use store_kv::{Draft, MemoryKeeper};
use store_rows::StoreFail;

/// Makes an object, or returns why it is refused.
///
/// # Errors
///
/// `Memory` if out of memory. No call of this keeper fails.
pub fn make_object(
    alloc: Global,
    draft: &mut Draft<'_, MemoryKeeper>,
    new: &NewObject,
) -> Result<Option<Refusal>, StoreFail>
    requires { IsTrue (is_fit_object new.now) }
    ensures { (now : ℕ) (a : Asked) → IsOwned now draft.old a
        → StepsOwn now draft.new a (add_object a.tenant new.now) result }
{
    step(alloc, draft, &AddObject { new })
}

/// Makes a field, or returns why it is refused.
///
/// # Errors
///
/// `Memory` if out of memory. No call of this keeper fails.
pub fn make_field(
    alloc: Global,
    draft: &mut Draft<'_, MemoryKeeper>,
    new: &NewField,
) -> Result<Option<Refusal>, StoreFail>
    requires { IsTrue (is_fit_field new.now) }
    ensures { (now : ℕ) (a : Asked) → IsOwned now draft.old a
        → StepsOwn now draft.new a (add_field a.tenant new.now) result }
{
    step(alloc, draft, &AddField { new })
}

/// Begins the change of a field's type, or returns why it is refused.
///
/// # Errors
///
/// `Memory` if out of memory. No call of this keeper fails.
pub fn begin_change(
    alloc: Global,
    draft: &mut Draft<'_, MemoryKeeper>,
    object: &Text,
    field: &Text,
    kind: &SpelledType,
) -> Result<Option<Refusal>, StoreFail>
    requires { IsTrue (is_type (new_type kind.now)) }
    ensures { (now : ℕ) (a : Asked) → IsOwned now draft.old a
        → StepsOwn now draft.new a (begin_retype a.tenant object.now field.now kind.now) result }
{
    let begin = BeginRetype {
        object,
        field,
        kind,
    };
    step(alloc, draft, &begin)
}

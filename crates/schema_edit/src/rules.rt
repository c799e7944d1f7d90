//! The rules that names are judged by.

ghost use Rattle.std.specs.Prelude.{◌≡◌, IfOk, not};
ghost use Rattle.model.specs.Rules.{refuse_if};
ghost use Rattle.model.specs.declared.refusal.Refusal.TheVariants.{InvalidName, NameTaken};

use base_value::Text;
use model::Refusal;
use std::alloc::{AllocError, Global};

/// That the name isn't of its form, if it isn't good.
///
/// # Errors
///
/// When out of memory.
pub fn bad_name(alloc: Global, is_good: bool, name: &Text) -> Result<Option<Refusal>, AllocError>
    ensures { IfOk result (λ rule. rule ≡ refuse_if (not is_good) (InvalidName name.now)) }
{
    if is_good {
        return Ok(None);
    }
    Ok(Some(Refusal::InvalidName {
        name: name.copy(alloc)?,
    }))
}

/// That the name is another's, if it is taken.
///
/// # Errors
///
/// When out of memory.
pub fn name_taken(alloc: Global, is_taken: bool, name: &Text) -> Result<Option<Refusal>, AllocError>
    ensures { IfOk result (λ rule. rule ≡ refuse_if is_taken (NameTaken name.now)) }
{
    if !is_taken {
        return Ok(None);
    }
    Ok(Some(Refusal::NameTaken {
        name: name.copy(alloc)?,
    }))
}

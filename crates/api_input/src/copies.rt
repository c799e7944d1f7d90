//! Copies of texts that may be missing.

ghost use Rattle.std.specs.Prelude.{◌≡◌, IfOk};
ghost use Rattle.std.specs.Option.{option_copied, option_map};

use base_value::Text;
use std::alloc::{AllocError, Global};

/// A copy of a text, if there is one.
pub(crate) fn copy_of(alloc: Global, text: Option<&Text>) -> Result<Option<Text>, AllocError>
    ensures { IfOk result (λ copy. copy ≡ option_copied text.entry) }
{
    match text {
        Some(text) => Ok(Some(text.copy(alloc)?)),
        None => Ok(None),
    }
}

/// A copy of a text or of none, if there is either.
pub(crate) fn copy_or_none(
    alloc: Global,
    text: Option<Option<&Text>>,
) -> Result<Option<Option<Text>>, AllocError>
    ensures { IfOk result (λ copy. copy ≡ option_map option_copied text.entry) }
{
    match text {
        Some(text) => Ok(Some(copy_of(alloc, text)?)),
        None => Ok(None),
    }
}

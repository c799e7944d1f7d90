ghost use Rattle.std.specs.Prelude.{◌≡◌, IfOk};
ghost use Rattle.model_reads.specs.Parts.{value_part};

use base_value::Text;
use percent_encoding::percent_decode;
use std::alloc::{AllocError, Global};
use std::str::from_utf8;

/// The value in a path, with its percent triplets decoded; none where these bytes aren't UTF-8.
///
/// # Errors
///
/// When out of memory.
pub fn value_part(alloc: Global, part: &Text) -> Result<Option<Text>, AllocError>
    ensures { IfOk result (λ text. text ≡ value_part part.now) }
{
    let mut bytes = Vec::new(alloc);
    percent_decode(part.as_str().as_bytes()).append_to(&mut bytes)?;
    match from_utf8(bytes.as_slice()) {
        Ok(text) => Ok(Some(Text::from_str(alloc, text)?)),
        Err(_) => Ok(None),
    }
}

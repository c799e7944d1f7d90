ghost use Rattle.std.specs.Prelude.{◌≡◌, IfOk};
ghost use Rattle.std.specs.String.{string_bytes};
ghost use Rattle.model.specs.Step.{query_text};

use base_value::Text;
use form_urlencoded::parse;
use std::alloc::{AllocError, Global};

/// The text of a query: the value of the first pair `q` of a query string; without one it is empty.
///
/// # Errors
///
/// When out of memory.
pub fn query_text(alloc: Global, pairs: &Text) -> Result<String, AllocError>
    ensures { IfOk result (λ s. string_bytes s ≡ query_text pairs.now) }
{
    for pair in parse(alloc, pairs.as_str().as_bytes()) {
        let (name, value) = pair?;
        if name.as_str() == "q" {
            return value.into_owned(alloc);
        }
    }
    Ok(String::new(alloc))
}

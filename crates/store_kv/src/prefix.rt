ghost use Rattle.std.specs.Prelude.{◌≡◌, IfOk};
ghost use Rattle.std.specs.Option.{option_map};
ghost use Rattle.store_kv.specs.Prefixes.{raised};

use base_value::Bytes;
use std::alloc::{AllocError, Global};

/// The two ends of the interval of all keys that begin with a prefix: the first end is in it, the second is above it.
///
/// `None` where there is no second end, since the prefix has only bytes 255 or none: then it is all keys from the prefix on.
///
/// # Errors
///
/// If out of memory.
pub fn prefix_ends(alloc: Global, prefix: &[u8]) -> Result<Option<(Bytes, Bytes)>, AllocError>
    ensures { IfOk result (λ ends. ends ≡ option_map (λ above. (prefix.now, above)) (raised prefix.now)) }
{
    let mut above = Vec::from_slice(alloc, prefix)?;
    'bytes: while let Some(last) = above.pop() {
        if last < 255 {
            above.push(last + 1)?;
            let from = Bytes::from_slice(alloc, prefix)?;
            return Ok(Some((from, Bytes::from_vec(above))));
        }
    }
    Ok(None)
}

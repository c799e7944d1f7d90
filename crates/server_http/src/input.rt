ghost use Rattle.std.specs.Prelude.{◌≡◌, ◌<◌, ◌+◌, ◌⊎◌, length, vec_len, IfOk, IfErr, IsErrOf};
ghost use Rattle.std.specs.Io.{StartsWith};
ghost use Rattle.std.specs.Io.KnownBytes.{Keeps, IsAtEnd, prepend_known};
ghost use Rattle.base_value.specs.Causes.{Cause};
ghost use Rattle.server_http.specs.Reads.{Reads};
ghost use Rattle.server_http.specs.Steps.{HasPiece, IsFilled};
ghost use Rattle.server_http.specs.declared.fail.HttpFail.TheVariants.{Failed, Memory};

use crate::fail::HttpFail;
use base_io::Source;

// How many bytes are asked for at once.
const CHUNK: usize = 4096;

// Reads once, and puts what came at the end of the buffer. Nothing comes only at the end. The memory is asked for
// first, so that no byte is lost.
pub(crate) fn read_more<S: Source>(source: &mut S, bytes: &mut Vec<u8>) -> Result<usize, HttpFail>
    ensures kept { Keeps (prepend_known bytes.old.items (S.left source.old)) (prepend_known bytes.new.items (S.left source.new)) }
    ensures front { StartsWith bytes.new.items bytes.old.items }
    ensures step { HasPiece bytes.old.items bytes.new.items (S.left source.old) (S.left source.new) }
    ensures grown { IfOk result (λ n. vec_len bytes.new ≡ vec_len bytes.old + n) }
    ensures end { IfOk result (λ n. n ≡ 0 → IsAtEnd (S.left source.new) × (bytes.new.items ≡ bytes.old.items)) }
    ensures stays { S.stays source.old source.new }
    ensures cause { Cause (S.faults source.old) (S.faults source.new) (IsErrOf result Failed) }
    ensures kind { IfErr result (λ e. (e ≡ Memory) ⊎ (e ≡ Failed)) }
{
    bytes.reserve(CHUNK)?;
    let mut chunk = [0; CHUNK];
    let count = source.read(&mut chunk)?;
    bytes.extend_from_slice(&chunk[..count])?;
    Ok(count)
}

// Reads until the buffer has so many bytes, or the source is at its end.
pub(crate) fn fill<S: Source>(
    source: &mut S,
    bytes: &mut Vec<u8>,
    end: usize,
) -> Result<bool, HttpFail>
    ensures kept { Keeps (prepend_known bytes.old.items (S.left source.old)) (prepend_known bytes.new.items (S.left source.new)) }
    ensures front { StartsWith bytes.new.items bytes.old.items }
    ensures reads { Reads S.left (λ seen. length seen < end) bytes.old.items source.old bytes.new.items source.new }
    ensures filled { IfOk result (λ full. IsFilled full end bytes.new.items (S.left source.new)) }
    ensures stays { S.stays source.old source.new }
    ensures cause { Cause (S.faults source.old) (S.faults source.new) (IsErrOf result Failed) }
    ensures kind { IfErr result (λ e. (e ≡ Memory) ⊎ (e ≡ Failed)) }
{
    while bytes.len() < end {
        if read_more(source, bytes)? == 0 {
            return Ok(false);
        }
    }
    Ok(true)
}

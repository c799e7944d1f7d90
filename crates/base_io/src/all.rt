ghost use Rattle.std.specs.Prelude.{◌≡◌, ◌≤◌, ◌<◌, ◌+◌, length, vec_len, IfOk, OnOk, IfSome, IsErrOf};
ghost use Rattle.std.specs.Io.KnownBytes.{Keeps, IsAtEnd, prepend_known};
ghost use Rattle.base_value.specs.Causes.{Cause};
ghost use Rattle.base_io.specs.declared.all.ReadFail.TheVariants.{Memory, Failed, TooLong};

use crate::traits::{IoFail, Source};
use base_value::Bytes;
use std::alloc::{AllocError, Global};
use thiserror::Error;

/// Why a source was not read to its end.
#[derive(Clone, Copy, Debug, PartialEq, Eq, Error)]
pub enum ReadFail {
    /// The source failed.
    #[error("the source failed")]
    Failed,
    /// It has more bytes than the limit.
    #[error("the source is longer than the limit")]
    TooLong,
    /// Out of memory.
    #[error("out of memory")]
    Memory,
}

impl From<AllocError> for ReadFail {
    ghost from_gives = { λ _ e. e ≡ Memory };

    fn from(_error: AllocError) -> ReadFail {
        ReadFail::Memory
    }
}

impl From<IoFail> for ReadFail {
    ghost from_gives = { λ _ e. e ≡ Failed };

    fn from(_error: IoFail) -> ReadFail {
        ReadFail::Failed
    }
}

// How many bytes are asked for at once.
const CHUNK: usize = 4096;

// Reads once, and appends what came to the bytes. Nothing comes only at the end. The memory is asked for first, so
// that no byte is lost.
fn read_more<S: Source>(source: &mut S, bytes: &mut Vec<u8>) -> Result<usize, ReadFail>
    ensures kept { Keeps (prepend_known bytes.old.items (S.left source.old))
        (prepend_known bytes.new.items (S.left source.new)) }
    ensures grown { IfOk result (λ n. vec_len bytes.new ≡ vec_len bytes.old + n) }
    ensures end { IfOk result (λ n. n ≡ 0 → IsAtEnd (S.left source.new)) }
    ensures stays { S.stays source.old source.new }
    ensures cause { Cause (S.faults source.old) (S.faults source.new) (IsErrOf result Failed) }
    ensures within { IsErrOf result TooLong → ⊥ }
{
    bytes.reserve(CHUNK)?;
    let mut chunk = [0; CHUNK];
    let count = source.read(&mut chunk)?;
    bytes.extend_from_slice(&chunk[..count])?;
    Ok(count)
}

/// All the bytes of a source to its end, which are at most `limit`.
///
/// # Errors
///
/// `TooLong` exactly where the source has more bytes, `Failed` where it fails, `Memory` where it is out of memory.
pub fn read_all<S: Source>(alloc: Global, source: &mut S, limit: usize) -> Result<Bytes, ReadFail>
    ensures whole { IfOk result (λ bytes. IfSome (S.left source.old) (λ all. bytes ≡ all)) }
    ensures within { IfOk result (λ bytes. length bytes ≤ limit) }
    ensures end { OnOk result (IsAtEnd (S.left source.new)) }
    ensures too_long { IsErrOf result TooLong → IfSome (S.left source.old) (λ all. limit < length all) }
    ensures stays { S.stays source.old source.new }
    ensures cause { Cause (S.faults source.old) (S.faults source.new) (IsErrOf result Failed) }
{
    let mut bytes = Vec::new(alloc);
    while bytes.len() <= limit {
        if read_more(source, &mut bytes)? == 0 {
            return Ok(Bytes::from_vec(bytes));
        }
    }
    Err(ReadFail::TooLong)
}

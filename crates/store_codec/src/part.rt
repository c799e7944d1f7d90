ghost use Rattle.std.specs.Prelude.{◌≡◌, ◌++◌, OnOk, IfOk, List, ℕ, Option};
ghost use Rattle.store_codec.specs.Gives.{Gives, GivesBy};
ghost use Rattle.store_codec.specs.Plain.{both_at, whole};

use crate::fail::CodecFail;
use base_value::Bytes;
use std::alloc::{AllocError, Global};

/// A part of a key or a row. A pair is two parts in turn, and so nested pairs are the parts of a whole key or row.
pub trait Part {
    // How it is spelled, which values have a spelling, and what bytes begin with.
    ghost spell: { Self → List ℕ };

    ghost Fits: { Self → Type 0 };

    ghost reads: { List ℕ → Option (Self × List ℕ) };

    /// Appends the part's bytes.
    ///
    /// # Errors
    ///
    /// If out of memory.
    fn put(&self, out: &mut Vec<u8>) -> Result<(), AllocError>
        requires { Fits self.now }
        ensures { OnOk result (out.new.items ≡ out.old.items ++ spell self.now) };

    /// Reads the part at the front, and gives what follows it.
    ///
    /// # Errors
    ///
    /// `Damaged` exactly if the bytes don't begin with one, `Memory` if out of memory.
    fn take(alloc: Global, bytes: &[u8]) -> Result<(Self, &[u8]), CodecFail>
        ensures { GivesBy (λ x. (x.0, x.1.now)) result (reads bytes.now) };
}

/// The bytes of a part.
///
/// # Errors
///
/// If out of memory.
pub fn spelling_of<P: Part>(alloc: Global, part: &P) -> Result<Bytes, AllocError>
    requires { P.Fits part.now }
    ensures { IfOk result (λ b. b ≡ P.spell part.now) }
{
    let mut out = Vec::new(alloc);
    part.put(&mut out)?;
    Ok(Bytes::from_vec(out))
}

/// The part that the bytes spell, all of them.
///
/// # Errors
///
/// `Damaged` exactly if they spell none, `Memory` if out of memory.
pub fn whole_of<P: Part + Drop>(alloc: Global, bytes: &[u8]) -> Result<P, CodecFail>
    ensures { Gives result (whole P.reads bytes.now) }
{
    let (part, rest) = match P::take(alloc, bytes) {
        Ok(found) => found,
        Err(fail) => return Err(fail),
    };
    if !rest.is_empty() {
        return Err(CodecFail::Damaged);
    }
    Ok(part)
}

/// The parts that a key and a row spell, each to its end.
///
/// # Errors
///
/// `Damaged` exactly if they spell none, `Memory` if out of memory.
pub fn both_of<K: Part + Drop, R: Part + Drop>(
    alloc: Global,
    key: &[u8],
    row: &[u8],
) -> Result<(K, R), CodecFail>
    ensures { Gives result (both_at K.reads R.reads key.now row.now) }
{
    let key = match whole_of(alloc, key) {
        Ok(key) => key,
        Err(fail) => return Err(fail),
    };
    match whole_of(alloc, row) {
        Ok(row) => Ok((key, row)),
        Err(fail) => Err(fail),
    }
}

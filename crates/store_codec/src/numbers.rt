//! Numbers and truth values.

ghost use Rattle.std.specs.Prelude.{◌<◌, ◌^◌, FitsSigned};
ghost use Rattle.std.specs.Int.{w16, w32, w64};
ghost use Rattle.store_codec.specs.Composed.{number8_at, signed64, signed64_at};
ghost use Rattle.store_codec.specs.Plain.{number8, number16, number32, number64, number_at, truth, truth_at};

use crate::fail::CodecFail;
use crate::part::Part;
use std::alloc::{AllocError, Global};

impl Part for u8 {
    ghost spell = { number8 };

    ghost Fits = { λ n. n < 256 };

    ghost reads = { number8_at };

    fn put(&self, out: &mut Vec<u8>) -> Result<(), AllocError> {
        out.push(*self)?;
        Ok(())
    }

    #[tactic(auto, unfolding(crate::specs::Composed::number8_at))]
    fn take(_: Global, bytes: &[u8]) -> Result<(u8, &[u8]), CodecFail> {
        match bytes {
            [] => Err(CodecFail::Damaged),
            [number, rest @ ..] => Ok((*number, rest)),
        }
    }
}

impl Part for u16 {
    ghost spell = { number16 };

    ghost Fits = { λ n. n < 2 ^ 16 };

    ghost reads = { number_at w16 };

    #[tactic(auto, unfolding(crate::specs::Plain::number16))]
    fn put(&self, out: &mut Vec<u8>) -> Result<(), AllocError> {
        out.extend_from_slice(&self.to_be_bytes())?;
        Ok(())
    }

    fn take(_: Global, bytes: &[u8]) -> Result<(u16, &[u8]), CodecFail> {
        if bytes.len() < 2 {
            return Err(CodecFail::Damaged);
        }
        let (front, rest) = bytes.split_at(2);
        let number = u16::from_be_bytes([front[0], front[1]]);
        Ok((number, rest))
    }
}

impl Part for u32 {
    ghost spell = { number32 };

    ghost Fits = { λ n. n < 2 ^ 32 };

    ghost reads = { number_at w32 };

    #[tactic(auto, unfolding(crate::specs::Plain::number32))]
    fn put(&self, out: &mut Vec<u8>) -> Result<(), AllocError> {
        out.extend_from_slice(&self.to_be_bytes())?;
        Ok(())
    }

    fn take(_: Global, bytes: &[u8]) -> Result<(u32, &[u8]), CodecFail> {
        if bytes.len() < 4 {
            return Err(CodecFail::Damaged);
        }
        let (front, rest) = bytes.split_at(4);
        let number = u32::from_be_bytes([front[0], front[1], front[2], front[3]]);
        Ok((number, rest))
    }
}

impl Part for u64 {
    ghost spell = { number64 };

    ghost Fits = { λ n. n < 2 ^ 64 };

    ghost reads = { number_at w64 };

    #[tactic(auto, unfolding(crate::specs::Plain::number64))]
    fn put(&self, out: &mut Vec<u8>) -> Result<(), AllocError> {
        out.extend_from_slice(&self.to_be_bytes())?;
        Ok(())
    }

    fn take(_: Global, bytes: &[u8]) -> Result<(u64, &[u8]), CodecFail> {
        if bytes.len() < 8 {
            return Err(CodecFail::Damaged);
        }
        let (front, rest) = bytes.split_at(8);
        let number = u64::from_be_bytes([
            front[0], front[1], front[2], front[3], front[4], front[5], front[6], front[7],
        ]);
        Ok((number, rest))
    }
}

impl Part for i64 {
    ghost spell = { signed64 };

    ghost Fits = { FitsSigned w64 };

    ghost reads = { signed64_at };

    #[tactic(auto, unfolding(crate::specs::Composed::signed64, crate::specs::Plain::number64))]
    fn put(&self, out: &mut Vec<u8>) -> Result<(), AllocError> {
        out.extend_from_slice(&self.to_be_bytes())?;
        Ok(())
    }

    #[tactic(auto, unfolding(crate::specs::Composed::signed64_at))]
    fn take(alloc: Global, bytes: &[u8]) -> Result<(i64, &[u8]), CodecFail> {
        let (number, rest) = u64::take(alloc, bytes)?;
        Ok((number.cast_signed(), rest))
    }
}

impl Part for bool {
    ghost spell = { truth };

    ghost Fits = { λ _. Unit {0} };

    ghost reads = { truth_at };

    fn put(&self, out: &mut Vec<u8>) -> Result<(), AllocError> {
        out.push(u8::from(*self))?;
        Ok(())
    }

    #[tactic(auto, unfolding(crate::specs::Plain::truth_at))]
    fn take(_: Global, bytes: &[u8]) -> Result<(bool, &[u8]), CodecFail> {
        match bytes {
            [0, rest @ ..] => Ok((false, rest)),
            [1, rest @ ..] => Ok((true, rest)),
            _ => Err(CodecFail::Damaged),
        }
    }
}

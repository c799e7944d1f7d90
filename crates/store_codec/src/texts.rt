//! Texts, ids, digests and ordered bytes.

ghost use Rattle.std.specs.Prelude.{◌≡◌, ◌<◌, length, MatchOption, IsTrue, true, false, IfOk, IfErr};
ghost use Rattle.std.specs.Str.{is_utf8};
ghost use Rattle.store_codec.specs.Composed.{ordered, ordered_at, ordered_from};
ghost use Rattle.store_codec.specs.Gives.{Fails};
ghost use Rattle.store_codec.specs.PartLaws.{IsBytes};
ghost use Rattle.store_codec.specs.Plain.{text, text_at, FitsText, same_bytes, id_at, fixed_at};
ghost use Rattle.base_value.specs.Id.{is_id};

use crate::fail::CodecFail;
use crate::part::Part;
use base_value::{Bytes, Id, Text};
use std::alloc::{AllocError, Global};

// The bytes as a string, if they are one.
fn as_string(bytes: &[u8]) -> Option<&str>
    ensures { MatchOption result (is_utf8 bytes.now ≡ false) (λ s. (s.now ≡ bytes.now) × (is_utf8 bytes.now ≡ true)) }
{
    match str::from_utf8(bytes) {
        Ok(text) => Some(text),
        Err(_) => None,
    }
}

impl Part for Text {
    ghost spell = { text };

    ghost Fits = { FitsText };

    ghost reads = { text_at };

    fn put(&self, out: &mut Vec<u8>) -> Result<(), AllocError> {
        let bytes = self.as_str().as_bytes();
        (bytes.len() as u32).put(out)?;
        out.extend_from_slice(bytes)?;
        Ok(())
    }

    #[tactic(auto, unfolding(crate::specs::Plain::text_at))]
    fn take(alloc: Global, bytes: &[u8]) -> Result<(Text, &[u8]), CodecFail> {
        let (len, rest) = u32::take(alloc, bytes)?;
        let len = len as usize;
        if rest.len() < len {
            return Err(CodecFail::Damaged);
        }
        let (front, rest) = rest.split_at(len);
        match as_string(front) {
            Some(text) => Ok((Text::from_str(alloc, text)?, rest)),
            None => Err(CodecFail::Damaged),
        }
    }
}

impl Part for Id {
    ghost spell = { same_bytes };

    ghost Fits = { λ i. IsTrue (is_id i) };

    ghost reads = { id_at };

    fn put(&self, out: &mut Vec<u8>) -> Result<(), AllocError> {
        out.extend_from_slice(self.as_bytes())?;
        Ok(())
    }

    #[tactic(auto, unfolding(crate::specs::Plain::id_at))]
    fn take(_: Global, bytes: &[u8]) -> Result<(Id, &[u8]), CodecFail> {
        if bytes.len() < 15 {
            return Err(CodecFail::Damaged);
        }
        let (front, rest) = bytes.split_at(15);
        match Id::from_bytes(front) {
            Some(id) => Ok((id, rest)),
            None => Err(CodecFail::Damaged),
        }
    }
}

impl Part for [u8; 32] {
    ghost spell = { same_bytes };

    ghost Fits = { λ d. length d ≡ 32 };

    ghost reads = { fixed_at 32 };

    fn put(&self, out: &mut Vec<u8>) -> Result<(), AllocError> {
        out.extend_from_slice(self)?;
        Ok(())
    }

    #[tactic(auto, unfolding(crate::specs::Plain::fixed_at))]
    fn take(_: Global, bytes: &[u8]) -> Result<([u8; 32], &[u8]), CodecFail> {
        if bytes.len() < 32 {
            return Err(CodecFail::Damaged);
        }
        let (front, rest) = bytes.split_at(32);
        let mut digest = [0; 32];
        digest.copy_from_slice(front);
        Ok((digest, rest))
    }
}

// The first of some ordered bytes, or none where they are closed, and what follows it.
#[tactic(auto, unfolding(crate::specs::Composed::ordered_at))]
fn ordered_byte_of(bytes: &[u8]) -> Result<(Option<u8>, &[u8]), CodecFail>
    ensures found { IfOk result (λ x. ordered_at bytes.now ≡ ordered_from x.0 x.1.now) }
    ensures shorter { IfOk result (λ x. length x.1.now < length bytes.now) }
    ensures none { IfErr result (λ e. Fails e (ordered_at bytes.now)) }
{
    match bytes {
        [0, 0, rest @ ..] => Ok((None, rest)),
        [0, 0xFF, rest @ ..] => Ok((Some(0), rest)),
        [] | [0, ..] => Err(CodecFail::Damaged),
        [byte, rest @ ..] => Ok((Some(*byte), rest)),
    }
}

/// Bytes as a part are ordered bytes: each byte 0 is written as 0 255, and 0 0 closes them.
impl Part for Bytes {
    ghost spell = { ordered };

    ghost Fits = { IsBytes };

    ghost reads = { ordered_at };

    fn put(&self, out: &mut Vec<u8>) -> Result<(), AllocError> {
        for byte in self.as_slice() {
            out.push(*byte)?;
            if *byte == 0 {
                out.push(0xFF)?;
            }
        }
        out.push(0)?;
        out.push(0)?;
        Ok(())
    }

    fn take(alloc: Global, bytes: &[u8]) -> Result<(Bytes, &[u8]), CodecFail> {
        let mut out = Vec::new(alloc);
        let mut rest = bytes;
        loop {
            let (byte, after) = ordered_byte_of(rest)?;
            match byte {
                None => return Ok((Bytes::from_vec(out), after)),
                Some(byte) => out.push(byte)?,
            }
            rest = after;
        }
    }
}

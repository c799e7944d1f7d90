//! Nothing, fixed bytes, two parts in turn, and a part that may be there.

ghost use Rattle.std.specs.Prelude.{◌≡◌, ◌++◌, IfSome};
ghost use Rattle.store_codec.specs.Plain.{nothing, nothing_at, number8, mark_at, pair_at, optional, optional_at};

use crate::fail::CodecFail;
use crate::part::Part;
use std::alloc::{AllocError, Global};
use std::marker::Model;

impl Part for () {
    ghost spell = { nothing };

    ghost Fits = { λ _. Unit {0} };

    ghost reads = { nothing_at };

    fn put(&self, _: &mut Vec<u8>) -> Result<(), AllocError> {
        Ok(())
    }

    fn take(_: Global, bytes: &[u8]) -> Result<((), &[u8]), CodecFail> {
        Ok(((), bytes))
    }
}

/// The byte `M`, which tells the forms of one table apart.
#[derive(Clone, Copy, Debug, PartialEq, Eq)]
pub struct Mark<const M: u8>;

impl<const M: u8> Model for Mark<M> {
    ghost Value = { Unit {0} };

    ghost view = { λ _. tt };

    ghost inverse = { λ _. record {} };
}

impl<const M: u8> Part for Mark<M> {
    ghost spell = { λ _. number8 M };

    ghost Fits = { λ _. Unit {0} };

    ghost reads = { mark_at M };

    fn put(&self, out: &mut Vec<u8>) -> Result<(), AllocError> {
        out.push(M)?;
        Ok(())
    }

    #[tactic(auto, unfolding(crate::specs::Plain::mark_at))]
    fn take(_: Global, bytes: &[u8]) -> Result<(Mark<M>, &[u8]), CodecFail> {
        match bytes {
            [] => Err(CodecFail::Damaged),
            [byte, rest @ ..] => {
                if *byte == M {
                    Ok((Mark, rest))
                } else {
                    Err(CodecFail::Damaged)
                }
            }
        }
    }
}

impl<A: Part + Drop, B: Part + Drop> Part for (A, B) {
    ghost spell = { λ p. A.spell p.0 ++ B.spell p.1 };

    ghost Fits = { λ p. A.Fits p.0 × B.Fits p.1 };

    ghost reads = { pair_at A.reads B.reads };

    fn put(&self, out: &mut Vec<u8>) -> Result<(), AllocError> {
        self.0.put(out)?;
        self.1.put(out)?;
        Ok(())
    }

    fn take(alloc: Global, bytes: &[u8]) -> Result<((A, B), &[u8]), CodecFail> {
        let (first, rest) = match A::take(alloc, bytes) {
            Ok(found) => found,
            Err(fail) => return Err(fail),
        };
        let (second, rest) = match B::take(alloc, rest) {
            Ok(found) => found,
            Err(fail) => return Err(fail),
        };
        Ok(((first, second), rest))
    }
}

impl<T: Part + Drop> Part for Option<T> {
    ghost spell = { optional T.spell };

    ghost Fits = { λ o. IfSome o T.Fits };

    ghost reads = { optional_at T.reads };

    fn put(&self, out: &mut Vec<u8>) -> Result<(), AllocError> {
        match self {
            None => out.push(0)?,
            Some(part) => {
                out.push(1)?;
                part.put(out)?;
            }
        }
        Ok(())
    }

    #[tactic(auto, unfolding(crate::specs::Plain::optional_at))]
    fn take(alloc: Global, bytes: &[u8]) -> Result<(Option<T>, &[u8]), CodecFail> {
        match bytes {
            [0, rest @ ..] => Ok((None, rest)),
            [1, rest @ ..] => match T::take(alloc, rest) {
                Ok((part, rest)) => Ok((Some(part), rest)),
                Err(fail) => Err(fail),
            },
            _ => Err(CodecFail::Damaged),
        }
    }
}

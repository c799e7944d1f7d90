//! Lists, and so many parts in turn.

ghost use Rattle.std.specs.Prelude.{◌≡◌, ◌++◌, OnOk, IfSome};
ghost use Rattle.std.specs.List.{All};
ghost use Rattle.store_codec.specs.Composed.{in_turn, in_turn_at, items, items_at, slot_count, FitsItems, FitsTimes};
ghost use Rattle.store_codec.specs.Gives.{GivesBy};
ghost use Rattle.store_codec.specs.Plain.{optional, optional_at, text, text_at, FitsText};

use crate::fail::CodecFail;
use crate::part::Part;
use base_value::{Items, Text};
use std::alloc::{AllocError, Global};
use std::marker::Model;

// Writes parts in turn.
fn put_in_turn<T: Part>(out: &mut Vec<u8>, parts: &[T]) -> Result<(), AllocError>
    requires { All T.Fits parts.now }
    ensures { OnOk result (out.new.items ≡ out.old.items ++ in_turn T.spell parts.now) }
{
    for part in parts {
        part.put(out)?;
    }
    Ok(())
}

// Reads so many parts in turn.
fn parts_in_turn<T: Part + Drop>(
    alloc: Global,
    count: u32,
    bytes: &[u8],
) -> Result<(Items<T>, &[u8]), CodecFail>
    ensures { GivesBy (λ x. (x.0, x.1.now)) result (in_turn_at T.reads count bytes.now) }
{
    let mut parts = Vec::new(alloc);
    let mut rest = bytes;
    for _ in 0..count {
        let (part, after) = match T::take(alloc, rest) {
            Ok(found) => found,
            Err(fail) => return Err(fail),
        };
        parts.push(part)?;
        rest = after;
    }
    Ok((Items::from_vec(parts), rest))
}

/// A list: how many parts it has, and the parts in turn.
impl<T: Part + Drop> Part for Items<T> {
    ghost spell = { items T.spell };

    ghost Fits = { FitsItems T.Fits };

    ghost reads = { items_at T.reads };

    fn put(&self, out: &mut Vec<u8>) -> Result<(), AllocError> {
        (self.as_slice().len() as u32).put(out)?;
        put_in_turn(out, self.as_slice())
    }

    #[tactic(auto, unfolding(crate::specs::Composed::items_at))]
    fn take(alloc: Global, bytes: &[u8]) -> Result<(Items<T>, &[u8]), CodecFail> {
        let (count, rest) = u32::take(alloc, bytes)?;
        parts_in_turn(alloc, count, rest)
    }
}

// How many slots a data row has.
const SLOT_COUNT: u32 = 48;

/// What the slots of a data row hold: a text each, or nothing.
#[derive(Debug, Drop)]
pub struct Slots {
    texts: Items<Option<Text>>,
}

impl Model for Slots {
    ghost use Rattle.std.specs.Prelude.{List, ℕ, Option};

    ghost Value = { List (Option (List ℕ)) };

    ghost view = { λ s. s.texts };
}

impl Slots {
    /// Slots that hold these. A row with another number of them than it has slots can't be written.
    pub fn new(texts: Items<Option<Text>>) -> Slots
        ensures { result ≡ texts }
    {
        Slots { texts }
    }

    /// What each slot holds.
    pub fn texts(&self) -> &[Option<Text>]
        ensures { result.now ≡ self.now }
    {
        self.texts.as_slice()
    }
}

impl Part for Slots {
    ghost spell = { in_turn (optional text) };

    ghost Fits = { FitsTimes slot_count (λ o. IfSome o FitsText) };

    ghost reads = { in_turn_at (optional_at text_at) slot_count };

    fn put(&self, out: &mut Vec<u8>) -> Result<(), AllocError> {
        put_in_turn(out, self.texts())
    }

    fn take(alloc: Global, bytes: &[u8]) -> Result<(Slots, &[u8]), CodecFail> {
        match parts_in_turn(alloc, SLOT_COUNT, bytes) {
            Ok((texts, rest)) => Ok((Slots::new(texts), rest)),
            Err(fail) => Err(fail),
        }
    }
}

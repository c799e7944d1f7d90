//! Slots, read in their bytes.

ghost use Rattle.std.specs.Prelude.{◌≡◌, ℕ, List, Option, Some, [], is_some, option_map};
ghost use Rattle.std.specs.Str.{chars};
ghost use Rattle.store_codec.specs.Composed.{in_turn_at};
ghost use Rattle.store_codec.specs.Plain.{optional_at, text_at, whole};
ghost use Rattle.store_view.specs.Slots.{slot_in};

use crate::fronts::{behind_optional_text, number_front, optional_text_front};

/// Whether the bytes are those of so many slots and no more.
pub(crate) fn are_slots(bytes: &[u8], count: u8) -> bool
    ensures { result ≡ is_some (whole (in_turn_at (optional_at text_at) count) bytes.now) }
{
    if count == 0 {
        return bytes.is_empty();
    }
    match behind_optional_text(bytes) {
        Some(rest) => are_slots(rest, count - 1),
        None => false,
    }
}

// What the slot at the front holds.
fn first_slot(bytes: &[u8]) -> Option<&str>
    ensures { (t : Option (List ℕ)) (rest : List ℕ) → optional_at text_at bytes.now ≡ Some (t, rest) → option_map (λ s. chars s.now) result ≡ t }
{
    match optional_text_front(bytes) {
        Some((text, _)) => text,
        None => None,
    }
}

// The rest after a slot, which isn't looked at.
#[tactic(auto, unfolding(store_codec::specs::Plain::optional_at, store_codec::specs::Plain::text_at))]
fn after_slot(bytes: &[u8]) -> Option<&[u8]>
    ensures { (t : Option (List ℕ)) (rest : List ℕ) → optional_at text_at bytes.now ≡ Some (t, rest) → option_map (λ r. r.now) result ≡ Some rest }
{
    match bytes {
        [0, rest @ ..] => Some(rest),
        [1, rest @ ..] => match number_front(rest) {
            Some((len, rest)) => {
                let len = len as usize;
                if rest.len() < len {
                    return None;
                }
                let (_, rest) = rest.split_at(len);
                Some(rest)
            }
            None => None,
        },
        _ => None,
    }
}

/// What one of so many slots holds, if the bytes are those of the slots; nothing where there is no such slot.
pub(crate) fn slot_of(bytes: &[u8], count: u8, wanted: usize) -> Option<&str>
    ensures { (texts : List (Option (List ℕ))) → in_turn_at (optional_at text_at) count bytes.now ≡ Some (texts, [])
        → option_map (λ s. chars s.now) result ≡ slot_in texts wanted }
{
    if count == 0 {
        return None;
    }
    if wanted == 0 {
        return first_slot(bytes);
    }
    match after_slot(bytes) {
        Some(rest) => slot_of(rest, count - 1, wanted - 1),
        None => None,
    }
}

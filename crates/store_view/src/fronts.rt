//! What bytes begin with, without a copy.

ghost use Rattle.std.specs.Prelude.{◌≡◌, MatchOption, false, option_map, true};
ghost use Rattle.std.specs.Int.{w16, w32, w64};
ghost use Rattle.std.specs.Str.{chars, is_utf8};
ghost use Rattle.store_codec.specs.Composed.{signed64_at};
ghost use Rattle.store_codec.specs.Plain.{id_at, number_at, optional_at, text_at};
ghost use Rattle.store_view.specs.Seen as seen;

use base_value::Id;

/// A number of two bytes at the front, and the rest.
pub fn short_front(bytes: &[u8]) -> Option<(u16, &[u8])>
    ensures { option_map (λ x. (x.0, x.1.now)) result ≡ number_at w16 bytes.now }
{
    if bytes.len() < 2 {
        return None;
    }
    let (front, rest) = bytes.split_at(2);
    Some((u16::from_be_bytes([front[0], front[1]]), rest))
}

/// A number of four bytes at the front, and the rest.
pub fn number_front(bytes: &[u8]) -> Option<(u32, &[u8])>
    ensures { option_map (λ x. (x.0, x.1.now)) result ≡ number_at w32 bytes.now }
{
    if bytes.len() < 4 {
        return None;
    }
    let (front, rest) = bytes.split_at(4);
    let number = u32::from_be_bytes([front[0], front[1], front[2], front[3]]);
    Some((number, rest))
}

// A number of eight bytes at the front, and the rest.
fn long_front(bytes: &[u8]) -> Option<(u64, &[u8])>
    ensures { option_map (λ x. (x.0, x.1.now)) result ≡ number_at w64 bytes.now }
{
    if bytes.len() < 8 {
        return None;
    }
    let (front, rest) = bytes.split_at(8);
    let number = u64::from_be_bytes([
        front[0], front[1], front[2], front[3], front[4], front[5], front[6], front[7],
    ]);
    Some((number, rest))
}

/// A signed number of eight bytes at the front, and the rest.
#[tactic(auto, unfolding(store_codec::specs::Composed::signed64_at))]
pub fn signed_front(bytes: &[u8]) -> Option<(i64, &[u8])>
    ensures { option_map (λ x. (x.0, x.1.now)) result ≡ signed64_at bytes.now }
{
    match long_front(bytes) {
        Some((number, rest)) => Some((number.cast_signed(), rest)),
        None => None,
    }
}

/// The id at the front, and the rest.
#[tactic(auto, unfolding(store_codec::specs::Plain::id_at))]
pub fn id_front(bytes: &[u8]) -> Option<(Id, &[u8])>
    ensures { option_map (λ x. (x.0, x.1.now)) result ≡ id_at bytes.now }
{
    if bytes.len() < 15 {
        return None;
    }
    let (front, rest) = bytes.split_at(15);
    match Id::from_bytes(front) {
        Some(id) => Some((id, rest)),
        None => None,
    }
}

/// The id or nothing at the front, and the rest.
#[tactic(auto, unfolding(store_codec::specs::Plain::optional_at))]
pub fn optional_id_front(bytes: &[u8]) -> Option<(Option<Id>, &[u8])>
    ensures { option_map (λ x. (x.0, x.1.now)) result ≡ optional_at id_at bytes.now }
{
    match bytes {
        [0, rest @ ..] => Some((None, rest)),
        [1, rest @ ..] => match id_front(rest) {
            Some((id, rest)) => Some((Some(id), rest)),
            None => None,
        },
        _ => None,
    }
}

// The bytes as a string, if they are one.
fn as_string(bytes: &[u8]) -> Option<&str>
    ensures { MatchOption result (is_utf8 bytes.now ≡ false) (λ s. (s.now ≡ bytes.now) × (is_utf8 bytes.now ≡ true)) }
{
    match str::from_utf8(bytes) {
        Ok(text) => Some(text),
        Err(_) => None,
    }
}

// The text at the front, and the rest.
#[tactic(auto, unfolding(store_codec::specs::Plain::text_at))]
fn text_front(bytes: &[u8]) -> Option<(&str, &[u8])>
    ensures { option_map (λ x. (chars x.0.now, x.1.now)) result ≡ text_at bytes.now }
{
    match number_front(bytes) {
        None => None,
        Some((len, rest)) => {
            let len = len as usize;
            if rest.len() < len {
                return None;
            }
            let (front, rest) = rest.split_at(len);
            match as_string(front) {
                Some(text) => Some((text, rest)),
                None => None,
            }
        }
    }
}

/// The text or nothing at the front, and the rest.
#[tactic(auto, unfolding(store_codec::specs::Plain::optional_at))]
pub fn optional_text_front(bytes: &[u8]) -> Option<(Option<&str>, &[u8])>
    ensures { option_map seen.optional_text result ≡ optional_at text_at bytes.now }
{
    match bytes {
        [0, rest @ ..] => Some((None, rest)),
        [1, rest @ ..] => match text_front(rest) {
            Some((text, rest)) => Some((Some(text), rest)),
            None => None,
        },
        _ => None,
    }
}

/// What is behind the text or nothing at the front.
#[tactic(auto, unfolding(store_codec::specs::Plain::optional_at))]
pub fn behind_optional_text(bytes: &[u8]) -> Option<&[u8]>
    ensures { option_map (λ r. r.now) result ≡ option_map (λ x. x.1) (optional_at text_at bytes.now) }
{
    match bytes {
        [0, rest @ ..] => Some(rest),
        [1, rest @ ..] => match text_front(rest) {
            Some((_, rest)) => Some(rest),
            None => None,
        },
        _ => None,
    }
}

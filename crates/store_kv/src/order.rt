ghost use Rattle.std.specs.Prelude.{◌≡◌, ◌≤◌, length, take};
ghost use Rattle.std.specs.Int.{w64, to_be_bytes};
ghost use Rattle.store_kv.specs.Tables.{bytes_cmp};

use base_value::digit_laws;
use std::cmp::Ordering;

// Eight bytes as a number, the highest byte first.
fn word_of(bytes: &[u8; 8]) -> u64
    ensures { to_be_bytes w64 result ≡ bytes.now }
{
    u64::from_be_bytes(*bytes)
}

fn compare_words(one: &[u8; 8], other: &[u8; 8]) -> Ordering
    ensures { result ≡ bytes_cmp one.now other.now }
{
    digit_laws();
    word_of(one).cmp(&word_of(other))
}

// The order of two such keys that begin with the same eight bytes: that of their last eight.
fn compare_ends<'k>(one: &'k [u8], other: &'k [u8]) -> Ordering
    requires long { 8 ≤ length one.now }
    requires short { length one.now ≤ 16 }
    requires level { length one.now ≡ length other.now }
    requires same { take 8 one.now ≡ take 8 other.now }
    ensures { result ≡ bytes_cmp one.now other.now }
{
    match (one.split_last_chunk::<8>(), other.split_last_chunk::<8>()) {
        (Some((_, end)), Some((_, other_end))) => compare_words(end, other_end),
        _ => one.cmp(other),
    }
}

// The order of two keys of one length: that of their first eight bytes, or else of their last eight.
fn compare_short<'k>(one: &'k [u8], other: &'k [u8]) -> Ordering
    requires long { 8 ≤ length one.now }
    requires short { length one.now ≤ 16 }
    requires level { length one.now ≡ length other.now }
    ensures { result ≡ bytes_cmp one.now other.now }
{
    match (one.split_first_chunk::<8>(), other.split_first_chunk::<8>()) {
        (Some((word, _)), Some((other_word, _))) => {
            // Most keys that are compared begin with the same bytes.
            if word_of(word) == word_of(other_word) {
                return compare_ends(one, other);
            }
            let order = compare_words(word, other_word);
            if order.is_ne() {
                return order;
            }
            compare_ends(one, other)
        }
        _ => one.cmp(other),
    }
}

/// The order of two keys, eight bytes at a time: most keys of a table begin with the same bytes.
pub(crate) fn compare_keys<'k>(one: &'k [u8], other: &'k [u8]) -> Ordering
    ensures { result ≡ bytes_cmp one.now other.now }
{
    if one.len() == other.len() && 8 <= one.len() && one.len() <= 16 {
        return compare_short(one, other);
    }
    let Some((word, rest)) = one.split_first_chunk::<8>() else {
        return one.cmp(other);
    };
    let Some((other_word, other_rest)) = other.split_first_chunk::<8>() else {
        return one.cmp(other);
    };
    let order = compare_words(word, other_word);
    if order.is_ne() {
        return order;
    }
    compare_keys(rest, other_rest)
}

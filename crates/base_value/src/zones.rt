//! What follows the seconds of a moment: perhaps a fraction of a second, and a zone.

ghost use Rattle.std.specs.Prelude.{◌≡◌, ◌^◌, ◌<◌, ◌&&◌, if◌then◌else◌};
ghost use Rattle.base_value.specs.Dates as spec;

use crate::forms::{has_form, rest, two_at};
use crate::numeral::digits_len;

// How many characters a point and the digits after it are.
#[tactic(auto, unfolding(crate::specs::Dates::fraction_len))]
fn fraction_len(chars: &[char]) -> usize
    ensures { result ≡ spec.fraction_len chars.now }
{
    match chars.split_first() {
        Some(('.', digits)) => 1 + digits_len(digits),
        _ => 0,
    }
}

#[tactic(auto, unfolding(crate::specs::Dates::is_fraction_len))]
fn is_fraction_len(count: usize) -> bool
    ensures { result ≡ spec.is_fraction_len count }
{
    count == 0 || 2 <= count && count <= 10
}

#[tactic(auto, unfolding(crate::specs::Dates::is_utc))]
fn is_utc(zone: &[char]) -> bool
    ensures { result ≡ spec.is_utc zone.now }
{
    has_form(b"Z", zone)
}

#[tactic(auto, unfolding(crate::specs::Dates::is_offset))]
fn is_offset(zone: &[char]) -> bool
    ensures { result ≡ spec.is_offset zone.now }
{
    has_form(b"+0000", zone)
        || has_form(b"-0000", zone)
        || has_form(b"+00:00", zone)
        || has_form(b"-00:00", zone)
}

#[tactic(auto, unfolding(crate::specs::Dates::offset_minutes))]
fn offset_minutes(zone: &[char]) -> u32
    ensures value { result ≡ spec.offset_minutes zone.now }
    ensures small { result < 2 ^ 25 }
{
    two_at(zone, zone.len().saturating_sub(2))
}

// How many seconds the clocks of a zone are ahead of UTC, where the characters are a zone.
#[tactic(auto, unfolding(crate::specs::Dates::is_zone, crate::specs::Dates::ahead, crate::specs::Dates::offset_seconds))]
fn ahead_of_zone(zone: &[char]) -> Option<i32>
    ensures { result ≡ (if spec.is_zone zone.now then Some (spec.ahead zone.now) else None) }
{
    if is_utc(zone) {
        return Some(0);
    }
    let (hours, minutes) = (two_at(zone, 1), offset_minutes(zone));
    if !is_offset(zone) || 23 < hours || 59 < minutes {
        return None;
    }
    let seconds = (3600 * hours + 60 * minutes) as i32;
    if zone.first() == Some(&'-') {
        Some(-seconds)
    } else {
        Some(seconds)
    }
}

/// How many seconds the clocks are ahead of UTC, from what follows the seconds of a moment.
#[tactic(auto, unfolding(crate::specs::Dates::zone_of))]
pub(crate) fn ahead_of(chars: &[char]) -> Option<i32>
    ensures { let fraction = spec.is_fraction_len (spec.fraction_len chars.now) in
        let zone = spec.zone_of chars.now in
        result ≡ (if fraction && spec.is_zone zone then Some (spec.ahead zone) else None) }
{
    let fraction = fraction_len(chars);
    if is_fraction_len(fraction) {
        ahead_of_zone(rest(chars, fraction))
    } else {
        None
    }
}

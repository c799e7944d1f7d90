//! Reading of days and moments, over the calendar of `jiff_core`.

ghost use Rattle.std.specs.Prelude.{◌≡◌, ◌^◌, ◌<◌, ◌↔◌, pos, IsTrue, IsSome, IfSome, if◌then◌else◌};
ghost use Rattle.jiff_core.specs.Date.{IsYmd};
ghost use Rattle.base_value.specs.Dates.{is_day, is_moment, is_date, year_of, month_of, day_of, is_written_day, is_clock, clock_seconds, is_moment_form, moment_seconds, is_written_moment};
ghost use Rattle.base_value.specs.Reading.{read_day, read_moment};

use crate::fail::ValueFail;
use crate::forms::{has_form, prefix, rest, two_at};
use crate::zones::ahead_of;
use jiff_core::civil::Date;

// 0001-01-01.
const FIRST_DAY: i32 = -719_162;

// 9999-12-31.
const LAST_DAY: i32 = 2_932_896;

// 0001-01-01T00:00:00Z.
const FIRST_MOMENT: i64 = -62_135_596_800;

// 9999-12-31T23:59:59Z.
const LAST_MOMENT: i64 = 253_402_300_799;

/// Whether a day, counted from 1970-01-01, is of the years 0001 to 9999.
pub(crate) fn is_day(day: i32) -> bool
    ensures { result ≡ is_day day }
{
    FIRST_DAY <= day && day <= LAST_DAY
}

/// Whether a second, counted from 1970-01-01T00:00:00Z, is of the years 0001 to 9999.
pub(crate) fn is_moment(second: i64) -> bool
    ensures { result ≡ is_moment second }
{
    FIRST_MOMENT <= second && second <= LAST_MOMENT
}

#[tactic(auto, unfolding(crate::specs::Dates::year_of))]
fn year_of(date: &[char]) -> u32
    ensures value { result ≡ year_of date.now }
    ensures small { result < 2 ^ 32 }
{
    100 * two_at(date, 0) + two_at(date, 2)
}

// The date that the characters are, of the years 0000 to 9999.
fn date_of(chars: &[char]) -> Option<Date>
    ensures some { IsSome result ↔ IsTrue (is_date chars.now) }
    ensures parts { IfSome result
        (IsYmd (pos (year_of chars.now)) (pos (month_of chars.now)) (pos (day_of chars.now))) }
{
    if !has_form(b"0000-00-00", chars) {
        return None;
    }
    Date::new(
        year_of(chars) as i16,
        two_at(chars, 5) as i8,
        two_at(chars, 8) as i8,
    )
    .ok()
}

/// The day that a date names, counted from 1970-01-01.
///
/// # Errors
///
/// `WrongType` where the characters aren't a date of the years 0001 to 9999.
pub(crate) fn read_day(chars: &[char]) -> Result<i32, ValueFail>
    ensures { result ≡ read_day chars.now }
{
    match date_of(chars) {
        Some(date) if 1 <= date.year => Ok(date.to_unix_epoch_day()),
        _ => Err(ValueFail::WrongType),
    }
}

/// Whether the characters are a date of the years 0001 to 9999.
#[tactic(auto, unfolding(crate::specs::Reading::read_day))]
pub fn is_written_day(chars: &[char]) -> bool
    ensures { result ≡ is_written_day chars.now }
{
    read_day(chars).is_ok()
}

// The seconds from midnight to the time that the characters are.
#[tactic(auto, unfolding(crate::specs::Dates::is_clock, crate::specs::Dates::clock_seconds))]
fn seconds_from_midnight(clock: &[char]) -> Option<u32>
    ensures { result ≡ (if is_clock clock.now then Some (clock_seconds clock.now) else None) }
{
    let (hours, minutes, seconds) = (two_at(clock, 1), two_at(clock, 4), two_at(clock, 7));
    if has_form(b"T00:00:00", clock) && hours <= 23 && minutes <= 59 && seconds <= 59 {
        Some(3600 * hours + 60 * minutes + seconds)
    } else {
        None
    }
}

// The second that a moment names, of whatever year.
fn moment_of(chars: &[char]) -> Option<i64>
    ensures { result
        ≡ (if is_moment_form chars.now then Some (moment_seconds chars.now) else None) }
{
    let day = date_of(prefix(chars, 10))?.to_unix_epoch_day();
    let seconds = seconds_from_midnight(prefix(rest(chars, 10), 9))?;
    let ahead = ahead_of(rest(chars, 19))?;
    Some(i64::from(day) * 86_400 + i64::from(seconds) - i64::from(ahead))
}

/// The second that a moment names, counted from 1970-01-01T00:00:00Z.
///
/// # Errors
///
/// `WrongType` where the characters don't have the form of a moment, `OutOfRange` where it isn't of the years 0001 to 9999
/// in UTC.
#[tactic(auto, unfolding(crate::specs::Reading::read_moment))]
pub(crate) fn read_moment(chars: &[char]) -> Result<i64, ValueFail>
    ensures { result ≡ read_moment chars.now }
{
    match moment_of(chars) {
        Some(second) if is_moment(second) => Ok(second),
        Some(_) => Err(ValueFail::OutOfRange),
        None => Err(ValueFail::WrongType),
    }
}

/// Whether the characters are a moment of the years 0001 to 9999 in UTC.
#[tactic(auto, unfolding(crate::specs::Reading::read_moment, crate::specs::Dates::is_written_moment))]
pub fn is_written_moment(chars: &[char]) -> bool
    ensures { result ≡ is_written_moment chars.now }
{
    read_moment(chars).is_ok()
}

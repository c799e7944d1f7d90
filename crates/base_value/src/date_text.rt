ghost use Rattle.std.specs.Prelude.{◌≡◌, ◌<◌, IfOk, IsTrue};
ghost use Rattle.std.specs.String.{string_bytes};
ghost use Rattle.jiff_core.specs.Date.{epoch_day};
ghost use Rattle.base_value.specs.Dates.{is_day, is_moment};
ghost use Rattle.base_value.specs.Printing.{day_of_moment, print_clock, print_date, print_day, print_moment};

use jiff_core::civil::Date;
use std::alloc::{AllocError, Global};

// The days from -9999-01-01, the first date of the calendar, to 1970-01-01.
const DAYS_BEFORE_1970: i32 = 4_371_587;

// The seconds of a day.
const DAY: i64 = 86_400;

// The text of a date.
fn date_text(alloc: Global, year: u16, month: u8, day: u8) -> Result<String, AllocError>
    requires year_in { year < 10000 }
    requires month_in { month < 100 }
    requires day_in { day < 100 }
    ensures { IfOk result (λ text. string_bytes text ≡ print_date year month day) }
{
    format!(in alloc; "{year:04}-{month:02}-{day:02}")
}

// The text of a time of the day, in seconds from midnight.
fn clock_text(alloc: Global, second: u32) -> Result<String, AllocError>
    requires { second < 86400 }
    ensures { IfOk result (λ text. string_bytes text ≡ print_clock second) }
{
    let hour = second / 3600;
    let minute = second / 60 % 60;
    let rest = second % 60;
    format!(in alloc; "{hour:02}:{minute:02}:{rest:02}")
}

// The date of a day.
fn date_of(day: i32) -> Date
    requires { IsTrue (is_day day) }
    ensures { epoch_day result ≡ day }
{
    Date::from_days_since_min((day + DAYS_BEFORE_1970) as u32)
}

/// The text of a day, as `2011-04-26`.
///
/// # Errors
///
/// When out of memory.
pub(crate) fn day_text(alloc: Global, day: i32) -> Result<String, AllocError>
    requires { IsTrue (is_day day) }
    ensures { IfOk result (λ text. string_bytes text ≡ print_day day) }
{
    let date = date_of(day);
    date_text(alloc, date.year as u16, date.month, date.day)
}

/// The text of a moment, as `2011-04-26T12:00:00.000+0000`.
///
/// # Errors
///
/// When out of memory.
pub(crate) fn moment_text(alloc: Global, second: i64) -> Result<String, AllocError>
    requires { IsTrue (is_moment second) }
    ensures { IfOk result (λ text. string_bytes text ≡ print_moment second) }
{
    let day = day_text(alloc, day_of_valid_moment(second))?;
    let clock = clock_text(alloc, second.rem_euclid(DAY) as u32)?;
    format!(in alloc; "{day}T{clock}.000+0000")
}

/// The day of a moment, in UTC: both are counted from 1970-01-01, and any moment has a day.
pub fn day_of_moment(second: i64) -> i64
    ensures { result ≡ day_of_moment second }
{
    second.div_euclid(DAY)
}

/// The day of a moment of the years 0001 to 9999.
pub(crate) fn day_of_valid_moment(second: i64) -> i32
    requires { IsTrue (is_moment second) }
    ensures value { result ≡ day_of_moment second }
    ensures day { IsTrue (is_day result) }
{
    second.div_euclid(DAY) as i32
}

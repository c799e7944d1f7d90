//! Lines on standard error of what was replied.

use jiff_core::civil::Date;
use std::fmt;
use std::str::from_utf8;
use std::time::Clock;

// How many bytes of a request's first line are kept.
const KEPT: usize = 80;

// The seconds of a day, and the last one of the year 9999.
const DAY: u64 = 86_400;

const LAST_MOMENT: u64 = 253_402_300_799;

/// The first line of a request, or its first 80 bytes.
#[derive(Debug, Drop)]
pub(crate) struct RequestLine {
    bytes: [u8; KEPT],
    len: usize,
}

impl RequestLine {
    /// A line of which nothing has come.
    pub(crate) fn new() -> RequestLine {
        RequestLine {
            bytes: [0; KEPT],
            len: 0,
        }
    }

    /// Keeps what comes next.
    pub(crate) fn push(&mut self, bytes: &[u8]) {
        for byte in bytes {
            if self.len >= KEPT {
                return;
            }
            self.bytes[self.len] = *byte;
            self.len += 1;
        }
    }

    // What came of the line, without its end; `-` if nothing came.
    fn shown(&self) -> &[u8] {
        let came = self.bytes.get(..self.len).unwrap_or(&[]);
        match came.split(|byte| *byte == b'\r' || *byte == b'\n').next() {
            Some(line) if !line.is_empty() => line,
            _ => b"-",
        }
    }
}

// A second of the years 1970 to 9999, written as 2011-04-26T12:00:00Z.
#[derive(Drop)]
struct Moment {
    date: Date,
    second: u64,
}

impl fmt::Display for Moment {
    fn fmt<W: fmt::Write>(&self, f: &mut fmt::Formatter<W>) -> fmt::Result {
        let Date {
            year,
            month,
            day,
            ..
        } = self.date;
        let hour = self.second / 3600;
        let minute = self.second / 60 % 60;
        let second = self.second % 60;
        write!(
            f,
            "{year:04}-{month:02}-{day:02}T{hour:02}:{minute:02}:{second:02}Z"
        )
    }
}

// The present moment, if the clock gives one.
fn present<C: Clock>(clock: &C) -> Option<Moment> {
    let second = clock.since_1970().ok()?.as_secs().min(LAST_MOMENT);
    let day = i64::try_from(second / DAY).ok()?;
    let date = Date::from_unix_epoch_day(day).ok()?;
    Some(Moment {
        date,
        second: second % DAY,
    })
}

/// Says a reply that begins: one of 500, 503 or 507 always, and every one if `says_all`, with the moment and its bytes.
pub(crate) fn say_reply<R: Clock + Eprint>(
    rt: &R,
    request: &RequestLine,
    reply: &[u8],
    says_all: bool,
) {
    // A status line has its status behind `HTTP/1.1 `.
    let Some(status) = reply.get(9..12) else {
        return;
    };
    let Ok(status) = from_utf8(status) else {
        return;
    };
    let line = request.shown().escape_ascii();
    if says_all && let Some(moment) = present(rt) {
        let bytes = reply.len();
        let _ = eprintln!(rt; "carmuguur: {moment} \"{line}\" {status} {bytes}");
    } else if says_all || matches!(status, "500" | "503" | "507") {
        let _ = eprintln!(rt; "carmuguur: \"{line}\" {status}");
    }
}

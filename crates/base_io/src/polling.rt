//! Waiting until the system has something for a descriptor.

use libc::net::{POLLIN, POLLOUT, poll};
use libc::types::pollfd;
use std::time::Duration;

// How many times a wait is begun that the system breaks off, as where the process was stopped and goes on.
const TRIES: u32 = 1_000;

const NANOS_PER_MILLI: u128 = 1_000_000;

// A time in whole milliseconds, rounded up.
fn millis(time: Duration) -> i32 {
    i32::try_from(time.as_nanos().div_ceil(NANOS_PER_MILLI)).unwrap_or(i32::MAX)
}

fn ask(fd: i32, events: i16) -> pollfd {
    pollfd {
        fd,
        events,
        revents: 0,
    }
}

// Waits until one of two descriptors has what is asked, at most for this time. It returns which of them have.
fn wait(first: pollfd, second: pollfd, time: Duration) -> (bool, bool) {
    let mut asked = [first, second];
    for _ in 0..TRIES {
        if poll(&mut asked, millis(time)) >= 0 {
            return (asked[0].revents != 0, asked[1].revents != 0);
        }
    }
    (false, false)
}

/// What a descriptor is waited for.
#[derive(Clone, Copy, Debug)]
pub(crate) enum Want {
    /// Bytes, or the other side's end.
    Bytes,
    /// Room for bytes.
    Room,
}

/// Waits until a descriptor has what is wanted or has failed, at most for this time. It returns whether it has.
pub(crate) fn wait_for(fd: i32, want: Want, time: Duration) -> bool {
    let events = match want {
        Want::Bytes => POLLIN,
        Want::Room => POLLOUT,
    };
    wait(ask(fd, events), ask(-1, 0), time).0
}

/// Waits until one of two descriptors has bytes, has ended or has failed, at most for this time. It returns whether the
/// first one has. A negative descriptor never has.
pub(crate) fn wait_for_either(first: i32, second: i32, time: Duration) -> bool {
    wait(ask(first, POLLIN), ask(second, POLLIN), time).0
}

/// Waits for this time.
pub(crate) fn pause(time: Duration) {
    wait(ask(-1, 0), ask(-1, 0), time);
}

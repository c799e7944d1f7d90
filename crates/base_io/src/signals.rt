//! Whether the program is told to end.

use std::fs;
use std::fs::Files;

// SIGINT and SIGTERM in the system's set of signals, which has bit N - 1 for signal N.
const ENDING: u64 = (1 << 1) | (1 << 14);

// Where Linux says which signals wait for the process, among other things, in lines such as `ShdPnd: 0000000000004000`.
const STATUS: &str = "/proc/self/status";

const WAITING: &str = "ShdPnd:";

// Whether a set of signals, in hexadecimal digits, has one that ends the program.
fn has_ending(digits: &str) -> bool {
    match u64::from_str_radix(digits.trim(), 16) {
        Ok(signals) => signals & ENDING != 0,
        Err(_) => false,
    }
}

/// Whether SIGINT or SIGTERM waits for the process, as it does where the program was started with these blocked. Otherwise
/// such a signal ends it at once. It is false if the system doesn't say.
pub(crate) fn is_told_to_end<R: Files + Alloc>(rt: &R) -> bool {
    let Ok(status) = fs::read_to_string(rt, STATUS) else {
        return false;
    };
    for line in status.as_str().lines() {
        if let Some(digits) = line.strip_prefix(WAITING) {
            return has_ending(digits);
        }
    }
    false
}

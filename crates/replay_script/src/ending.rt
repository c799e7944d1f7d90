//! What is said where the program ends before all is done.

use std::rt::HostRuntime;

/// Says on standard error why not all is done, and returns the status.
pub(crate) fn end_with(rt: &HostRuntime, status: u8, why: &str) -> u8 {
    let _ = eprintln!(rt; "replay: {why}");
    status
}

/// The same where memory ran out.
pub(crate) fn out_of_memory(rt: &HostRuntime) -> u8 {
    end_with(rt, 71, "out of memory")
}

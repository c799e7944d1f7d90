//! Why the lines of a case file end early.

use std::alloc::AllocError;
use store_kv::KeepFail;

/// Why a case file's lines end early. The player has the number of the line at which they do.
#[derive(Clone, Copy)]
pub(crate) enum Stop {
    /// What came isn't what is wanted, as the player's message says.
    Differs,
    /// The line is refused, for this.
    Fault(&'static str),
    /// The line hasn't this form, which those have that begin as it does.
    Form(&'static str),
    /// The line of JSON is refused, as the player's message says.
    Json,
    /// The keeper failed where the line puts rows.
    Keeper,
    /// Out of memory.
    Memory,
}

/// No line begins so.
pub(crate) const UNKNOWN: &str = "no line begins so";

/// Nothing before the line runs, of which this could be wanted.
pub(crate) const NOTHING_RUNS: &str = "it follows no request and no command";

/// No request before the line waits for a reply.
pub(crate) const NOTHING_ASKED: &str = "it follows no request without a reply";

/// The request before the line has no reply.
pub(crate) const NO_REPLY: &str = "the request before has no reply";

impl From<AllocError> for Stop {
    fn from(_error: AllocError) -> Stop {
        Stop::Memory
    }
}

impl From<KeepFail> for Stop {
    fn from(fail: KeepFail) -> Stop {
        match fail {
            KeepFail::Failed => Stop::Keeper,
            KeepFail::Memory => Stop::Memory,
        }
    }
}

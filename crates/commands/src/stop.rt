//! What cuts a command short.

ghost use Rattle.std.specs.Prelude.{◌≡◌};
ghost use Rattle.commands.specs.Statuses.{stop_status};
ghost use Rattle.commands.specs.Stops.{of_opening, of_store};
ghost use Rattle.commands.specs.declared.stop.Stop.TheVariants as stop;

use base_io::IoFail;
use std::alloc::AllocError;
use store_abstraction::OpenFail;
use store_rows::StoreFail;

/// What cuts a command short.
#[derive(Clone, Copy, Debug, PartialEq, Eq)]
pub enum Stop {
    /// Out of memory.
    NoMemory,
    /// The keeper failed.
    KeeperFailed,
    /// The sink failed.
    SinkFailed,
    /// The source failed.
    SourceFailed,
    /// The door failed.
    DoorFailed,
    /// The tables are damaged.
    Damaged,
    /// The tables are of a version that isn't known here.
    UnknownVersion,
}

impl Stop {
    /// The status of the process.
    pub fn status(self) -> u8
        ensures { result ≡ stop_status self }
    {
        match self {
            Stop::NoMemory => 71,
            Stop::KeeperFailed => 72,
            Stop::SinkFailed => 73,
            Stop::SourceFailed => 74,
            Stop::DoorFailed => 75,
            Stop::Damaged => 76,
            Stop::UnknownVersion => 77,
        }
    }
}

impl From<StoreFail> for Stop {
    ghost from_gives = { λ fail e. e ≡ of_store fail };

    fn from(fail: StoreFail) -> Stop {
        match fail {
            StoreFail::Keeper => Stop::KeeperFailed,
            StoreFail::Memory => Stop::NoMemory,
            StoreFail::Damaged => Stop::Damaged,
        }
    }
}

impl From<OpenFail> for Stop {
    ghost from_gives = { λ fail e. e ≡ of_opening fail };

    fn from(fail: OpenFail) -> Stop {
        match fail {
            OpenFail::Store(fail) => Stop::from(fail),
            OpenFail::UnknownVersion => Stop::UnknownVersion,
        }
    }
}

impl From<AllocError> for Stop {
    ghost from_gives = { λ _ e. e ≡ stop.NoMemory };

    fn from(_: AllocError) -> Stop {
        Stop::NoMemory
    }
}

impl From<IoFail> for Stop {
    ghost from_gives = { λ _ e. e ≡ stop.SinkFailed };

    fn from(_: IoFail) -> Stop {
        Stop::SinkFailed
    }
}

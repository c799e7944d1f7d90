ghost use Rattle.std.specs.Prelude.{◌≡◌, ◌≤◌, IfOk, List, ℕ, Option, Some, None};
ghost use Rattle.std.specs.List.{All};
ghost use Rattle.base_io.specs.Moments.{AskedOnce, IsFirstMoment, last_moment, or_first};

use std::alloc::{AllocError, Global};
use std::marker::Model;
use std::time;
use std::time::SystemTime;

// 9999-12-31T23:59:59Z: `last_moment` of the contracts.
const LAST_MOMENT: u64 = 253_402_300_799;

/// A clock of whole seconds from 1970-01-01T00:00:00Z.
pub trait Clock {
    /// The moments to come, where the clock tells them. There always is one.
    ghost coming: { Self → Option (List ℕ) };

    /// The present moment, in seconds from 1970-01-01T00:00:00Z, at most `last_moment`, the last second of the year 9999.
    fn now(&mut self) -> u64
        ensures bound { result ≤ last_moment }
        ensures first { IsFirstMoment (coming self.old) result }
        ensures asked { AskedOnce (coming self.old) (coming self.new) };
}

/// A clock in memory: it returns the moments of a list in turn, and the last one for ever.
#[derive(Debug, Drop)]
pub struct MemoryClock {
    moments: Vec<u64>,
    at: usize,
}

impl Model for MemoryClock {
    ghost use Rattle.std.specs.Prelude.{◌≤◌, ◌<◌, drop, vec_len, List, ℕ};
    ghost use Rattle.std.specs.List.{All};
    ghost use Rattle.base_io.specs.Moments.{last_moment};

    ghost Value = { List ℕ };

    ghost view = { λ c. drop c.at c.moments.items };

    ghost invariant = { λ c. (c.at < vec_len c.moments) × All (λ m. m ≤ last_moment) c.moments.items };
}

impl MemoryClock {
    /// A clock of these moments, in seconds from 1970-01-01T00:00:00Z, at most `last_moment`. Given none it has the one
    /// moment 0.
    ///
    /// # Errors
    ///
    /// Where it is out of memory.
    pub fn new(alloc: Global, moments: &[u64]) -> Result<MemoryClock, AllocError>
        requires { All (λ m. m ≤ last_moment) moments.now }
        ensures { IfOk result (λ c. c ≡ or_first moments.now) }
    {
        let given: &[u64] = if moments.is_empty() { &[0] } else { moments };
        Ok(MemoryClock {
            moments: Vec::from_slice(alloc, given)?,
            at: 0,
        })
    }
}

impl Clock for MemoryClock {
    ghost coming = { λ c. Some c };

    fn now(&mut self) -> u64 {
        let moment = self.moments[self.at];
        if self.at + 1 < self.moments.len() {
            self.at += 1;
        }
        moment
    }
}

/// The system's clock. It tells nothing of the moments to come.
///
/// Where the system's time can't be read, it returns the moment that it read last, at first 0. A time after
/// `last_moment` is returned as `last_moment`.
#[derive(Debug, Drop)]
pub struct SystemClock<R> {
    rt: R,
    last: u64,
}

impl<R: time::Clock> SystemClock<R> {
    /// The clock of a runtime.
    pub fn new(rt: R) -> SystemClock<R> {
        SystemClock { rt, last: 0 }
    }
}

impl<R: time::Clock> Clock for SystemClock<R> {
    ghost coming = { λ _. None };

    fn now(&mut self) -> u64 {
        if let Ok(time) = SystemTime::now(&self.rt) {
            if let Ok(since) = time.duration_since(SystemTime::UNIX_EPOCH) {
                self.last = since.as_secs();
            }
        }
        self.last.min(LAST_MOMENT)
    }
}

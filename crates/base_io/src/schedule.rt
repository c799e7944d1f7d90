ghost use Rattle.std.specs.Prelude.{◌≡◌, ◌+◌, IfOk};
ghost use Rattle.base_value.specs.Causes.{up_to_last};
ghost use Rattle.base_io.specs.Memory.{fails_next};

use std::alloc::{AllocError, Global};
use std::marker::Model;

/// Which calls of an object in memory fail, by their numbers from 1.
#[derive(Debug, Drop)]
pub(crate) struct Schedule {
    made: u64,
    failing: Vec<u64>,
}

impl Model for Schedule {
    ghost use Rattle.base_io.specs.inner.Schedule as spec;

    ghost Value = { spec.Schedule };

    ghost view = { λ s. record { made = s.made; failing = s.failing.items } };
}

impl Schedule {
    pub(crate) fn new(alloc: Global, failing: &[u64]) -> Result<Schedule, AllocError>
        ensures { IfOk result (λ s. s ≡ record { made = 0; failing = failing.now }) }
    {
        Ok(Schedule {
            made: 0,
            failing: Vec::from_slice(alloc, failing)?,
        })
    }

    // Counts a call, and says whether it is one that fails.
    pub(crate) fn next_fails(&mut self) -> bool
        ensures fails { result ≡ fails_next self.old.made self.old.failing }
        ensures counted { self.new
            ≡ record { made = up_to_last (self.old.made + 1); failing = self.old.failing } }
    {
        self.made = self.made.saturating_add(1);
        self.failing.contains(&self.made)
    }
}

// A count after one more: it saturates.
pub(crate) fn one_more(count: u64) -> u64
    ensures { result ≡ up_to_last (count + 1) }
{
    count.saturating_add(1)
}

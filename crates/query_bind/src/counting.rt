//! How many branches what is selected has.

ghost use Rattle.std.specs.Prelude.{◌+◌, ◌≤◌, OnOk};
ghost use Rattle.std.specs.List.{sum_by};
ghost use Rattle.model.specs.Shown.{path_steps};

use soql::Path;
use std::alloc::AllocError;

/// How many steps to parents these paths have, or as many of them as can be counted.
pub(crate) fn steps_of(paths: &[Path]) -> usize
    ensures { result ≤ sum_by path_steps paths.now }
{
    let mut steps: usize = 0;
    for path in paths {
        steps = steps.saturating_add(path.names.len().saturating_sub(1));
    }
    steps
}

/// Tells want of memory where so many branches are more than there were before and so many steps. It never does: each branch that
/// is added is a step of a path.
///
/// # Errors
///
/// Never.
pub(crate) fn check_steps(count: usize, before: usize, steps: usize) -> Result<(), AllocError>
    ensures { OnOk result (count ≤ before + steps) }
{
    if count.saturating_sub(before) > steps {
        Err(AllocError)
    } else {
        Ok(())
    }
}

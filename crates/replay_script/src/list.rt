//! Items of a list.

use std::alloc::AllocError;

/// Adds an item to others.
pub(crate) fn push<T: Drop>(items: &mut Vec<T>, item: T) -> Result<(), AllocError> {
    items.push(item)?;
    Ok(())
}

//! The arguments of a line.

use base_value::Bytes;
use std::alloc::{AllocError, Global};

/// The first argument, and those behind it.
pub(crate) fn first_of(arguments: &str) -> (&str, &str) {
    arguments.split_once('|').unwrap_or((arguments, ""))
}

/// The bytes of hexadecimal digits; none if they aren't that.
pub(crate) fn bytes(alloc: Global, digits: &str) -> Result<Bytes, AllocError> {
    match hex::decode(alloc, digits) {
        Ok(bytes) => Ok(Bytes::from_vec(bytes)),
        Err(_) => Bytes::from_slice(alloc, &[]),
    }
}

/// The number of an organisation.
pub(crate) fn org(digits: &str) -> u32 {
    digits.parse::<u32>().unwrap_or(0)
}

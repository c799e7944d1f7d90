//! The arguments of a line.

use std::alloc::{AllocError, Global};

// The bytes of hexadecimal digits, or `?` if they aren't that.
fn push_hex(alloc: Global, bytes: &mut Vec<u8>, digits: &str) -> Result<(), AllocError> {
    match hex::decode(alloc, digits) {
        Ok(piece) => bytes.extend_from_slice(piece.as_slice())?,
        Err(_) => bytes.push(b'?')?,
    }
    Ok(())
}

/// The bytes of a text in which those between two `~` are written in hexadecimal digits.
pub(crate) fn decoded(alloc: Global, text: &str) -> Result<Vec<u8>, AllocError> {
    let mut bytes = Vec::new(alloc);
    let mut is_plain = true;
    for piece in text.split('~') {
        if is_plain {
            bytes.extend_from_slice(piece.as_bytes())?;
        } else {
            push_hex(alloc, &mut bytes, piece)?;
        }
        is_plain = !is_plain;
    }
    Ok(bytes)
}

/// The first argument, and those behind it.
pub(crate) fn first_of(arguments: &str) -> (&str, &str) {
    arguments.split_once('|').unwrap_or((arguments, ""))
}

/// `true` or `false`.
pub(crate) fn truth(alloc: Global, holds: bool) -> Result<String, AllocError> {
    String::from_str(alloc, if holds { "true" } else { "false" })
}

//! What is said of refusals.

use crate::line::first_of;
use base_value::{Bytes, Text};
use model::{Limit, Refusal, damaged_body, org_id};
use std::alloc::{AllocError, Global};

// The refusal of this name with a text, if it has one.
fn refusal(name: &str, text: Text) -> Option<Refusal> {
    match name {
        "LimitExceeded" => Some(Refusal::LimitExceeded {
            limit: Limit::Organisations,
        }),
        "SecretRefused" => Some(Refusal::SecretRefused),
        "MalformedQuery" => Some(Refusal::MalformedQuery { place: 15 }),
        "TooLong" => Some(Refusal::TooLong {
            field: text,
            most: 80,
        }),
        "InvalidSession" => Some(Refusal::InvalidSession),
        "DuplicateOf" => Some(Refusal::DuplicateOf {
            field: text,
            other: org_id(1),
        }),
        "JobBusy" => Some(Refusal::JobBusy),
        "RetypeUnsupported" => Some(Refusal::RetypeUnsupported { field: text }),
        _ => None,
    }
}

// The refusal that the arguments say: its name, and its text.
fn refusal_in(alloc: Global, arguments: &str) -> Result<Option<Refusal>, AllocError> {
    let (name, text) = first_of(arguments);
    Ok(refusal(name, Text::from_str(alloc, text)?))
}

fn said_of(alloc: Global, refusal: &Refusal) -> Result<String, AllocError> {
    let message = refusal.message(alloc)?;
    let message = message.as_str();
    let status = refusal.status().as_u16();
    let code = refusal.code();
    format!(in alloc; "{status} {code} {message}")
}

/// The status, the code and the message of a refusal.
pub(crate) fn said(alloc: Global, arguments: &str) -> Result<String, AllocError> {
    match refusal_in(alloc, arguments)? {
        Some(refusal) => said_of(alloc, &refusal),
        None => String::from_str(alloc, "no refusal"),
    }
}

// The text of a body.
pub(crate) fn text_of(alloc: Global, body: &Bytes) -> Result<String, AllocError> {
    match str::from_utf8(body.as_slice()) {
        Ok(text) => String::from_str(alloc, text),
        Err(_) => String::from_str(alloc, "no text"),
    }
}

/// The body of a refusal.
pub(crate) fn body(alloc: Global, arguments: &str) -> Result<String, AllocError> {
    match refusal_in(alloc, arguments)? {
        Some(refusal) => text_of(alloc, &refusal.body(alloc)?),
        None => String::from_str(alloc, "no refusal"),
    }
}

/// The body that tells of a damaged store.
pub(crate) fn damaged(alloc: Global) -> Result<String, AllocError> {
    text_of(alloc, &damaged_body(alloc)?)
}

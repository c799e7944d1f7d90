//! The bytes of requests and of the replies that are wanted.

use crate::output::Output;

/// The phrase of a status that a reply may have.
pub(crate) fn phrase_of(status: u16) -> Option<&'static str> {
    match status {
        200 => Some("OK"),
        201 => Some("Created"),
        204 => Some("No Content"),
        400 => Some("Bad Request"),
        401 => Some("Unauthorized"),
        403 => Some("Forbidden"),
        404 => Some("Not Found"),
        405 => Some("Method Not Allowed"),
        411 => Some("Length Required"),
        413 => Some("Payload Too Large"),
        431 => Some("Request Header Fields Too Large"),
        500 => Some("Internal Server Error"),
        501 => Some("Not Implemented"),
        503 => Some("Service Unavailable"),
        507 => Some("Insufficient Storage"),
        _ => None,
    }
}

/// Appends the message of a request: who asks, unless that is empty, and the length of the body, if there is one.
pub(crate) fn push_request(out: &mut Output, target: &str, caller: &str, body: Option<&str>) {
    out.push(target);
    out.push(" HTTP/1.1\r\n");
    if !caller.is_empty() {
        out.push("Authorization: Bearer ");
        out.push(caller);
        out.push("\r\n");
    }
    match body {
        Some(body) => {
            out.push("Content-Length: ");
            out.push_number(body.len() as u64);
            out.push("\r\n\r\n");
            out.push(body);
        }
        None => out.push("\r\n"),
    }
}

/// Appends the lines of a reply's head, which are those of each reply with such a status and such a length of its body.
pub(crate) fn push_head(out: &mut Output, status: u16, phrase: &str, length: usize) {
    out.push("HTTP/1.1 ");
    out.push_number(u64::from(status));
    out.push(" ");
    out.push(phrase);
    out.push("\r\n");
    if status != 204 {
        out.push("Content-Type: application/json;charset=UTF-8\r\nContent-Length: ");
        out.push_number(length as u64);
        out.push("\r\n");
    }
}

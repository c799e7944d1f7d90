//! What came of a run, beside what must come of it.

use crate::cases::messages::{phrase_of, push_head};
use crate::cases::trial::{Piece, Trial};
use crate::output::Output;
use crate::report::Counts;

// A reply's status and body, if its head is that of each such reply.
fn plain_reply<'a>(out: &mut Output, text: &'a str) -> Option<(u16, &'a str)> {
    let (head, body) = text.split_once("\r\n\r\n")?;
    let status = head.split(' ').nth(1)?.parse::<u16>().unwrap_or(0);
    let phrase = phrase_of(status)?;
    let mut reply = Output::new(out.alloc());
    push_head(&mut reply, status, phrase, body.len());
    reply.push("\r\n");
    reply.push(body);
    out.note_as(&reply);
    if reply.as_str() == text {
        Some((status, body))
    } else {
        None
    }
}

// The first message or line of what came.
fn front_of(text: &str) -> &str {
    let end = match text.strip_prefix("HTTP/1.1 ") {
        Some(rest) => match rest.split_once("HTTP/1.1 ") {
            Some((_, behind)) => text.len().saturating_sub(behind.len()).saturating_sub(9),
            None => text.len(),
        },
        None => match text.split_once('\n') {
            Some((_, behind)) => text.len().saturating_sub(behind.len()),
            None => text.len(),
        },
    };
    match text.split_at_checked(end) {
        Some((front, _)) => front,
        None => text,
    }
}

// Appends a message or a line as a case file would have it.
fn push_shown(out: &mut Output, text: &str) {
    match plain_reply(out, text) {
        Some((status, body)) => {
            out.push_number(u64::from(status));
            if !body.is_empty() {
                out.push(" ");
                out.push(body);
            }
        }
        None => out.push_quoted(text),
    }
}

// Appends bytes as a case file would have them, as far as the first message or line.
fn push_bytes(out: &mut Output, bytes: &[u8]) {
    if bytes.is_empty() {
        out.push("nothing");
        return;
    }
    match str::from_utf8(bytes) {
        Ok(text) => push_shown(out, front_of(text)),
        Err(_) => {
            out.push("hex ");
            out.push_digits(bytes);
        }
    }
}

// Appends what came in place of these bytes.
fn push_difference(out: &mut Output, wanted: &[u8], came: &[u8]) {
    out.push("what is written\n  wanted: ");
    push_bytes(out, wanted);
    out.push("\n  came:   ");
    push_bytes(out, came);
}

// Appends what came in place of a piece.
fn push_other_piece(out: &mut Output, piece: &Piece, came: &[u8]) {
    let mut wanted = Vec::new(out.alloc());
    let done = wanted.extend_from_slice(piece.front.as_slice());
    out.note(done);
    let done = wanted.extend_from_slice(piece.back.as_slice());
    out.note(done);
    push_difference(out, wanted.as_slice(), came);
}

// What is behind a piece, if bytes begin with it.
fn behind<'a>(bytes: &'a [u8], piece: &Piece) -> Option<&'a [u8]> {
    bytes
        .strip_prefix(piece.front.as_slice())?
        .strip_prefix(piece.back.as_slice())
}

// Appends the first piece that didn't come, or what came beyond all of them, and gives its line.
fn push_other_output(out: &mut Output, trial: &Trial, came: &[u8]) -> Option<u64> {
    let mut rest = came;
    let mut last = trial.line;
    for piece in &trial.pieces {
        for _ in 0..piece.times {
            match behind(rest, piece) {
                Some(more) => rest = more,
                None => {
                    push_other_piece(out, piece, rest);
                    return Some(piece.line);
                }
            }
        }
        last = piece.line;
    }
    if rest.is_empty() {
        return None;
    }
    push_difference(out, b"", rest);
    Some(last)
}

// Appends what came otherwise than as a number, if it did.
fn push_other_number(out: &mut Output, what: &str, wanted: u64, came: u64) -> bool {
    if wanted == came {
        return false;
    }
    out.push(what);
    out.push("\n  wanted: ");
    out.push_number(wanted);
    out.push("\n  came:   ");
    out.push_number(came);
    true
}

/// Appends the first difference of what came from what is wanted, if there is one, and gives its line. The standard output is compared,
/// and then the status and the two counts.
pub(crate) fn push_first_difference(
    out: &mut Output,
    trial: &Trial,
    counts: Counts,
    output: &[u8],
) -> Option<u64> {
    if let Some(line) = push_other_output(out, trial, output) {
        return Some(line);
    }
    let differs = push_other_number(
        out,
        "status",
        u64::from(trial.status),
        u64::from(counts.status),
    ) || push_other_number(out, "rows", trial.rows, counts.rows_written)
        || push_other_number(out, "data rows shown", trial.shown, counts.data_rows_shown);
    if differs { Some(trial.line) } else { None }
}

/// Appends the difference of a report from the one that is wanted, if there is one, and gives its line.
pub(crate) fn push_other_report(out: &mut Output, trial: &Trial, came: &str) -> Option<u64> {
    let wanted = trial.report.as_str();
    if wanted == came {
        return None;
    }
    out.push("the report\n  wanted: ");
    out.push(wanted);
    out.push("\n  came:   ");
    out.push(came);
    Some(trial.line)
}

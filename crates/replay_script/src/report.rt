//! What is written after a line that ran something.

use crate::output::Output;

/// What a run came to: its status, and what it added to the keeper's counts.
#[derive(Clone, Copy)]
pub(crate) struct Counts {
    pub(crate) status: u8,
    pub(crate) rows_written: u64,
    pub(crate) data_rows_shown: u64,
}

// Whether all are UTF-8.
fn are_texts(all: &[Vec<u8>]) -> bool {
    for bytes in all {
        if str::from_utf8(bytes.as_slice()).is_err() {
            return false;
        }
    }
    true
}

// Appends bytes as a text if they are one and are to be, or their digits.
fn push_bytes(out: &mut Output, bytes: &[u8], plain: bool) {
    match str::from_utf8(bytes) {
        Ok(text) if plain => out.push_quoted(text),
        _ => {
            out.push("\"");
            out.push_digits(bytes);
            out.push("\"");
        }
    }
}

// Appends the member with what was written to standard output.
fn push_output(out: &mut Output, bytes: &[u8]) {
    let plain = str::from_utf8(bytes).is_ok();
    out.push(if plain {
        ",\"stdout\":"
    } else {
        ",\"stdoutHex\":"
    });
    push_bytes(out, bytes, plain);
}

// Appends the member with what was written to each connection.
fn push_outputs(out: &mut Output, outputs: &[Vec<u8>]) {
    let plain = are_texts(outputs);
    out.push(if plain {
        ",\"outputs\":["
    } else {
        ",\"outputsHex\":["
    });
    for (at, bytes) in outputs.iter().enumerate() {
        if at > 0 {
            out.push(",");
        }
        push_bytes(out, bytes.as_slice(), plain);
    }
    out.push("]");
}

/// Appends the object of a run: the status, what was written to standard output and to each connection, and the counts.
pub(crate) fn push_report(out: &mut Output, counts: Counts, output: &[u8], outputs: &[Vec<u8>]) {
    out.push("{\"status\":");
    out.push_number(u64::from(counts.status));
    push_output(out, output);
    push_outputs(out, outputs);
    out.push(",\"rowsWritten\":");
    out.push_number(counts.rows_written);
    out.push(",\"dataRowsShown\":");
    out.push_number(counts.data_rows_shown);
    out.push("}");
}

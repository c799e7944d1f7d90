//! Rows that were worked by hand: each line of standard input is a call with its arguments, and what it returns is a line of
//! standard output.
//!
//! A line is the name of the call, `|`, and its arguments, with `|` between them. What is between two `~` is bytes in
//! hexadecimal digits. A line that begins with `#` is a comment, and is written back.
#![tactic(auto)]

mod bodies;
mod changes;
mod line;
mod names;
mod people;
mod refusals;
mod retyping;
mod sharing;
mod tables;
mod values;

use crate::line::decoded;
use std::alloc::{AllocError, Global};
use std::io;
use std::process::ExitCode;

// Why the program ends before the end of its input.
#[derive(Debug, Drop)]
enum Stop {
    // Out of memory.
    Memory,
    // A stream failed.
    Stream,
}

impl From<AllocError> for Stop {
    fn from(_error: AllocError) -> Stop {
        Stop::Memory
    }
}

impl From<io::Error> for Stop {
    fn from(_error: io::Error) -> Stop {
        Stop::Stream
    }
}

// What a call on the body of a manual share, of a sharing rule or of the change of a field's type returns.
fn sharing_call(alloc: Global, call: &str, bytes: &[u8]) -> Result<Option<String>, AllocError> {
    match call {
        "share" => sharing::share(alloc, bytes).map(Some),
        "sharing-rule" => sharing::sharing_rule(alloc, bytes).map(Some),
        "retype" => retyping::retype(alloc, bytes).map(Some),
        _ => Ok(None),
    }
}

// What a call on the body of a change returns.
fn change_call(alloc: Global, call: &str, bytes: &[u8]) -> Result<Option<String>, AllocError> {
    match call {
        "object-change" => changes::object(alloc, bytes).map(Some),
        "user-change" => changes::user(alloc, bytes).map(Some),
        "role-change" => changes::role(alloc, bytes).map(Some),
        "group-change" => changes::group(alloc, bytes).map(Some),
        "organisation" => changes::organisation(alloc, bytes).map(Some),
        _ => sharing_call(alloc, call, bytes),
    }
}

// What a call on the body of a new user, a new role or a new group returns.
fn people_call(alloc: Global, call: &str, bytes: &[u8]) -> Result<Option<String>, AllocError> {
    match call {
        "user" => people::user(alloc, bytes).map(Some),
        "role" => people::role(alloc, bytes).map(Some),
        "group" => people::group(alloc, bytes).map(Some),
        _ => change_call(alloc, call, bytes),
    }
}

// What a call on bytes returns.
fn bytes_call(alloc: Global, call: &str, bytes: &[u8]) -> Result<Option<String>, AllocError> {
    match call {
        "csv" => tables::all_records(alloc, bytes).map(Some),
        "csv-first" => tables::first_record(alloc, bytes).map(Some),
        "object" => bodies::object(alloc, bytes).map(Some),
        "field" => bodies::field(alloc, bytes).map(Some),
        "values" => values::values(alloc, bytes).map(Some),
        _ => people_call(alloc, call, bytes),
    }
}

// What a call on texts returns.
fn text_call(alloc: Global, call: &str, text: &str) -> Result<String, AllocError> {
    match call {
        "refusal" => refusals::said(alloc, text),
        "refusal-body" => refusals::body(alloc, text),
        "damaged-body" => refusals::damaged(alloc),
        "csv-memory" => tables::memory(alloc),
        "principal" => sharing::principal(alloc, text),
        "rows" => names::body(alloc, text),
        "made" => names::made(alloc, text),
        "upserted" => names::upserted(alloc, text),
        "state" => retyping::state(alloc, text),
        _ => String::from_str(alloc, "no such call"),
    }
}

// What is written for a line.
fn answer(alloc: Global, line: &str) -> Result<String, AllocError> {
    if line.starts_with('#') {
        return String::from_str(alloc, line);
    }
    let (call, arguments) = line.split_once('|').unwrap_or((line, ""));
    let bytes = decoded(alloc, arguments)?;
    if let Some(found) = bytes_call(alloc, call, bytes.as_slice())? {
        return Ok(found);
    }
    match str::from_utf8(bytes.as_slice()) {
        Ok(text) => text_call(alloc, call, text),
        Err(_) => String::from_str(alloc, "no text"),
    }
}

fn answer_all(rt: &HostRuntime) -> Result<(), Stop> {
    let alloc = rt.alloc();
    for line in rt.lines(alloc) {
        let found = answer(alloc, line?.as_str())?;
        rt.println(found.as_str())?;
    }
    Ok(())
}

fn main(rt: HostRuntime) -> ExitCode {
    match answer_all(&rt) {
        Ok(()) => ExitCode::SUCCESS,
        Err(Stop::Memory) => ExitCode::from(71),
        Err(Stop::Stream) => ExitCode::from(74),
    }
}

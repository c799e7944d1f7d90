//! Rows that were worked by hand: each line of standard input is a call with its arguments, and what it returns is a line of
//! standard output.
//!
//! A line is the name of the call, `|`, and its arguments, with `|` between them. What is between two `~` is bytes in
//! hexadecimal digits. A line that begins with `#` is a comment, and is written back.
#![tactic(auto)]

mod account;
mod conditions;
mod formulas;
mod judged;
mod line;
mod places;
mod queries;
mod words;

use crate::line::decoded;
use std::alloc::{AllocError, Global};
use std::io;
use std::process::ExitCode;

// Why the program ends before the end of its input.
#[derive(Debug, Drop)]
enum Stop {
    // Out of memory.
    Memory,
    // A stream failed.
    Stream,
}

impl From<AllocError> for Stop {
    fn from(_error: AllocError) -> Stop {
        Stop::Memory
    }
}

impl From<io::Error> for Stop {
    fn from(_error: io::Error) -> Stop {
        Stop::Stream
    }
}

// What a call returns.
fn call_on(alloc: Global, call: &str, text: &str) -> Result<String, AllocError> {
    match call {
        "tokens" => words::kinds(alloc, text),
        "pieces" => words::pieces(alloc, text),
        "query" => queries::read(alloc, text),
        "print" => queries::printed(alloc, text),
        "like" => conditions::is_like(alloc, text),
        "validation" => formulas::read(alloc, text, false),
        "criteria" => formulas::read(alloc, text, true),
        "next" => formulas::followers(alloc, text),
        "judge" => judged::judged(alloc, text),
        "names" => judged::positions(alloc, text),
        _ => String::from_str(alloc, "no such call"),
    }
}

// What is written for a line.
fn answer(alloc: Global, line: &str) -> Result<String, AllocError> {
    if line.starts_with('#') {
        return String::from_str(alloc, line);
    }
    let (call, arguments) = line.split_once('|').unwrap_or((line, ""));
    let bytes = decoded(alloc, arguments)?;
    match str::from_utf8(bytes.as_slice()) {
        Ok(text) => call_on(alloc, call, text),
        Err(_) => String::from_str(alloc, "no text"),
    }
}

fn answer_all(rt: &HostRuntime) -> Result<(), Stop> {
    let alloc = rt.alloc();
    for line in rt.lines(alloc) {
        let found = answer(alloc, line?.as_str())?;
        rt.println(found.as_str())?;
    }
    Ok(())
}

fn main(rt: HostRuntime) -> ExitCode {
    match answer_all(&rt) {
        Ok(()) => ExitCode::SUCCESS,
        Err(Stop::Memory) => ExitCode::from(71),
        Err(Stop::Stream) => ExitCode::from(74),
    }
}

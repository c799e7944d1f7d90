//! What the words ask for: case files, or with none a script, the lines of standard input in turn.

use crate::cases::run_cases;
use crate::ending::{end_with, out_of_memory};
use crate::replaying::{End, Replay};
use std::env;
use std::io::ErrorKind;
use std::rt::HostRuntime;

// Says on standard error why this line is the last, and returns the status.
fn end_at(rt: &HostRuntime, number: u64, end: &End) -> u8 {
    let _ = eprintln!(rt; "replay: line {number}: {end}");
    end.status()
}

// Says on standard error why this line couldn't be read, and returns the status.
fn unread(rt: &HostRuntime, number: u64, kind: ErrorKind) -> u8 {
    match kind {
        ErrorKind::InvalidData => {
            let _ = eprintln!(rt; "replay: line {number}: it isn't UTF-8");
            65
        }
        ErrorKind::OutOfMemory => out_of_memory(rt),
        _ => end_with(rt, 74, "standard input failed"),
    }
}

// Writes what a line comes to, if that is anything.
fn write_answer(rt: &HostRuntime, text: &str) -> Result<(), u8> {
    if text.is_empty() {
        return Ok(());
    }
    match println!(rt; "{text}") {
        Ok(()) => Ok(()),
        Err(_) => Err(end_with(rt, 73, "standard output failed")),
    }
}

// Does what one line says, and writes what it comes to.
fn replay_line(rt: &HostRuntime, replay: &mut Replay, number: u64, line: &str) -> Result<(), u8> {
    match replay.line(rt.alloc(), line) {
        Ok(text) => write_answer(rt, text.as_str()),
        Err(end) => Err(end_at(rt, number, &end)),
    }
}

// Does what each line says, until one is the last.
fn replay_lines(rt: &HostRuntime, replay: &mut Replay) -> Result<(), u8> {
    let mut number = 0u64;
    for line in rt.lines(rt.alloc()) {
        number = number.saturating_add(1);
        match line {
            Ok(line) => replay_line(rt, replay, number, line.as_str())?,
            Err(error) => return Err(unread(rt, number, error.kind())),
        }
    }
    Ok(())
}

// Does what the lines of standard input say, over an empty store.
fn replay_all(rt: &HostRuntime) -> Result<(), u8> {
    match Replay::new(rt.alloc()) {
        Ok(mut replay) => replay_lines(rt, &mut replay),
        Err(_) => Err(out_of_memory(rt)),
    }
}

// The words after the program's name.
fn all_words(rt: &HostRuntime) -> Result<Vec<String>, u8> {
    match env::args(rt) {
        Ok(args) => match args.skip(1).collect(rt.alloc()) {
            Ok(words) => Ok(words),
            Err(_) => Err(out_of_memory(rt)),
        },
        Err(error) if error.kind() == ErrorKind::InvalidData => {
            Err(end_with(rt, 64, "a word isn't UTF-8"))
        }
        Err(_) => Err(out_of_memory(rt)),
    }
}

/// Runs the case files that the words name, each over a store of its own, and writes how many cases each has, or the first one that
/// came otherwise. With no word it does what each line of standard input says, over a keeper in memory that lasts until a line begins
/// another, and writes what it gives.
///
/// # Errors
///
/// The status of the process: 1 if a case came otherwise. For each other one a line on standard error has said why not all is done: 64 if
/// a word isn't UTF-8, 65 if a line is refused, 66 if a file can't be read, 71 if out of memory, 72 if the keeper failed at a line of
/// rows, 73 if standard output failed, 74 if standard input did.
pub fn run_script(rt: &HostRuntime) -> Result<(), u8> {
    let words = all_words(rt)?;
    if words.is_empty() {
        replay_all(rt)
    } else {
        run_cases(rt, words.as_slice())
    }
}

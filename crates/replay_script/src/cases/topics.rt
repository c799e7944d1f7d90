//! The case files that the words name, and what is said of each.

use crate::cases::player::Player;
use crate::cases::stop::Stop;
use crate::ending::out_of_memory;
use std::fs;
use std::rt::HostRuntime;

// The topic of a file: its name without folders and its ending.
fn topic_of(path: &str) -> &str {
    let name = match path.rsplit_once('/') {
        Some((_, name)) => name,
        None => path,
    };
    name.strip_suffix(".case").unwrap_or(name)
}

// Writes the first difference of a file.
fn say_difference(rt: &HostRuntime, topic: &str, line: u64, message: &str) -> u8 {
    match println!(rt; "{topic}: line {line}: {message}") {
        Ok(()) => 1,
        Err(_) => 73,
    }
}

// Says on standard error why a line is the last.
fn say_fault(rt: &HostRuntime, topic: &str, line: u64, fault: &str) {
    let _ = eprintln!(rt; "replay: {topic}: line {line}: {fault}");
}

// Says on standard error that a line hasn't this form.
fn say_form(rt: &HostRuntime, topic: &str, line: u64, form: &str) {
    let _ = eprintln!(rt; "replay: {topic}: line {line}: the form is: {form}");
}

// Says why the lines of a file ended early, and returns the status.
fn say_stop(rt: &HostRuntime, topic: &str, player: &Player, stop: Stop) -> u8 {
    let line = player.stopped_at();
    let message = player.message();
    if message.has_failed() {
        return out_of_memory(rt);
    }
    match stop {
        Stop::Differs => say_difference(rt, topic, line, message.as_str()),
        Stop::Json => {
            say_fault(rt, topic, line, message.as_str());
            65
        }
        Stop::Fault(fault) => {
            say_fault(rt, topic, line, fault);
            65
        }
        Stop::Form(form) => {
            say_form(rt, topic, line, form);
            65
        }
        Stop::Keeper => {
            say_fault(rt, topic, line, "the keeper failed");
            72
        }
        Stop::Memory => out_of_memory(rt),
    }
}

// Writes how many cases came as they are wanted.
fn say_cases(rt: &HostRuntime, topic: &str, cases: u64) -> Result<(), u8> {
    match println!(rt; "{topic}: {cases} cases") {
        Ok(()) => Ok(()),
        Err(_) => Err(73),
    }
}

// Runs the cases of a text, and says how that ended.
fn run_text(rt: &HostRuntime, topic: &str, text: &str) -> Result<(), u8> {
    let Ok(mut player) = Player::new(rt.alloc()) else {
        return Err(out_of_memory(rt));
    };
    match player.play(text) {
        Ok(()) => say_cases(rt, topic, player.cases()),
        Err(stop) => Err(say_stop(rt, topic, &player, stop)),
    }
}

// Runs the cases of a file, and says how that ended.
fn run_file(rt: &HostRuntime, path: &str) -> Result<(), u8> {
    match fs::read_to_string(rt, path) {
        Ok(text) => run_text(rt, topic_of(path), text.as_str()),
        Err(_) => {
            let _ = eprintln!(rt; "replay: {path}: it can't be read as a text");
            Err(66)
        }
    }
}

/// Runs the cases of each file, and writes a line for it: how many there are, or the first one that came otherwise.
///
/// # Errors
///
/// The status of the first file whose cases didn't come as they are wanted, or couldn't be run; why has been said.
pub(crate) fn run_cases(rt: &HostRuntime, paths: &[String]) -> Result<(), u8> {
    let mut all = Ok(());
    for path in paths {
        let done = run_file(rt, path.as_str());
        if all.is_ok() {
            all = done;
        }
    }
    all
}

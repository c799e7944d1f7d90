//! What an indented line wants.

use crate::cases::messages::{phrase_of, push_head};
use crate::cases::quoted::{line_bytes, number, raw_bytes};
use crate::cases::stop::{Stop, UNKNOWN};
use crate::cases::trial::Trial;
use crate::output::Output;
use std::alloc::Global;

const REPLY: &str = "STATUS BODY, by one of the statuses that a reply may have";

const STATUS: &str = "status NUMBER, from 0 to 255";

const COUNTS: &str = "rows NUMBER, data rows shown NUMBER; one that is 0 may be left out";

// A reply by its status and body.
fn reply(alloc: Global, trial: &mut Trial, line: u64, status: u16, body: &str) -> Result<(), Stop> {
    let Some(phrase) = phrase_of(status) else {
        return Err(Stop::Form(REPLY));
    };
    trial.check_runs()?;
    let times = trial.answer()?;
    let mut head = Output::new(alloc);
    push_head(&mut head, status, phrase, body.len());
    let head = head.finish()?;
    let back = format!(in alloc; "\r\n{body}")?;
    Ok(trial.add(alloc, line, times, head.as_bytes(), back.as_bytes())?)
}

// A reply by its bytes.
fn reply_bytes(alloc: Global, trial: &mut Trial, line: u64, text: &str) -> Result<(), Stop> {
    let bytes = raw_bytes(alloc, text)?;
    trial.check_runs()?;
    let times = trial.answer()?;
    Ok(trial.add(alloc, line, times, bytes.as_slice(), b"")?)
}

// No reply.
fn no_reply(trial: &mut Trial) -> Result<(), Stop> {
    trial.check_runs()?;
    let _times = trial.answer()?;
    Ok(())
}

// A line more in the head of the reply before.
fn header(trial: &mut Trial, text: &str) -> Result<(), Stop> {
    trial.check_runs()?;
    trial.add_header(text)
}

// Bytes on standard output.
fn output(alloc: Global, trial: &mut Trial, line: u64, text: &str) -> Result<(), Stop> {
    let bytes = raw_bytes(alloc, text)?;
    trial.check_runs()?;
    Ok(trial.add(alloc, line, 1, bytes.as_slice(), b"")?)
}

// A line on standard output.
fn output_line(alloc: Global, trial: &mut Trial, line: u64, text: &str) -> Result<(), Stop> {
    let bytes = line_bytes(alloc, text)?;
    trial.check_runs()?;
    Ok(trial.add(alloc, line, 1, bytes.as_slice(), b"")?)
}

// The status of the process.
fn status(trial: &mut Trial, digits: &str) -> Result<(), Stop> {
    let Ok(status) = digits.parse::<u8>() else {
        return Err(Stop::Form(STATUS));
    };
    trial.check_runs()?;
    trial.status = status;
    Ok(())
}

// How many rows are written, and how many data rows are shown.
fn counts(trial: &mut Trial, text: &str) -> Result<(), Stop> {
    let mut rows = 0u64;
    let mut shown = 0u64;
    for part in text.split(',') {
        let part = part.trim();
        if let Some(digits) = part.strip_prefix("data rows shown ") {
            shown = number(digits, 0, u64::MAX, COUNTS)?;
        } else if let Some(digits) = part.strip_prefix("rows ") {
            rows = number(digits, 0, u64::MAX, COUNTS)?;
        } else {
            return Err(Stop::Form(COUNTS));
        }
    }
    trial.check_runs()?;
    trial.rows = rows;
    trial.shown = shown;
    Ok(())
}

// The report of a line of JSON.
fn report(trial: &mut Trial, text: &str) -> Result<(), Stop> {
    trial.check_runs()?;
    trial.report.clear();
    Ok(trial.report.push_str(text)?)
}

// What a line with this first word wants.
fn want_by_word(
    alloc: Global,
    trial: &mut Trial,
    line: u64,
    word: &str,
    rest: &str,
) -> Result<(), Stop> {
    match word {
        ">" => output_line(alloc, trial, line, rest),
        "output" => output(alloc, trial, line, rest),
        "reply" => reply_bytes(alloc, trial, line, rest),
        "with" => header(trial, rest),
        "status" => status(trial, rest),
        word => match word.parse::<u16>() {
            Ok(status) => reply(alloc, trial, line, status, rest),
            Err(_) => Err(Stop::Fault(UNKNOWN)),
        },
    }
}

/// Takes what an indented line wants, without the blanks before it.
///
/// # Errors
///
/// What is wrong with the line, or out of memory.
pub(crate) fn want(alloc: Global, trial: &mut Trial, line: u64, text: &str) -> Result<(), Stop> {
    if text.starts_with('{') {
        return report(trial, text);
    }
    if text == "no reply" {
        return no_reply(trial);
    }
    let (word, rest) = text.split_once(' ').unwrap_or((text, ""));
    match word {
        "rows" | "data" => counts(trial, text),
        word => want_by_word(alloc, trial, line, word, rest),
    }
}

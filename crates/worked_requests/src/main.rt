//! Requests that were worked by hand, and what they leave in tables: each line of standard input is a call with its arguments,
//! and what it returns is a line of standard output.
//!
//! A line is the name of the call and its arguments, with `|` between them. The calls are made one after the other over one
//! keeper in memory; a line `empty` begins another. A line that begins with `#` is a comment, and is written back.
#![tactic(auto)]

mod administration;
mod layouts;
mod line;
mod records;
mod routes;
mod rows;

use crate::line::first_of;
use std::alloc::{AllocError, Global};
use std::io;
use std::process::ExitCode;
use store_kv::MemoryKeeper;
use store_rows::StoreFail;

// Why the program ends before the end of its input.
#[derive(Debug, Drop)]
enum Stop {
    // Out of memory.
    Memory,
    // A stream failed.
    Stream,
}

impl From<AllocError> for Stop {
    fn from(_error: AllocError) -> Stop {
        Stop::Memory
    }
}

impl From<io::Error> for Stop {
    fn from(_error: io::Error) -> Stop {
        Stop::Stream
    }
}

// What a call over the tables returns.
fn answer(
    alloc: Global,
    keeper: &mut MemoryKeeper,
    call: &str,
    arguments: &str,
) -> Result<String, StoreFail> {
    match call {
        "put" => rows::put(alloc, keeper, arguments),
        "rows" => rows::under(alloc, keeper, arguments),
        "layout-at" => layouts::at(alloc, keeper, arguments),
        "layout-named" => layouts::named(alloc, keeper, arguments),
        "layouts" => layouts::all(alloc, keeper, arguments),
        "load" => records::load(alloc, keeper, arguments),
        "has" => records::has(alloc, keeper, arguments),
        "walk" => records::after(alloc, keeper, arguments),
        "row-of" => records::row(alloc, keeper, arguments),
        "route" => Ok(routes::found(alloc, arguments)?),
        "query-text" => Ok(routes::query(alloc, arguments)?),
        _ => administration::answer(alloc, keeper, call, arguments),
    }
}

// What is written of what a call returned.
fn told(alloc: Global, found: Result<String, StoreFail>) -> Result<String, AllocError> {
    match found {
        Ok(text) => Ok(text),
        Err(StoreFail::Keeper) => String::from_str(alloc, "the keeper failed"),
        Err(StoreFail::Memory) => String::from_str(alloc, "out of memory"),
        Err(StoreFail::Damaged) => String::from_str(alloc, "damaged"),
    }
}

// What is written for a line.
fn written(alloc: Global, keeper: &mut MemoryKeeper, line: &str) -> Result<String, AllocError> {
    if line.starts_with('#') {
        return String::from_str(alloc, line);
    }
    let (call, arguments) = first_of(line);
    let found = answer(alloc, keeper, call, arguments);
    told(alloc, found)
}

fn write_all(rt: &HostRuntime) -> Result<(), Stop> {
    let alloc = rt.alloc();
    let mut keeper = MemoryKeeper::new(alloc, &[])?;
    for line in rt.lines(alloc) {
        let line = line?;
        if line.as_str() == "empty" {
            keeper = MemoryKeeper::new(alloc, &[])?;
            rt.println("empty")?;
        } else {
            let text = written(alloc, &mut keeper, line.as_str())?;
            rt.println(text.as_str())?;
        }
    }
    Ok(())
}

fn main(rt: HostRuntime) -> ExitCode {
    match write_all(&rt) {
        Ok(()) => ExitCode::SUCCESS,
        Err(Stop::Memory) => ExitCode::from(71),
        Err(Stop::Stream) => ExitCode::from(74),
    }
}

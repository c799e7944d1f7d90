//! Sources, sinks, doors and clocks, and how they fail.

use crate::answer::Answer;
use crate::cells::{cell, count};
use base_io::{
    Clock, Door, IoFail, Line, MemoryClock, MemoryDoor, MemorySink, MemorySource, ReadFail, Sink,
    Source, StdSink, StdSource, SystemClock, read_all, write_all,
};
use base_value::Bytes;
use std::alloc::AllocError;
use std::fmt::Debug;
use store_kv::KeepFail;

/// Appends what a step came to.
pub fn push_found<T: Debug>(answer: &mut Answer, found: &T) {
    answer.separate("; ");
    answer.push_value(found);
}

// Appends how many calls failed.
fn push_faults(answer: &mut Answer, faults: u64) {
    answer.push("; ");
    answer.push_value(&faults);
    answer.push(" failed");
}

// Appends how many bytes are read, or how reading them failed.
fn push_read(answer: &mut Answer, found: Result<Bytes, ReadFail>) {
    let count: Result<usize, ReadFail> = match found {
        Ok(bytes) => Ok(bytes.as_slice().len()),
        Err(fail) => Err(fail),
    };
    answer.push_value(&count);
}

fn show_source(answer: &mut Answer, source: &mut MemorySource, limit: usize) {
    let found = read_all(answer.alloc(), source, limit);
    push_read(answer, found);
    answer.push("; ");
    answer.push_value(&source.left().len());
    answer.push(" left");
    push_faults(answer, source.faults());
}

/// A limit, the calls that fail, and what a source has: how many bytes are read from it, how many are left, and how often
/// it failed.
pub fn source(answer: &mut Answer, cells: &[&str]) {
    let failing = answer.numbers_in(cell(cells, 1));
    let bytes = answer.bytes_in(cell(cells, 2));
    match MemorySource::new(answer.alloc(), bytes.as_slice(), failing.as_slice()) {
        Ok(mut source) => show_source(answer, &mut source, count(cells, 0)),
        Err(AllocError) => answer.fail(),
    }
}

fn write_piece(answer: &mut Answer, sink: &mut MemorySink, piece: &str) {
    let result = write_all(sink, piece.as_bytes());
    push_found(answer, &result);
    answer.push(" ");
    answer.push_cell(sink.written());
}

fn write_pieces(answer: &mut Answer, sink: &mut MemorySink, pieces: &[&str]) {
    for piece in pieces {
        write_piece(answer, sink, piece);
    }
    push_faults(answer, sink.faults());
}

/// The room of a sink, the calls that fail, and pieces: what writing each of them returns, all that is written then, and
/// how often it failed.
pub fn sink(answer: &mut Answer, cells: &[&str]) {
    let failing = answer.numbers_in(cell(cells, 1));
    match MemorySink::new(answer.alloc(), count(cells, 0), failing.as_slice()) {
        Ok(mut sink) => write_pieces(answer, &mut sink, cells.get(2..).unwrap_or(&[])),
        Err(AllocError) => answer.fail(),
    }
}

fn door_step<D: Door>(answer: &mut Answer, door: &mut D, into: &mut [u8], step: &str) {
    let (name, piece) = step.split_once(' ').unwrap_or((step, ""));
    match name {
        "open" => push_found(answer, &door.open()),
        "next" => push_found(answer, &door.next()),
        "read" => push_found(answer, &Line::new(door).read(into)),
        _ => push_found(answer, &Line::new(door).write(piece.as_bytes())),
    }
}

/// Does steps of a door, `open`, `next`, `read`, or `write` and a piece, and appends what each returns.
pub fn door_steps<D: Door>(answer: &mut Answer, door: &mut D, into: &mut [u8], steps: &[&str]) {
    for step in steps {
        door_step(answer, door, into, step);
    }
}

fn push_connection(answer: &mut Answer, connections: &mut Vec<Bytes>, input: &str) {
    match Bytes::from_slice(answer.alloc(), input.as_bytes()) {
        Ok(input) => answer.add(connections, input),
        Err(AllocError) => answer.fail(),
    }
}

fn connections_in(answer: &mut Answer, cell: &str) -> Vec<Bytes> {
    let mut connections = Vec::new(answer.alloc());
    for input in cell.split(',') {
        push_connection(answer, &mut connections, input);
    }
    connections
}

// What was read last, each connection's output, and how often the door and its lines failed.
fn push_ends(answer: &mut Answer, door: &MemoryDoor, into: &[u8]) {
    answer.push("; ");
    answer.push_cell(into);
    for output in door.outputs() {
        answer.push("; ");
        answer.push_cell(output.as_slice());
    }
    answer.push("; ");
    answer.push_value(&door.faults());
    answer.push(" and ");
    answer.push_value(&door.line_faults());
    answer.push(" failed");
}

fn show_door(answer: &mut Answer, door: &mut MemoryDoor, steps: &[&str]) {
    let mut into = [0; 9];
    door_steps(answer, door, &mut into, steps);
    push_ends(answer, door, &into);
}

/// The room of each output of a door, the calls that fail, the inputs of the connections, and steps: what each of them
/// returns, then what is in the buffer, the outputs, and how often the door and its lines failed.
pub fn door(answer: &mut Answer, cells: &[&str]) {
    let alloc = answer.alloc();
    let failing = answer.numbers_in(cell(cells, 1));
    let inputs = connections_in(answer, cell(cells, 2));
    match MemoryDoor::new(
        alloc,
        inputs.as_slice(),
        count(cells, 0),
        failing.as_slice(),
    ) {
        Ok(mut door) => show_door(answer, &mut door, cells.get(3..).unwrap_or(&[])),
        Err(AllocError) => answer.fail(),
    }
}

fn ask_clock(answer: &mut Answer, clock: &mut MemoryClock, times: usize) {
    for _ in 0..times {
        push_found(answer, &clock.now());
    }
}

/// `3,5` for a clock with these two moments, or nothing for one with none, and how often it is asked: what it says.
pub fn clock(answer: &mut Answer, cells: &[&str]) {
    let clock = if cell(cells, 0) == "3,5" {
        MemoryClock::new(answer.alloc(), &[3, 5])
    } else {
        MemoryClock::new(answer.alloc(), &[])
    };
    match clock {
        Ok(mut clock) => ask_clock(answer, &mut clock, count(cells, 1)),
        Err(AllocError) => answer.fail(),
    }
}

/// Whether the system's clock says a moment after the year 2020.
///
/// # Errors
///
/// If out of memory.
pub fn system_clock(rt: &HostRuntime, answer: &mut Answer) -> Result<(), AllocError> {
    let mut clock = SystemClock::new(rt.clone()?);
    answer.push_value(&(clock.now() > 1_600_000_000));
    Ok(())
}

fn push_read_cell(answer: &mut Answer, found: Result<Bytes, ReadFail>) {
    match found {
        Ok(found) => answer.push_cell(found.as_slice()),
        Err(fail) => answer.push_value(&fail),
    }
}

/// A text: what is read of it through the adapter of readers, and whether it is written through that of writers.
pub fn adapters(answer: &mut Answer, cells: &[&str]) {
    let bytes = cell(cells, 0).as_bytes();
    let found = read_all(answer.alloc(), &mut StdSource::new(bytes), bytes.len());
    push_read_cell(answer, found);
    let result = write_all(&mut StdSink::new(Vec::new(answer.alloc())), bytes);
    push_found(answer, &result);
}

/// The texts of failures of streams and keepers.
pub fn failures(answer: &mut Answer) {
    answer.push_shown(&IoFail);
    answer.push("; ");
    answer.push_shown(&ReadFail::TooLong);
    answer.push("; ");
    answer.push_shown(&KeepFail::Failed);
    answer.push("; ");
    answer.push_shown(&KeepFail::Memory);
}

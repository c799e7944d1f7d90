//! Worked examples of the low crates. A line of standard input is a call and its arguments, with `|` between two of
//! them; the line is written again, with what the call gives behind `=>`. An empty line, and one that begins with `#`, is
//! written as it is.
#![tactic(auto)]

mod answer;
mod calls;
mod cells;
mod documents;
mod fields;
mod forms;
mod identities;
mod keepers;
mod messages;
mod orders;
mod parts;
mod rows;
mod sockets;
mod streams;
mod values;

use crate::calls::answer;
use std::io;

fn main(rt: HostRuntime) -> io::Result<()> {
    for line in rt.lines(rt.alloc()) {
        write_line(&rt, line?.as_str())?;
    }
    Ok(())
}

fn write_line(rt: &HostRuntime, line: &str) -> io::Result<()> {
    if line.is_empty() || line.starts_with('#') {
        println!(rt; "{line}")?;
    } else {
        let found = answer(rt, line)?;
        println!(rt; "{line} => {found}")?;
    }
    Ok(())
}

//! Which function a line calls.

use crate::answer::Answer;
use crate::documents::{json, written};
use crate::forms::form;
use crate::identities::{made_id, spelled_id};
use crate::keepers::{keeper, key_after, prefix};
use crate::messages::{messages, reply};
use crate::orders::{folding, order_of, rising};
use crate::parts::{field_type, names};
use crate::sockets::tcp;
use crate::streams::{adapters, clock, door, failures, sink, source, system_clock};
use crate::values::{conversion, day, moment, number};
use std::io;

/// What the call of a line gives.
///
/// # Errors
///
/// If out of memory, or if a client of the door over TCP fails.
pub fn answer(rt: &HostRuntime, line: &str) -> io::Result<String> {
    let alloc = rt.alloc();
    let cells: Vec<&str> = line.split('|').collect(alloc)?;
    let mut answer = Answer::new(alloc);
    if let [name, arguments @ ..] = cells.as_slice() {
        call(rt, &mut answer, name, arguments)?;
    }
    Ok(answer.finish()?)
}

fn call(rt: &HostRuntime, answer: &mut Answer, name: &str, arguments: &[&str]) -> io::Result<()> {
    match name {
        "number" => number(answer, arguments),
        "day" => day(answer, arguments),
        "moment" => moment(answer, arguments),
        "convert" => conversion(answer, arguments),
        "id" => spelled_id(answer, arguments),
        "id of" => made_id(answer, arguments),
        "fold" => folding(answer, arguments),
        "order" => order_of(answer, arguments),
        "rising" => rising(answer, arguments),
        "messages" => messages(answer, arguments),
        "reply" => reply(answer, arguments),
        "table" | "row" | "read" => form(answer, name, arguments),
        "names" => names(answer, arguments),
        "type" => field_type(answer, arguments),
        "json" => json(answer, arguments),
        "written" => written(answer, arguments),
        "keeper" => keeper(answer, arguments),
        "key after" => key_after(answer, arguments),
        "prefix" => prefix(answer, arguments),
        "source" => source(answer, arguments),
        "sink" => sink(answer, arguments),
        "door" => door(answer, arguments),
        "tcp" => return tcp(rt, answer),
        "clock" => clock(answer, arguments),
        "system clock" => return Ok(system_clock(rt, answer)?),
        "adapters" => adapters(answer, arguments),
        "failures" => failures(answer),
        _ => answer.push("no such call"),
    }
    Ok(())
}

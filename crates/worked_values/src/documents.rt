//! JSON: what bytes are read as, and what is written.

use crate::answer::Answer;
use base_json::{Json, JsonFail, Mark, Member, Num, Writer, read};
use base_value::Text;
use std::alloc::{AllocError, Global};
use std::str::from_utf8;

fn push_text(answer: &mut Answer, text: &Text) {
    answer.push_cell(text.as_str().as_bytes());
}

// Appends a member's name, and its value if this is a text.
fn push_member(answer: &mut Answer, member: &Member) {
    answer.push(" ");
    push_text(answer, &member.name);
    if let Json::Text(text) = &member.value {
        answer.push("=");
        push_text(answer, text);
    }
}

fn show_members(answer: &mut Answer, members: &[Member]) {
    answer.push("Object");
    for member in members {
        push_member(answer, member);
    }
}

fn show_value(answer: &mut Answer, value: &Json) {
    match value {
        Json::Null => answer.push("Null"),
        Json::Bool(truth) => answer.push_value(truth),
        Json::Number(Num::Exact(count)) => answer.push_value(count),
        Json::Number(Num::Beyond) => answer.push("Beyond"),
        Json::Text(text) => {
            answer.push("Text ");
            push_text(answer, text);
        }
        Json::List(items) => {
            answer.push("List ");
            answer.push_value(&items.len());
        }
        Json::Object(members) => show_members(answer, members.as_slice()),
    }
}

fn show_read(answer: &mut Answer, bytes: &[u8]) {
    match read(answer.alloc(), bytes) {
        Ok(value) => show_value(answer, &value),
        Err(JsonFail::NotJson) => answer.push("Refused"),
        Err(JsonFail::Memory) => answer.fail(),
    }
}

/// Bytes: the value that is read. A number is a count of 10^-8; of a list the count of items is shown, of an object
/// its names, and the values that are texts.
pub fn json(answer: &mut Answer, cells: &[&str]) {
    let bytes = answer.repeated_in(cells);
    show_read(answer, bytes.as_slice());
}

// The mark that a cell names.
fn mark_in(kind: &str) -> Mark {
    match kind {
        "OpenList" => Mark::OpenList,
        "CloseList" => Mark::CloseList,
        "CloseObject" => Mark::CloseObject,
        "Colon" => Mark::Colon,
        _ => Mark::Comma,
    }
}

// Writes a value or a mark, as `Bool true`.
fn write_plain(
    alloc: Global,
    writer: &mut Writer,
    kind: &str,
    rest: &str,
) -> Result<(), AllocError> {
    match kind {
        "Null" => writer.null(alloc),
        "Bool" => writer.truth(alloc, rest == "true"),
        "Number" => writer.number(alloc, rest.parse().unwrap_or(0)),
        "Raw" => writer.raw(alloc, rest),
        _ => writer.mark(alloc, mark_in(kind)),
    }
}

fn write_text(answer: &mut Answer, writer: &mut Writer, cell: &str) {
    let text = answer.bytes_in(cell);
    let result = writer.text(answer.alloc(), from_utf8(text.as_slice()).unwrap_or("?"));
    answer.note(result);
}

// Writes what a cell says, as `Number 5`.
fn write_one(answer: &mut Answer, writer: &mut Writer, cell: &str) {
    let (kind, rest) = cell.split_once(' ').unwrap_or((cell, ""));
    if kind == "Text" {
        write_text(answer, writer, rest);
    } else {
        answer.note(write_plain(answer.alloc(), writer, kind, rest));
    }
}

fn write_each(answer: &mut Answer, writer: &mut Writer, cells: &[&str]) {
    for cell in cells {
        write_one(answer, writer, cell);
    }
}

/// What is written in turn: how many bytes the writer counts, and the bytes.
pub fn written(answer: &mut Answer, cells: &[&str]) {
    let mut writer = Writer::new(answer.alloc());
    write_each(answer, &mut writer, cells);
    answer.push_value(&writer.len());
    answer.push(" ");
    answer.push_cell(writer.finish().as_slice());
}

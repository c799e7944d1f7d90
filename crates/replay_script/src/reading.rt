//! What a line of a script says.

use crate::given::{Given, LAST_MOMENT, MOST_ROOM};
use crate::line::{Asks, Fault, Line, Name};
use crate::list::push;
use crate::parts::{
    byte_list_at, bytes, bytes_at, check_names, found, items, members_of, needed, number,
    numbers_at, text, words_at,
};
use crate::rows::batch_of;
use base_json::{Json, Member};
use std::alloc::Global;
use store_kv::Batch;

const RUN: [Name; 8] = [
    Name::Words,
    Name::Stdin,
    Name::StdinHex,
    Name::Connections,
    Name::ConnectionsHex,
    Name::Moments,
    Name::Room,
    Name::Failing,
];

// The calls that fail.
fn failing<'a>(members: &'a [Member], given: &mut Given) -> Result<(), Fault<'a>> {
    let Some(json) = found(members, Name::Failing.text()) else {
        return Ok(());
    };
    let members = members_of(json, Name::Failing, &[Name::Source, Name::Sink, Name::Door])?;
    numbers_at(members, Name::Source, u64::MAX, &mut given.source_fails)?;
    numbers_at(members, Name::Sink, u64::MAX, &mut given.sink_fails)?;
    numbers_at(members, Name::Door, u64::MAX, &mut given.door_fails)
}

// How many bytes may be written to standard output.
fn room(members: &[Member]) -> Result<usize, Fault<'_>> {
    match found(members, Name::Room.text()) {
        Some(json) => Ok(number(json, Name::Room, MOST_ROOM)? as usize),
        None => Ok(MOST_ROOM as usize),
    }
}

// Words to run.
fn run<'a>(alloc: Global, members: &'a [Member], given: &mut Given) -> Result<(), Fault<'a>> {
    check_names(members, &RUN)?;
    words_at(alloc, members, Name::Words, &mut given.words)?;
    given.stdin = bytes_at(alloc, members, Name::Stdin, Name::StdinHex)?;
    byte_list_at(
        alloc,
        members,
        Name::Connections,
        Name::ConnectionsHex,
        &mut given.connections,
    )?;
    numbers_at(members, Name::Moments, LAST_MOMENT, &mut given.moments)?;
    given.room = room(members)?;
    failing(members, given)
}

// A row.
fn row(alloc: Global, json: &Json) -> Result<Batch, Fault<'_>> {
    let members = members_of(json, Name::Rows, &[Name::Table, Name::Key, Name::Row])?;
    let table = number(needed(members, Name::Table)?, Name::Table, 255)? as u8;
    let key = bytes(alloc, needed(members, Name::Key)?, Name::Key)?;
    let row = match needed(members, Name::Row)? {
        Json::Null => None,
        json => Some(bytes(alloc, json, Name::Row)?),
    };
    Ok(batch_of(alloc, table, key, row)?)
}

// Rows.
fn rows<'a>(alloc: Global, members: &'a [Member], rows: &mut Vec<Batch>) -> Result<(), Fault<'a>> {
    check_names(members, &[Name::Rows])?;
    for item in items(needed(members, Name::Rows)?, Name::Rows)? {
        push(rows, row(alloc, item)?)?;
    }
    Ok(())
}

// The calls of another store's keeper that fail.
fn keeper<'a>(members: &'a [Member], failing: &mut Vec<u64>) -> Result<(), Fault<'a>> {
    check_names(members, &[Name::Failing])?;
    let json = needed(members, Name::Failing)?;
    let members = members_of(json, Name::Failing, &[Name::Keeper])?;
    numbers_at(members, Name::Keeper, u64::MAX, failing)
}

// Checks that the member is a text.
fn note(members: &[Member]) -> Result<(), Fault<'_>> {
    check_names(members, &[Name::Note])?;
    let _text = text(needed(members, Name::Note)?, Name::Note)?;
    Ok(())
}

// Checks that the member is true.
fn dump(members: &[Member]) -> Result<(), Fault<'_>> {
    check_names(members, &[Name::Dump])?;
    match needed(members, Name::Dump)? {
        Json::Bool(true) => Ok(()),
        _ => Err(Fault::Wrong(Name::Dump)),
    }
}

// What a line asks, by the member that is there: `words`, `rows`, `failing` or `dump`.
fn asks(members: &[Member]) -> Asks {
    if found(members, Name::Words.text()).is_some() {
        Asks::Run
    } else if found(members, Name::Rows.text()).is_some() {
        Asks::Rows
    } else if found(members, Name::Failing.text()).is_some() {
        Asks::Store
    } else if found(members, Name::Dump.text()).is_some() {
        Asks::Dump
    } else {
        Asks::Nothing
    }
}

/// Reads what a line says, by the member that is there: `words` something to run, `rows` rows, `failing` another store with the
/// failing calls of its keeper, `dump` that all rows are to be written, and `note` a comment.
///
/// # Errors
///
/// The line's first fault, or out of memory.
pub(crate) fn read_line<'a>(
    alloc: Global,
    json: &'a Json,
    line: &mut Line,
) -> Result<(), Fault<'a>> {
    let Json::Object(members) = json else {
        return Err(Fault::NotObject);
    };
    let members = members.as_slice();
    line.asks = asks(members);
    match line.asks {
        Asks::Run => run(alloc, members, &mut line.given),
        Asks::Rows => rows(alloc, members, &mut line.rows),
        Asks::Store => keeper(members, &mut line.failing),
        Asks::Dump => dump(members),
        Asks::Nothing => note(members),
    }
}

//! A keeper in memory, and drafts over it.

use crate::answer::Answer;
use crate::cells::{cell, word};
use base_value::Bytes;
use std::alloc::AllocError;
use store_kv::{Draft, KeepFail, Keeper, KeptRow, MemoryKeeper, all_rows, next_key, prefix_ends};

fn push_row(answer: &mut Answer, row: &KeptRow) {
    answer.push_cell(row.key.as_slice());
    answer.push("=");
    answer.push_cell(row.row.as_slice());
}

// Appends each row behind a space, but the first.
fn push_rows(answer: &mut Answer, rows: &[KeptRow]) {
    let mut is_first = true;
    for row in rows {
        if !is_first {
            answer.push(" ");
        }
        push_row(answer, row);
        is_first = false;
    }
}

// Rows as `key=row`, or `none`, or how reading them failed.
fn show_rows(answer: &mut Answer, rows: Result<Vec<KeptRow>, KeepFail>) {
    match rows {
        Ok(rows) if rows.is_empty() => answer.push("none"),
        Ok(rows) => push_rows(answer, rows.as_slice()),
        Err(fail) => answer.push_value(&fail),
    }
}

// A row, or `none`, or how reading it failed.
fn show_row(answer: &mut Answer, row: Result<Option<Bytes>, KeepFail>) {
    match row {
        Ok(Some(row)) => answer.push_cell(row.as_slice()),
        Ok(None) => answer.push("none"),
        Err(fail) => answer.push_value(&fail),
    }
}

// How a change failed, if it did.
fn show_failure(answer: &mut Answer, done: Result<(), KeepFail>) {
    if let Err(fail) = done {
        answer.separate("; ");
        answer.push_value(&fail);
    }
}

fn table_in(step: &str) -> u8 {
    word(step, 1).parse().unwrap_or(0)
}

fn put(answer: &mut Answer, draft: &mut Draft<'_, MemoryKeeper>, step: &str) {
    let key = Bytes::from_vec(answer.bytes_in(word(step, 2)));
    let row = Bytes::from_vec(answer.bytes_in(word(step, 3)));
    let result = draft.put(answer.alloc(), table_in(step), key, row);
    answer.note(result);
}

fn remove(answer: &mut Answer, draft: &mut Draft<'_, MemoryKeeper>, step: &str) {
    let key = Bytes::from_vec(answer.bytes_in(word(step, 2)));
    let result = draft.remove(answer.alloc(), table_in(step), key);
    answer.note(result);
}

fn get(answer: &mut Answer, draft: &mut Draft<'_, MemoryKeeper>, step: &str) {
    let key = answer.bytes_in(word(step, 2));
    let row = draft.get(answer.alloc(), table_in(step), key.as_slice());
    show_row(answer, row);
}

fn scan(answer: &mut Answer, draft: &mut Draft<'_, MemoryKeeper>, step: &str) {
    let from = answer.bytes_in(word(step, 2));
    let below = answer.bytes_in(word(step, 3));
    let limit = word(step, 4).parse().unwrap_or(0);
    let rows = draft.scan(
        answer.alloc(),
        table_in(step),
        from.as_slice(),
        below.as_slice(),
        limit,
    );
    show_rows(answer, rows);
}

fn walk(answer: &mut Answer, draft: &mut Draft<'_, MemoryKeeper>, step: &str) {
    let from = answer.bytes_in(word(step, 2));
    let below = answer.bytes_in(word(step, 3));
    let page: usize = word(step, 4).parse().unwrap_or(1);
    let rows = all_rows(
        answer.alloc(),
        draft,
        table_in(step),
        from.as_slice(),
        below.as_slice(),
        page.max(1),
    );
    show_rows(answer, rows);
}

// A step that reads, whose result is shown.
fn read_step(answer: &mut Answer, draft: &mut Draft<'_, MemoryKeeper>, step: &str) {
    answer.separate("; ");
    match word(step, 0) {
        "get" => get(answer, draft, step),
        "scan" => scan(answer, draft, step),
        "walk" => walk(answer, draft, step),
        "len" => answer.push_value(&draft.len()),
        _ => answer.push("no such step"),
    }
}

fn do_step(answer: &mut Answer, draft: &mut Draft<'_, MemoryKeeper>, step: &str) {
    match word(step, 0) {
        "put" => put(answer, draft, step),
        "remove" => remove(answer, draft, step),
        _ => read_step(answer, draft, step),
    }
}

fn do_steps(answer: &mut Answer, draft: &mut Draft<'_, MemoryKeeper>, steps: &str) {
    for step in steps.split(", ") {
        do_step(answer, draft, step);
    }
}

// The steps of one draft, which may end by `commit`.
fn do_draft(answer: &mut Answer, keeper: &mut MemoryKeeper, steps: &str) {
    let mut draft = Draft::new(answer.alloc(), keeper);
    match steps.split_once(", commit") {
        Some((steps, _)) => {
            do_steps(answer, &mut draft, steps);
            let result = draft.commit(answer.alloc());
            show_failure(answer, result);
        }
        None => do_steps(answer, &mut draft, steps),
    }
}

fn open(answer: &mut Answer, keeper: &mut MemoryKeeper) {
    let result = keeper.open(answer.alloc());
    show_failure(answer, result);
}

fn show_counts(answer: &mut Answer, keeper: &MemoryKeeper) {
    answer.push_value(&keeper.shown(7));
    answer.push(" and ");
    answer.push_value(&keeper.shown(8));
}

// What is asked of a keeper in memory itself.
fn ask(answer: &mut Answer, keeper: &mut MemoryKeeper, call: &str) {
    match call {
        "open" => open(answer, keeper),
        "shown" => show_counts(answer, keeper),
        "written" => answer.push_value(&keeper.written()),
        "faults" => answer.push_value(&keeper.faults()),
        steps => do_draft(answer, keeper, steps),
    }
}

// Appends what a call finds, or `done`.
fn show_call(answer: &mut Answer, keeper: &mut MemoryKeeper, call: &str) {
    let mut found = Answer::new(answer.alloc());
    ask(&mut found, keeper, call);
    answer.separate(" | ");
    answer.push_other(&found, "done");
}

fn show_calls(answer: &mut Answer, keeper: &mut MemoryKeeper, calls: &[&str]) {
    for call in calls {
        show_call(answer, keeper, call);
    }
}

/// The numbers of the calls at which a keeper in memory fails, and what is done with it in turn: `open`, a count of it, or
/// the steps of a draft, with `, ` between two of them. What each finds, or `done`, and how it fails.
pub fn keeper(answer: &mut Answer, cells: &[&str]) {
    let failing = answer.numbers_in(cell(cells, 0));
    match MemoryKeeper::new(answer.alloc(), failing.as_slice()) {
        Ok(mut keeper) => show_calls(answer, &mut keeper, cells.get(1..).unwrap_or(&[])),
        Err(AllocError) => answer.fail(),
    }
}

/// A key: the next one.
pub fn key_after(answer: &mut Answer, cells: &[&str]) {
    let key = answer.bytes_in(cell(cells, 0));
    let next = next_key(answer.alloc(), key.as_slice());
    answer.push_bytes(next);
}

/// A prefix: it, and the first key above all that begin with it, or `none`.
pub fn prefix(answer: &mut Answer, cells: &[&str]) {
    let prefix = answer.bytes_in(cell(cells, 0));
    match prefix_ends(answer.alloc(), prefix.as_slice()) {
        Ok(Some((from, below))) => {
            answer.push_cell(from.as_slice());
            answer.push(" to ");
            answer.push_cell(below.as_slice());
        }
        Ok(None) => answer.push("none"),
        Err(AllocError) => answer.fail(),
    }
}

//! What texts spell as ids, and ids of numbers.

use crate::answer::Answer;
use crate::cells::cell;
use base_value::Id;
use std::str::from_utf8;

// Appends the form of 18 characters.
fn push_id(answer: &mut Answer, id: &Id) {
    answer.push(from_utf8(&id.print18()).unwrap_or("?"));
}

/// A text: the id that it spells in 18 characters, and its number as one of an organisation.
pub fn spelled_id(answer: &mut Answer, cells: &[&str]) {
    match Id::read(cell(cells, 0)) {
        Ok(id) => {
            push_id(answer, &id);
            answer.push(" ");
            answer.push_value(&id.number(*b"00D"));
        }
        Err(why) => answer.push_value(&why),
    }
}

/// A number: the id of it with the prefix `a00`, in 18 characters.
pub fn made_id(answer: &mut Answer, cells: &[&str]) {
    let number: u64 = cell(cells, 0).parse().unwrap_or(u64::MAX);
    if number >= 1_000_000_000_000_000 {
        answer.push("too large");
    } else {
        push_id(answer, &Id::new(*b"a00", number));
    }
}

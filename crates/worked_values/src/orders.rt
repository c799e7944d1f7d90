//! How values are ordered, by `order` and by their keys, and how texts are folded.

use crate::answer::Answer;
use crate::cells::cell;
use base_value::{Bytes, Text, Value, id_in, order, order_key};
use std::cmp::Ordering;
use std::str::from_utf8;

fn text_in(answer: &mut Answer, text: &str) -> Value {
    match Text::from_str(answer.alloc(), text) {
        Ok(text) => Value::Text(text),
        Err(_) => {
            answer.fail();
            Value::Null
        }
    }
}

fn ref_in(text: &str) -> Value {
    match id_in(text) {
        Some(id) => Value::Ref(id),
        None => Value::Null,
    }
}

// The value that a kind and a text name, as `Day 0`.
fn value_in(answer: &mut Answer, cell: &str) -> Value {
    let (kind, rest) = cell.split_once(' ').unwrap_or((cell, ""));
    match kind {
        "Text" => text_in(answer, rest),
        "Num" => Value::Num(rest.parse().unwrap_or(0)),
        "Day" => Value::Day(rest.parse().unwrap_or(0)),
        "Moment" => Value::Moment(rest.parse().unwrap_or(0)),
        "Ref" => ref_in(rest),
        "Bool" => Value::Bool(rest == "true"),
        _ => Value::Null,
    }
}

fn sign_of(ordering: Ordering) -> &'static str {
    match ordering {
        Ordering::Less => "<",
        Ordering::Equal => "=",
        Ordering::Greater => ">",
    }
}

// The key of a value, which is empty if memory ran out.
fn key_of(answer: &mut Answer, value: &Value) -> Bytes {
    match order_key(answer.alloc(), value) {
        Ok(key) => key,
        Err(_) => {
            answer.fail();
            Bytes::from_vec(Vec::new(answer.alloc()))
        }
    }
}

// Appends the order of two values, if it is that of their keys.
fn push_order(answer: &mut Answer, one: &Value, other: &Value) {
    let ordering = order(one, other);
    let key = key_of(answer, one);
    let other_key = key_of(answer, other);
    if key.as_slice().cmp(other_key.as_slice()) == ordering {
        answer.push(sign_of(ordering));
    } else {
        answer.push("their keys differ");
    }
}

/// Two values: their order, which is that of their keys.
pub fn order_of(answer: &mut Answer, cells: &[&str]) {
    let one = value_in(answer, cell(cells, 0));
    let other = value_in(answer, cell(cells, 1));
    push_order(answer, &one, &other);
}

fn push_values(answer: &mut Answer, values: &mut Vec<Value>, cells: &[&str]) {
    for cell in cells {
        let value = value_in(answer, cell);
        answer.add(values, value);
    }
}

fn push_orders(answer: &mut Answer, one: &Value, others: &[Value]) {
    answer.separate(" ");
    for other in others {
        push_order(answer, one, other);
    }
}

fn push_all_orders(answer: &mut Answer, values: &[Value]) {
    for one in values {
        push_orders(answer, one, values);
    }
}

/// Values: the order of each to each of them.
pub fn rising(answer: &mut Answer, cells: &[&str]) {
    let mut values = Vec::new(answer.alloc());
    push_values(answer, &mut values, cells);
    push_all_orders(answer, values.as_slice());
}

// Appends the kind's place in a key, and the text behind it.
fn push_key(answer: &mut Answer, key: &[u8]) {
    match key.split_first() {
        Some((kind, rest)) => {
            answer.push_value(kind);
            answer.push(" ");
            answer.push(from_utf8(rest).unwrap_or("?"));
        }
        None => answer.push("no key"),
    }
}

/// Two texts, of which the second is the first one folded: their order, the kind's place in the key of the first, and the
/// text behind it.
pub fn folding(answer: &mut Answer, cells: &[&str]) {
    let text = text_in(answer, cell(cells, 0));
    let folded = text_in(answer, cell(cells, 1));
    answer.push(sign_of(order(&text, &folded)));
    answer.push(" ");
    let key = key_of(answer, &text);
    push_key(answer, key.as_slice());
}

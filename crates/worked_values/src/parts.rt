//! The parts that choose among forms or names: each type of a field, and each name of one byte.

use crate::answer::Answer;
use crate::cells::cell;
use base_value::{FieldType, Level, OnDelete, Outcome, Phase, RuleState};
use std::fmt::Debug;
use store_codec::whole_of;
use store_rows::{CodecFail, FieldFlags, ObjectAccess, Part};

// Appends a byte and the part that it is read as, if it is.
fn push_part<P: Part + Debug + Drop>(answer: &mut Answer, byte: u8) {
    match whole_of::<P>(answer.alloc(), &[byte]) {
        Ok(part) => {
            answer.push_value(&byte);
            answer.push(" ");
            answer.push_value(&part);
            answer.push(", ");
        }
        Err(CodecFail::Damaged) => {}
        Err(CodecFail::Memory) => answer.fail(),
    }
}

// Each byte that is read as a part, and the part.
fn push_parts<P: Part + Debug + Drop>(answer: &mut Answer) {
    for byte in 0..=255u8 {
        push_part::<P>(answer, byte);
    }
    answer.push("and no other byte");
}

/// A part of one byte: all bytes that are read, and as what.
pub fn names(answer: &mut Answer, cells: &[&str]) {
    match cell(cells, 0) {
        "access" => push_parts::<ObjectAccess>(answer),
        "level" => push_parts::<Level>(answer),
        "on delete" => push_parts::<OnDelete>(answer),
        "truth" => push_parts::<bool>(answer),
        "phase" => push_parts::<Phase>(answer),
        "outcome" => push_parts::<Outcome>(answer),
        "rule state" => push_parts::<RuleState>(answer),
        "flags" => push_parts::<FieldFlags>(answer),
        _ => answer.push("no such part"),
    }
}

/// Bytes that begin with the type of a field: the type, and how many bytes follow it.
pub fn field_type(answer: &mut Answer, cells: &[&str]) {
    let bytes = answer.bytes_in(cell(cells, 0));
    match FieldType::take(answer.alloc(), bytes.as_slice()) {
        Ok((kind, rest)) => {
            answer.kind("type", &kind);
            answer.bytes("then", rest);
        }
        Err(fail) => answer.push_value(&fail),
    }
}

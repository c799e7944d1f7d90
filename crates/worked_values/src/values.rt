//! What texts read as, how a value is printed, and what it is in another type.

use crate::answer::Answer;
use crate::cells::cell;
use base_value::{
    FieldType, Items, OnDelete, Text, Value, check_value, convert, convertible, is_type,
    print_value, read_value, value_laws,
};

// The number of a day, a moment or a number.
fn count_of(value: &Value) -> i128 {
    match value {
        Value::Day(day) => i128::from(*day),
        Value::Moment(second) => i128::from(*second),
        Value::Num(count) => *count,
        _ => 0,
    }
}

// The number of the value that a text reads as, and the text that it is printed as; or the name of the refusal.
fn show_read(answer: &mut Answer, kind: &FieldType, text: &str) {
    // What is read has a text.
    value_laws();
    if !is_type(kind) {
        return answer.push("no type");
    }
    match read_value(answer.alloc(), kind, text) {
        Ok(value) => {
            answer.push_value(&count_of(&value));
            answer.push(" ");
            let printed = print_value(answer.alloc(), &value);
            answer.push_text(printed);
        }
        Err(why) => answer.push_value(&why),
    }
}

/// The digits and decimals of a type of numbers, and a text: the count of 10^-8, and the printed number.
pub fn number(answer: &mut Answer, cells: &[&str]) {
    let kind = FieldType::Number {
        digits: cell(cells, 0).parse().unwrap_or(0),
        decimals: cell(cells, 1).parse().unwrap_or(0),
    };
    show_read(answer, &kind, cell(cells, 2));
}

/// A text: the days since 1970-01-01, and the printed day.
pub fn day(answer: &mut Answer, cells: &[&str]) {
    show_read(answer, &FieldType::Day, cell(cells, 0));
}

/// A text: the seconds since 1970, and the printed moment.
pub fn moment(answer: &mut Answer, cells: &[&str]) {
    show_read(answer, &FieldType::Moment, cell(cells, 0));
}

fn push_choice(answer: &mut Answer, texts: &mut Items<Text>, choice: &str) {
    match Text::from_str(answer.alloc(), choice) {
        Ok(text) => answer.note(texts.push(text)),
        Err(_) => answer.fail(),
    }
}

fn choices(answer: &mut Answer) -> FieldType {
    let mut texts = Items::new(answer.alloc());
    push_choice(answer, &mut texts, "true");
    push_choice(answer, &mut texts, "12.5");
    push_choice(answer, &mut texts, "2011-04-26");
    push_choice(answer, &mut texts, "2011-04-26T00:00:00.000+0000");
    FieldType::Picklist(texts)
}

fn kind_named(answer: &mut Answer, name: &str) -> FieldType {
    match name {
        "Text" => FieldType::Text(30),
        "Number" => FieldType::Number {
            digits: 6,
            decimals: 2,
        },
        "Checkbox" => FieldType::Checkbox,
        "Day" => FieldType::Day,
        "Moment" => FieldType::Moment,
        "Picklist" => choices(answer),
        "Lookup" => FieldType::Lookup {
            object: 1,
            on_delete: OnDelete::Clear,
        },
        _ => FieldType::Master { object: 1 },
    }
}

// The printed text of a value of one type in another, or why it has none there.
fn show_converted(answer: &mut Answer, from: &FieldType, to: &FieldType, text: &str) {
    // What is read is valid, and what is converted has a text.
    value_laws();
    if !is_type(from) || !is_type(to) {
        return answer.push("no type");
    }
    if !convertible(from, to) {
        return answer.push("-");
    }
    let old = match read_value(answer.alloc(), from, text) {
        Ok(old) => old,
        Err(why) => return answer.push_value(&why),
    };
    if check_value(from, &old).is_err() {
        return answer.push("not valid");
    }
    match convert(answer.alloc(), from, to, &old) {
        Ok(new) => {
            let printed = print_value(answer.alloc(), &new);
            answer.push_text(printed);
        }
        Err(why) => answer.push_value(&why),
    }
}

/// Two types and the text of a value of the first: its text in the second; `-` if the types don't convert.
pub fn conversion(answer: &mut Answer, cells: &[&str]) {
    let from = kind_named(answer, cell(cells, 0));
    let to = kind_named(answer, cell(cells, 1));
    show_converted(answer, &from, &to, cell(cells, 2));
}

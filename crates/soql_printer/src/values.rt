//! The texts of paths, literals and patterns.

ghost use Rattle.std.specs.Prelude.{◌≡◌, ◌++◌, ◌||◌, OnOk};
ghost use Rattle.std.specs.List.{flat_map};
ghost use Rattle.soql_printer.specs.Printing as spec;
ghost use Rattle.base_value.specs.Dates.{is_day, is_moment};
ghost use Rattle.base_value.specs.declared.value.Value.TheVariants as value;

use crate::printed::{Printed, join};
use crate::writer::Writer;
use base_value::{Text, Value, print_value};
use soql::{LikePart, LikePattern, Literal, Op, Path};
use std::alloc::{AllocError, Global};

impl Printed for Path {
    ghost printed = { spec.printed_path };

    fn print(&self, alloc: Global, out: &mut Writer) -> Result<(), AllocError> {
        join(alloc, out, ".", self.names.as_slice())
    }
}

// ---- texts

// A character, behind a backslash if that is needed.
fn escaped_if(out: &mut Writer, needed: bool, c: char) -> Result<(), AllocError>
    ensures { OnOk result (out.new ≡ out.old ++ spec.escaped_if needed c) }
{
    if needed {
        out.character('\\')?;
    }
    out.character(c)
}

fn is_special(c: char) -> bool
    ensures { result ≡ spec.is_special c }
{
    c == '\'' || c == '\\'
}

fn is_wildcard(c: char) -> bool
    ensures { result ≡ spec.is_wildcard c }
{
    c == '%' || c == '_'
}

#[tactic(auto, unfolding(crate::specs::Printing::printed_character))]
fn character(out: &mut Writer, c: char) -> Result<(), AllocError>
    ensures { OnOk result (out.new ≡ out.old ++ spec.printed_character c) }
{
    escaped_if(out, is_special(c), c)
}

fn characters(out: &mut Writer, text: &Text) -> Result<(), AllocError>
    ensures { OnOk result (out.new ≡ out.old ++ flat_map spec.printed_character text.now) }
{
    'characters: for c in text.as_str().chars() {
        character(out, c)?;
    }
    Ok(())
}

fn quoted_text(out: &mut Writer, text: &Text) -> Result<(), AllocError>
    ensures { OnOk result (out.new ≡ out.old ++ spec.quoted (flat_map spec.printed_character text.now)) }
{
    out.word("'")?;
    characters(out, text)?;
    out.word("'")
}

// ---- patterns

#[tactic(auto, unfolding(crate::specs::Printing::printed_part))]
fn part(out: &mut Writer, part: LikePart) -> Result<(), AllocError>
    ensures { OnOk result (out.new ≡ out.old ++ spec.printed_part part) }
{
    match part {
        LikePart::One => out.word("_"),
        LikePart::Many => out.word("%"),
        LikePart::Exact(c) => escaped_if(out, is_special(c) || is_wildcard(c), c),
    }
}

fn parts(out: &mut Writer, parts: &[LikePart]) -> Result<(), AllocError>
    ensures { OnOk result (out.new ≡ out.old ++ flat_map spec.printed_part parts.now) }
{
    let mut rest = parts;
    'parts: while let Some((next, behind)) = rest.split_first() {
        part(out, *next)?;
        rest = behind;
    }
    Ok(())
}

/// A pattern between quotes.
pub fn quoted_pattern(out: &mut Writer, pattern: &LikePattern) -> Result<(), AllocError>
    ensures { OnOk result (out.new ≡ out.old ++ spec.quoted (flat_map spec.printed_part pattern.now.parts)) }
{
    out.word("'")?;
    parts(out, pattern.parts.as_slice())?;
    out.word("'")
}

// ---- literals

fn is_day(day: i32) -> bool
    ensures { result ≡ is_day day }
{
    -719_162 <= day && day <= 2_932_896
}

fn is_moment(second: i64) -> bool
    ensures { result ≡ is_moment second }
{
    -62_135_596_800 <= second && second <= 253_402_300_799
}

fn number(alloc: Global, out: &mut Writer, count: i128) -> Result<(), AllocError>
    ensures { OnOk result (out.new ≡ out.old ++ spec.printed_value (value.Num count)) }
{
    let text = print_value(alloc, &Value::Num(count))?;
    out.text(&text)
}

fn day(alloc: Global, out: &mut Writer, day: i32) -> Result<(), AllocError>
    ensures { OnOk result (out.new ≡ out.old ++ spec.printed_value (value.Day day)) }
{
    if !is_day(day) {
        return Ok(());
    }
    let text = print_value(alloc, &Value::Day(day))?;
    out.text(&text)
}

fn moment(alloc: Global, out: &mut Writer, second: i64) -> Result<(), AllocError>
    ensures { OnOk result (out.new ≡ out.old ++ spec.printed_value (value.Moment second)) }
{
    if !is_moment(second) {
        return Ok(());
    }
    let text = print_value(alloc, &Value::Moment(second))?;
    out.text(&text)
}

impl Printed for Literal {
    ghost printed = { spec.printed_literal };

    fn print(&self, alloc: Global, out: &mut Writer) -> Result<(), AllocError> {
        match self {
            Literal::Null => out.word("NULL"),
            Literal::Text(text) => quoted_text(out, text),
            Literal::Num(count) => number(alloc, out, *count),
            Literal::Bool(true) => out.word("TRUE"),
            Literal::Bool(false) => out.word("FALSE"),
            Literal::Day(number) => day(alloc, out, *number),
            Literal::Moment(second) => moment(alloc, out, *second),
            Literal::Today => out.word("TODAY"),
            Literal::Yesterday => out.word("YESTERDAY"),
            Literal::Tomorrow => out.word("TOMORROW"),
        }
    }
}

/// An operator.
pub fn operator(out: &mut Writer, op: Op) -> Result<(), AllocError>
    ensures { OnOk result (out.new ≡ out.old ++ spec.printed_op op) }
{
    match op {
        Op::Equal => out.word("="),
        Op::NotEqual => out.word("!="),
        Op::Less => out.word("<"),
        Op::LessEqual => out.word("<="),
        Op::Greater => out.word(">"),
        Op::GreaterEqual => out.word(">="),
    }
}

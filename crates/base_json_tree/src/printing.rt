//! The printer.

ghost use Rattle.std.specs.Prelude.{◌≡◌, [], ◌∷◌, ◌++◌, IfOk, encode_utf8_all, map};
ghost use Rattle.std.specs.Str.{chars};
ghost use Rattle.base_json.specs.Printing.{mark_of, printed_text};
ghost use Rattle.base_json.specs.Whole.{joined, printed, printed_member, printed_num};
ghost use Rattle.base_json_tree.specs.Words.{body};
ghost use Rattle.base_json_tree.specs.inner.Printed.{Wrote, comma_at, in_list, in_object};

use base_json::{Json, Mark, Member, Num, Writer};
use base_value::Bytes;
use std::alloc::{AllocError, Global};

// So many lists and objects may be open at once.
const DEPTH: usize = 32;

// One of the characters between values.
fn write_mark(alloc: Global, writer: &mut Writer, mark: Mark) -> Result<(), AllocError>
    ensures { Wrote result writer.old writer.new (mark_of mark ∷ []) }
{
    writer.mark(alloc, mark)
}

// A number, and nothing for one beyond all that is exact.
fn write_number(alloc: Global, writer: &mut Writer, number: Num) -> Result<(), AllocError>
    ensures { Wrote result writer.old writer.new (printed_num number) }
{
    match number {
        Num::Exact(count) => writer.number(alloc, count),
        Num::Beyond => Ok(()),
    }
}

// The name of a member, and the colon behind it.
fn write_name(alloc: Global, writer: &mut Writer, name: &str) -> Result<(), AllocError>
    ensures { Wrote result writer.old writer.new (printed_text (chars name.now) ++ 58 ∷ []) }
{
    writer.text(alloc, name)?;
    write_mark(alloc, writer, Mark::Colon)
}

// The comma before all but the first.
fn write_comma(alloc: Global, writer: &mut Writer, place: usize) -> Result<(), AllocError>
    ensures { Wrote result writer.old writer.new (comma_at place) }
{
    if place == 0 {
        return Ok(());
    }
    write_mark(alloc, writer, Mark::Comma)
}

// The values of a list, with commas between them.
#[cycle(values)]
fn write_items(
    alloc: Global,
    writer: &mut Writer,
    levels: usize,
    items: &[Json],
) -> Result<(), AllocError>
    ensures { Wrote result writer.old writer.new (joined (map (printed levels) items.now)) }
{
    for (place, item) in items.iter().enumerate() {
        write_comma(alloc, writer, place)?;
        write_value(alloc, writer, levels, item)?;
    }
    Ok(())
}

// A list in its brackets.
#[cycle(values)]
fn write_list(
    alloc: Global,
    writer: &mut Writer,
    levels: usize,
    items: &[Json],
) -> Result<(), AllocError>
    ensures { Wrote result writer.old writer.new (in_list levels items.now) }
{
    write_mark(alloc, writer, Mark::OpenList)?;
    if levels > 0 {
        write_items(alloc, writer, levels - 1, items)?;
    }
    write_mark(alloc, writer, Mark::CloseList)
}

// A member: its name, and its value behind a colon.
#[cycle(values)]
fn write_member(
    alloc: Global,
    writer: &mut Writer,
    levels: usize,
    member: &Member,
) -> Result<(), AllocError>
    ensures { Wrote result writer.old writer.new (printed_member (printed levels) member.now) }
{
    write_name(alloc, writer, member.name.as_str())?;
    write_value(alloc, writer, levels, &member.value)
}

// The members of an object, with commas between them.
#[cycle(values)]
fn write_members(
    alloc: Global,
    writer: &mut Writer,
    levels: usize,
    members: &[Member],
) -> Result<(), AllocError>
    ensures { Wrote result writer.old writer.new (joined (map (printed_member (printed levels)) members.now)) }
{
    for (place, member) in members.iter().enumerate() {
        write_comma(alloc, writer, place)?;
        write_member(alloc, writer, levels, member)?;
    }
    Ok(())
}

// An object in its braces.
#[cycle(values)]
fn write_object(
    alloc: Global,
    writer: &mut Writer,
    levels: usize,
    members: &[Member],
) -> Result<(), AllocError>
    ensures { Wrote result writer.old writer.new (in_object levels members.now) }
{
    write_mark(alloc, writer, Mark::OpenObject)?;
    if levels > 0 {
        write_members(alloc, writer, levels - 1, members)?;
    }
    write_mark(alloc, writer, Mark::CloseObject)
}

// A value in which so many lists and objects may be open.
#[cycle(values)]
fn write_value(
    alloc: Global,
    writer: &mut Writer,
    levels: usize,
    value: &Json,
) -> Result<(), AllocError>
    ensures { Wrote result writer.old writer.new (printed levels value.now) }
{
    match value {
        Json::Null => writer.null(alloc),
        Json::Bool(truth) => writer.truth(alloc, *truth),
        Json::Number(number) => write_number(alloc, writer, *number),
        Json::Text(text) => writer.text(alloc, text.as_str()),
        Json::List(items) => write_list(alloc, writer, levels, items.as_slice()),
        Json::Object(members) => write_object(alloc, writer, levels, members.as_slice()),
    }
}

/// The bytes of a body that is this value. A number beyond all that is exact, and what lies within more than 32 brackets, isn't written.
///
/// # Errors
///
/// When out of memory.
pub fn print(alloc: Global, value: &Json) -> Result<Bytes, AllocError>
    ensures { IfOk result (λ bytes. bytes ≡ encode_utf8_all (body value.now)) }
{
    let mut writer = Writer::new(alloc);
    write_value(alloc, &mut writer, DEPTH, value)?;
    Ok(writer.finish())
}

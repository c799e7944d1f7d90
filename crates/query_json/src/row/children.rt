//! The children that a subquery finds.

ghost use Rattle.std.specs.Prelude.{◌≡◌, map};
ghost use Rattle.std.specs.Str.{chars, encode_utf8_all};
ghost use Rattle.query_plan.specs.Shown.{child_text, children_at};
ghost use Rattle.base_json.specs.Whole.{joined};
ghost use Rattle.model.specs.RowsJson.{children_json};
ghost use Rattle.api_output.specs.Rows.{behind_commas};
ghost use Rattle.query_json.specs.row.Shows.{shows};
ghost use Rattle.query_json.specs.row.Written.{Puts};

use crate::row::members::write_members;
use api_output::{
    write_comma, write_null, write_record_start, write_row_end, write_rows_end, write_rows_start,
};
use base_json::Writer;
use base_value::Items;
use query_plan::{Child, Member};
use std::alloc::Global;
use store_codec::CodecFail;

// A child: its type and its address, and its members by its own record and parents.
fn write_child(
    alloc: Global,
    writer: &mut Writer,
    object: &str,
    members: &[Member],
    child: &Child,
) -> Result<(), CodecFail>
    ensures { Puts (encode_utf8_all (child_text shows (chars object.now) members.now child.now)) writer.old writer.new result }
{
    write_record_start(alloc, writer, object, &child.record.id)?;
    write_members(
        alloc,
        writer,
        members,
        &child.record,
        child.parents.as_slice(),
    )?;
    write_row_end(alloc, writer)?;
    Ok(())
}

// Children, each behind a comma.
fn write_more_children(
    alloc: Global,
    writer: &mut Writer,
    object: &str,
    members: &[Member],
    children: &[Child],
) -> Result<(), CodecFail>
    ensures { Puts (encode_utf8_all (behind_commas (map (child_text shows (chars object.now) members.now) children.now)))
        writer.old writer.new result }
{
    'children: for child in children {
        write_comma(alloc, writer)?;
        write_child(alloc, writer, object, members, child)?;
    }
    Ok(())
}

// Children with commas between them.
fn write_joined(
    alloc: Global,
    writer: &mut Writer,
    object: &str,
    members: &[Member],
    children: &[Child],
) -> Result<(), CodecFail>
    ensures { Puts (encode_utf8_all (joined (map (child_text shows (chars object.now) members.now) children.now)))
        writer.old writer.new result }
{
    match children.split_first() {
        Some((first, rest)) => {
            write_child(alloc, writer, object, members, first)?;
            write_more_children(alloc, writer, object, members, rest)
        }
        None => Ok(()),
    }
}

/// The value of a subquery: how many children there are, and the children; null where there are none.
pub(crate) fn write_children(
    alloc: Global,
    writer: &mut Writer,
    object: &str,
    members: &[Member],
    children: &[Child],
) -> Result<(), CodecFail>
    ensures { Puts (encode_utf8_all (children_json (map (child_text shows (chars object.now) members.now) children.now)))
        writer.old writer.new result }
{
    if children.is_empty() {
        write_null(alloc, writer)?;
        return Ok(());
    }
    write_rows_start(alloc, writer, children.len())?;
    write_joined(alloc, writer, object, members, children)?;
    write_rows_end(alloc, writer)?;
    Ok(())
}

/// The children that the subquery with a number finds.
pub(crate) fn children_at(children: &[Items<Child>], number: usize) -> &[Child]
    ensures { result.now ≡ children_at children.now number }
{
    match children.get(number) {
        Some(found) => found.as_slice(),
        None => &[],
    }
}

//! Rows of a query, from what is shown of each record.

ghost use Rattle.std.specs.Prelude.{◌≡◌, ◌∷◌, ◌++◌, [], List, ℕ, IfOk, IsTrue, codes, drop, length};
ghost use Rattle.std.specs.Str.{chars, encode_utf8_all};
ghost use Rattle.base_json.specs.Printing.{printed_null, printed_text};
ghost use Rattle.model.specs.RowsJson.{member_json, rows_json, value_json};
ghost use Rattle.api_output.specs.Rows.{attributes_member, behind_commas, rows_front};
ghost use Rattle.api_output.specs.Written.{Wrote};
ghost use Rattle.base_value.specs.Printing.{is_printable};

use crate::parts::{
    write_attributes, write_count_member, write_mark, write_name, write_text, write_truth_member,
};
use base_json::{Mark, Writer};
use base_value::{Bytes, Id, Value, print_value};
use std::alloc::{AllocError, Global};

/// The comma between rows.
///
/// # Errors
///
/// When out of memory.
pub fn write_comma(alloc: Global, writer: &mut Writer) -> Result<(), AllocError>
    ensures { Wrote result writer.old writer.new (44 ∷ []) }
{
    write_mark(alloc, writer, Mark::Comma)
}

/// `null`.
///
/// # Errors
///
/// When out of memory.
pub fn write_null(alloc: Global, writer: &mut Writer) -> Result<(), AllocError>
    ensures { Wrote result writer.old writer.new printed_null }
{
    writer.null(alloc)
}

/// Begins a record: its type and its address, from the name of its object and its id.
///
/// # Errors
///
/// When out of memory.
pub fn write_record_start(
    alloc: Global,
    writer: &mut Writer,
    object: &str,
    id: &Id,
) -> Result<(), AllocError>
    ensures { Wrote result writer.old writer.new (123 ∷ attributes_member (chars object.now) id.now) }
{
    write_mark(alloc, writer, Mark::OpenObject)?;
    write_attributes(alloc, writer, object, id)
}

// A value: numbers, truth values and null as such, and else a text.
fn write_value(alloc: Global, writer: &mut Writer, value: &Value) -> Result<(), AllocError>
    requires { IsTrue (is_printable value.now) }
    ensures { Wrote result writer.old writer.new (value_json value.now) }
{
    match value {
        Value::Null => writer.null(alloc),
        Value::Num(count) => writer.number(alloc, *count),
        Value::Bool(truth) => writer.truth(alloc, *truth),
        Value::Text(text) => write_text(alloc, writer, text.as_str()),
        Value::Day(_) | Value::Moment(_) | Value::Ref(_) => {
            let text = print_value(alloc, value)?;
            write_text(alloc, writer, text.as_str())
        }
    }
}

/// Begins a member of a row, behind a comma: its name, and the colon behind it.
///
/// # Errors
///
/// When out of memory.
pub fn write_member_start(alloc: Global, writer: &mut Writer, name: &str) -> Result<(), AllocError>
    ensures { Wrote result writer.old writer.new (44 ∷ (printed_text (chars name.now) ++ codes ":")) }
{
    write_comma(alloc, writer)?;
    write_name(alloc, writer, name)
}

/// A member of a row, behind a comma: a name, and the value that is shown under it.
///
/// # Errors
///
/// When out of memory.
pub fn write_shown(
    alloc: Global,
    writer: &mut Writer,
    name: &str,
    value: &Value,
) -> Result<(), AllocError>
    requires { IsTrue (is_printable value.now) }
    ensures { Wrote result writer.old writer.new (44 ∷ member_json (chars name.now) (value_json value.now)) }
{
    write_member_start(alloc, writer, name)?;
    write_value(alloc, writer, value)
}

/// Ends a row, or another record.
///
/// # Errors
///
/// When out of memory.
pub fn write_row_end(alloc: Global, writer: &mut Writer) -> Result<(), AllocError>
    ensures { Wrote result writer.old writer.new (125 ∷ []) }
{
    write_mark(alloc, writer, Mark::CloseObject)
}

/// Begins rows, of which there are so many.
///
/// # Errors
///
/// When out of memory.
pub fn write_rows_start(alloc: Global, writer: &mut Writer, count: usize) -> Result<(), AllocError>
    ensures { Wrote result writer.old writer.new (rows_front count) }
{
    write_mark(alloc, writer, Mark::OpenObject)?;
    write_count_member(alloc, writer, "totalSize", count)?;
    write_mark(alloc, writer, Mark::Comma)?;
    write_truth_member(alloc, writer, "done", true)?;
    write_mark(alloc, writer, Mark::Comma)?;
    write_name(alloc, writer, "records")?;
    write_mark(alloc, writer, Mark::OpenList)
}

/// Ends rows.
///
/// # Errors
///
/// When out of memory.
pub fn write_rows_end(alloc: Global, writer: &mut Writer) -> Result<(), AllocError>
    ensures { Wrote result writer.old writer.new (codes "]}") }
{
    write_mark(alloc, writer, Mark::CloseList)?;
    write_mark(alloc, writer, Mark::CloseObject)
}

// These bytes without the first.
fn without_first(bytes: &[u8]) -> &[u8]
    ensures { result.now ≡ drop 1 bytes.now }
{
    match bytes.split_first() {
        None => &[],
        Some((_, rest)) => rest,
    }
}

/// The body of the reply to a query: how many rows there are, and the rows, which come with a comma before each.
///
/// # Errors
///
/// When out of memory.
pub fn rows_body(alloc: Global, count: usize, rows: &[u8]) -> Result<Bytes, AllocError>
    ensures { IfOk result (λ body. (texts : List (List ℕ)) → count ≡ length texts → rows.now ≡ encode_utf8_all (behind_commas texts)
        → body ≡ encode_utf8_all (rows_json texts)) }
{
    let mut front = Writer::new(alloc);
    write_rows_start(alloc, &mut front, count)?;
    let mut body = front.finish().into_vec();
    body.extend_from_slice(without_first(rows))?;
    body.extend_from_slice(b"]}")?;
    Ok(Bytes::from_vec(body))
}

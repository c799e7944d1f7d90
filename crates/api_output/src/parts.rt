//! Marks, members and values, as JSON writes them, and the addresses of records.

ghost use Rattle.std.specs.Prelude.{◌≡◌, ◌*◌, [], ◌∷◌, ◌++◌, IfOk, codes, pos};
ghost use Rattle.std.specs.Fmt.{decimal};
ghost use Rattle.std.specs.Str.{chars};
ghost use Rattle.std.specs.String.{string_bytes};
ghost use Rattle.base_json.specs.Printing.{mark_of, printed_text, printed_truth};
ghost use Rattle.base_value.specs.Id.{print18};
ghost use Rattle.model.specs.RowsJson.{member_json, url};
ghost use Rattle.api_output.specs.Rows.{addresses, attributes_member};
ghost use Rattle.api_output.specs.inner.Parts.{Wrote};

use base_json::{Mark, Writer};
use base_value::{Id, Text, Value, print_value};
use std::alloc::{AllocError, Global};

// One, as a count of 10^-8.
const UNIT: i128 = 100_000_000;

/// One of the characters between values.
pub(crate) fn write_mark(alloc: Global, writer: &mut Writer, mark: Mark) -> Result<(), AllocError>
    ensures { Wrote result writer.old writer.new (mark_of mark ∷ []) }
{
    writer.mark(alloc, mark)
}

/// A text.
pub(crate) fn write_text(alloc: Global, writer: &mut Writer, text: &str) -> Result<(), AllocError>
    ensures { Wrote result writer.old writer.new (printed_text (chars text.now)) }
{
    writer.text(alloc, text)
}

// A whole number, as a count of 10^-8.
fn units(count: usize) -> i128
    ensures { result ≡ pos (count * 100000000) }
{
    count as i128 * UNIT
}

// A whole number.
fn write_count(alloc: Global, writer: &mut Writer, count: usize) -> Result<(), AllocError>
    ensures { Wrote result writer.old writer.new (decimal count) }
{
    writer.number(alloc, units(count))
}

/// The name of a member, and the colon behind it.
pub(crate) fn write_name(alloc: Global, writer: &mut Writer, name: &str) -> Result<(), AllocError>
    ensures { Wrote result writer.old writer.new (printed_text (chars name.now) ++ codes ":") }
{
    write_text(alloc, writer, name)?;
    write_mark(alloc, writer, Mark::Colon)
}

/// A member that is a text.
pub(crate) fn write_text_member(
    alloc: Global,
    writer: &mut Writer,
    name: &str,
    text: &str,
) -> Result<(), AllocError>
    ensures { Wrote result writer.old writer.new (member_json (chars name.now) (printed_text (chars text.now))) }
{
    write_name(alloc, writer, name)?;
    write_text(alloc, writer, text)
}

/// A member that is a whole number.
pub(crate) fn write_count_member(
    alloc: Global,
    writer: &mut Writer,
    name: &str,
    count: usize,
) -> Result<(), AllocError>
    ensures { Wrote result writer.old writer.new (member_json (chars name.now) (decimal count)) }
{
    write_name(alloc, writer, name)?;
    write_count(alloc, writer, count)
}

// A truth value.
fn write_truth(alloc: Global, writer: &mut Writer, truth: bool) -> Result<(), AllocError>
    ensures { Wrote result writer.old writer.new (printed_truth truth) }
{
    writer.truth(alloc, truth)
}

/// A member that is a truth value.
pub(crate) fn write_truth_member(
    alloc: Global,
    writer: &mut Writer,
    name: &str,
    truth: bool,
) -> Result<(), AllocError>
    ensures { Wrote result writer.old writer.new (member_json (chars name.now) (printed_truth truth)) }
{
    write_name(alloc, writer, name)?;
    write_truth(alloc, writer, truth)
}

/// An id in 18 characters.
pub(crate) fn id_text(alloc: Global, id: &Id) -> Result<Text, AllocError>
    ensures { IfOk result (λ text. text ≡ print18 id.now) }
{
    print_value(alloc, &Value::Ref(*id))
}

/// The addresses of an object's records, up to their ids.
pub(crate) fn addresses(alloc: Global, object: &str) -> Result<String, AllocError>
    ensures { IfOk result (λ text. chars (string_bytes text) ≡ addresses (chars object.now)) }
{
    let mut text = String::from_str(alloc, "/services/data/v59.0/sobjects/")?;
    text.push_str(object)?;
    text.push_str("/")?;
    Ok(text)
}

/// The address of a record, from the name of its object and its id.
pub(crate) fn address(alloc: Global, object: &str, id: &Id) -> Result<Text, AllocError>
    ensures { IfOk result (λ text. text ≡ url (chars object.now) id.now) }
{
    let id = id_text(alloc, id)?;
    let mut text = addresses(alloc, object)?;
    text.push_str(id.as_str())?;
    Ok(Text::from_string(text))
}

/// The first member of a record.
pub(crate) fn write_attributes(
    alloc: Global,
    writer: &mut Writer,
    object: &str,
    id: &Id,
) -> Result<(), AllocError>
    ensures { Wrote result writer.old writer.new (attributes_member (chars object.now) id.now) }
{
    let address = address(alloc, object, id)?;
    write_name(alloc, writer, "attributes")?;
    write_mark(alloc, writer, Mark::OpenObject)?;
    write_text_member(alloc, writer, "type", object)?;
    write_mark(alloc, writer, Mark::Comma)?;
    write_text_member(alloc, writer, "url", address.as_str())?;
    write_mark(alloc, writer, Mark::CloseObject)
}

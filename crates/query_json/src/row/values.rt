//! Values as rows show them.

ghost use Rattle.std.specs.Prelude.{◌≡◌, ◌∷◌, Some};
ghost use Rattle.std.specs.Str.{chars, encode_utf8_all};
ghost use Rattle.query_plan.specs.Checks.{spot_value};
ghost use Rattle.model.specs.RowsJson.{member_json};
ghost use Rattle.model.specs.declared.record.Record.{Record};
ghost use Rattle.api_output.specs.Written.{Wrote};
ghost use Rattle.query_json.specs.row.Shows.{shows};
ghost use Rattle.query_json.specs.row.Written.{Puts};
ghost use Rattle.base_value.specs.Printing.{is_printable};

use api_output::write_shown;
use base_json::Writer;
use base_value::{FieldType, Value, check_value};
use model::Record;
use query_plan::{HasValues, Spot, spot_value};
use std::alloc::{AllocError, Global};
use store_codec::CodecFail;

/// Whether a value has a text: days and moments have one in the years 0001 to 9999.
pub fn is_printable(value: &Value) -> bool
    ensures { result ≡ is_printable value.now }
{
    match value {
        Value::Day(_) => check_value(&FieldType::Day, value).is_ok(),
        Value::Moment(_) => check_value(&FieldType::Moment, value).is_ok(),
        _ => true,
    }
}

// A member, behind a comma: a value that can be printed, or null.
fn write_value(
    alloc: Global,
    writer: &mut Writer,
    name: &str,
    value: &Value,
) -> Result<(), AllocError>
    ensures { Wrote result writer.old writer.new (44 ∷ member_json (chars name.now) (shows value.now)) }
{
    if is_printable(value) {
        write_shown(alloc, writer, name, value)
    } else {
        write_shown(alloc, writer, name, &Value::Null)
    }
}

/// A field of a row, behind a comma: its name, and the value that the row has at a spot.
pub(crate) fn write_field<V: HasValues>(
    alloc: Global,
    writer: &mut Writer,
    name: &str,
    spot: Spot,
    item: &V,
    parents: &[Option<Record>],
) -> Result<(), CodecFail>
    ensures { (r : Record) → V.its_record item.now ≡ Some r
        → Puts (encode_utf8_all (44 ∷ member_json (chars name.now) (shows (spot_value parents.now r spot)))) writer.old writer.new result }
{
    let value = spot_value(alloc, item, parents, spot)?;
    write_value(alloc, writer, name, &value)?;
    Ok(())
}

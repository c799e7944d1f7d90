//! The lines of records.

ghost use Rattle.std.specs.Prelude.{◌≡◌, IfOk, Some, map};
ghost use Rattle.query_plan.specs.Given.{GivesBy, GivesJust};
ghost use Rattle.query_csv.specs.inner.Rows.{cell_text, row_line};
ghost use Rattle.model.specs.declared.record.Record.{Record};
ghost use Rattle.query_json.specs.row.Shows.{or_null};
ghost use Rattle.base_value.specs.Printing.{print_value};

use crate::line::line_of;
use base_value::{Items, Text, Value, print_value};
use model::Record;
use query_exec::{RowForm, SeenRecord};
use query_json::is_printable;
use query_plan::{Child, HasValues, Spot, spot_value};
use std::alloc::{AllocError, Global};
use store_codec::CodecFail;

// A value that can be printed, or nothing.
fn print_cell(alloc: Global, value: &Value) -> Result<Text, AllocError>
    ensures { IfOk result (λ text. text ≡ print_value (or_null value.now)) }
{
    if is_printable(value) {
        print_value(alloc, value)
    } else {
        print_value(alloc, &Value::Null)
    }
}

// The cell of a record's value at a spot.
fn cell_of<V: HasValues>(
    alloc: Global,
    item: &V,
    parents: &[Option<Record>],
    spot: Spot,
) -> Result<Text, CodecFail>
    ensures { (r : Record) → V.its_record item.now ≡ Some r → GivesJust (cell_text parents.now r spot) result }
{
    let value = spot_value(alloc, item, parents, spot)?;
    Ok(print_cell(alloc, &value)?)
}

// The cells of its values at these spots.
fn cells_of<V: HasValues>(
    alloc: Global,
    item: &V,
    parents: &[Option<Record>],
    spots: &[Spot],
) -> Result<Vec<Text>, CodecFail>
    ensures { (r : Record) → V.its_record item.now ≡ Some r
        → GivesBy (λ cells. cells.items) (map (cell_text parents.now r) spots.now) result }
{
    let mut cells = Vec::new(alloc);
    for spot in spots {
        cells.push(cell_of(alloc, item, parents, *spot)?)?;
    }
    Ok(cells)
}

/// A line for each record, of its values at these spots.
#[derive(Drop)]
pub(crate) struct CellLines<'a> {
    pub cells: &'a [Spot],
}

impl RowForm for CellLines<'_> {
    ghost written = { λ f parents children r. row_line f.cells.now parents r };

    fn write(
        &self,
        alloc: Global,
        item: &SeenRecord<'_>,
        parents: &[Option<Record>],
        _children: &[Items<Child>],
        out: &mut Vec<u8>,
    ) -> Result<(), CodecFail> {
        let cells = cells_of(alloc, item, parents, self.cells)?;
        let text = line_of(alloc, cells.as_slice())?;
        out.extend_from_slice(text.as_slice())?;
        Ok(())
    }
}

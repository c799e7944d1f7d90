//! The cells of a record.

ghost use Rattle.std.specs.Prelude.{◌≡◌, [], IfOk, map, unwrap_or};
ghost use Rattle.csv.specs.Records.{field_at, fields_of};

use csv::StringRecord;
use std::alloc::{AllocError, Global};

// The cell at a place, which is empty where there is none.
fn cell_at(row: &StringRecord, place: usize) -> &str
    ensures { result.now ≡ unwrap_or (field_at (fields_of row.now) place) [] }
{
    row.get(place).unwrap_or("")
}

/// All cells of a record.
pub(crate) fn cells_of(alloc: Global, row: &StringRecord) -> Result<Vec<&str>, AllocError>
    ensures { IfOk result (λ cells. map (λ c. c.now) cells.items ≡ fields_of row.now) }
{
    let mut cells = Vec::new(alloc);
    for place in 0..row.len() {
        cells.push(cell_at(row, place))?;
    }
    Ok(cells)
}

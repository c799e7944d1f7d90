//! Lines of cells.

ghost use Rattle.std.specs.Prelude.{◌≡◌, IfOk, map};
ghost use Rattle.std.specs.Str.{encode_utf8_all};
ghost use Rattle.query_csv.specs.Lines.{line};

use base_csv::record_text;
use base_value::Text;
use std::alloc::{AllocError, Global};

// The cells in UTF-8.
fn cells_of<'a>(alloc: Global, cells: &'a [Text]) -> Result<Vec<&'a [u8]>, AllocError>
    ensures { IfOk result (λ fields. map (λ f. f.now) fields.items ≡ map encode_utf8_all cells.now) }
{
    let mut fields = Vec::new(alloc);
    for cell in cells {
        fields.push(cell.as_str().as_bytes())?;
    }
    Ok(fields)
}

/// The line of these cells.
///
/// # Errors
///
/// If out of memory.
pub(crate) fn line_of(alloc: Global, cells: &[Text]) -> Result<Vec<u8>, AllocError>
    ensures { IfOk result (λ text. text.items ≡ line cells.now) }
{
    let fields = cells_of(alloc, cells)?;
    record_text(alloc, fields.as_slice())
}

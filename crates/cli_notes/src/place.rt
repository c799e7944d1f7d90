ghost use Rattle.std.specs.Prelude.{IfSome, ℕ};
ghost use Rattle.base_csv.specs.Place.{IsRefusedAt};

use base_csv::{TableFail, read_table};
use std::alloc::Global;

/// The line and the column, both from 1, of the first record of a CSV text that is refused.
///
/// None if no record is refused, or if memory runs out.
pub fn place_of(alloc: Global, source: &[u8]) -> Option<(usize, usize)>
    ensures { IfSome result (λ place. (row : ℕ) × IsRefusedAt source.now row place.0 place.1) }
{
    // One record is enough: the refused ones are told, however many are returned.
    match read_table(alloc, source, 1) {
        Err(TableFail::Refused { line, column, .. }) => Some((line, column)),
        Err(TableFail::Memory) | Ok(_) => None,
    }
}

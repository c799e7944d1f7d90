//! The first records of a source.

ghost use Rattle.std.specs.Prelude.{◌≡◌, ◌++◌, ◌∷◌, [], IfErr, IfOk, List, None, OnOk, map, take, ℕ};
ghost use Rattle.csv.specs.Records.{fields_of};
ghost use Rattle.base_csv.specs.Place.{TellsPlace};
ghost use Rattle.base_csv.specs.Table.{first_refused, table_of};
ghost use Rattle.base_csv.specs.declared.fail.TableFail.TheVariants.{Memory};

use crate::fail::TableFail;
use crate::records::Records;
use csv::StringRecord;
use std::alloc::Global;

/// The first `most` records of a CSV source, or all where there are fewer, the heading first. One byte order mark at its
/// beginning is passed over.
///
/// The whole source is read, but no more than `most` records are kept in memory. A caller with a limit asks for one
/// record more, and sees by their number whether there are too many.
///
/// # Errors
///
/// `Refused` exactly where a record is refused, with the number of the first and where it stands; `Memory` where memory
/// is exhausted.
pub fn read_table(alloc: Global, source: &[u8], most: usize) -> Result<Vec<StringRecord>, TableFail>
    ensures records { IfOk result (λ rows. map fields_of rows.items ≡ take most (table_of source.now)) }
    ensures accepted { OnOk result (first_refused source.now ≡ None) }
    ensures refused { IfErr result (λ fail. TellsPlace source.now fail) }
{
    let mut records = Records::new(alloc, source);
    let mut rows = Vec::new(alloc);
    loop {
        match records.next() {
            Ok(Some(record)) => keep(&mut rows, record, most)?,
            Ok(None) => return Ok(rows),
            Err(fail) => return Err(fail),
        }
    }
}

// Adds a record, if there are fewer than `most`.
fn keep(rows: &mut Vec<StringRecord>, row: StringRecord, most: usize) -> Result<(), TableFail>
    ensures kept { OnOk result ((all : List (List (List ℕ))) → map fields_of rows.old.items ≡ take most all
        → map fields_of rows.new.items ≡ take most (all ++ fields_of row ∷ [])) }
    ensures err { IfErr result (λ fail. fail ≡ Memory) }
{
    if rows.len() >= most {
        return Ok(());
    }
    match rows.push(row) {
        Ok(()) => Ok(()),
        Err(_) => Err(TableFail::Memory),
    }
}

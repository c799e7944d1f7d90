//! The columns of a heading.

ghost use Rattle.std.specs.Prelude.{◌≡◌, IfOk, [], false, unwrap_or, ℕ};
ghost use Rattle.std.specs.Str.{chars};
ghost use Rattle.csv.specs.Records.{field_at, fields_of};
ghost use Rattle.cmd_csvq.specs.Organisation.{new_column, with_columns};
ghost use Rattle.cmd_csvq.specs.inner.Making.{Goes, Takes};
ghost use Rattle.model.specs.NewFields.{add_field};
ghost use Rattle.model.specs.Paths.{Asked};
ghost use Rattle.cmd_sandbox.specs.Making.{IsOwned, StepsOwn};

use base_value::{FieldType, Text};
use cmd_sandbox::{make_field, only_name};
use csv::StringRecord;
use model::{NewField, Refusal, SpelledType, same_name};
use std::alloc::{AllocError, Global};
use store_kv::{Draft, MemoryKeeper};
use store_rows::StoreFail;

// The most characters of a cell that isn't a name.
const CELL_CHARACTERS: u8 = 255;

fn new_column(alloc: Global, name: &str) -> Result<NewField, AllocError>
    ensures { IfOk result (λ new. new ≡ new_column (chars name.now)) }
{
    Ok(NewField {
        members: only_name(alloc)?,
        object: Text::from_str(alloc, "Row__c")?,
        name: Text::from_str(alloc, name)?,
        kind: SpelledType::Plain(FieldType::Text(CELL_CHARACTERS)),
        required: false,
        unique: false,
        indexed: false,
    })
}

// Makes the field of a column.
fn make_column(
    alloc: Global,
    draft: &mut Draft<'_, MemoryKeeper>,
    name: &str,
) -> Result<Option<Refusal>, StoreFail>
    ensures { (now : ℕ) (a : Asked) → IsOwned now draft.old a
        → StepsOwn now draft.new a (add_field a.tenant (new_column (chars name.now))) result }
{
    let new = new_column(alloc, name)?;
    make_field(alloc, draft, &new)
}

// Takes the next cell of a heading, where `Name` was taken before or wasn't: whether it was then, unless the cell is no column.
fn take_column(
    alloc: Global,
    draft: &mut Draft<'_, MemoryKeeper>,
    named: bool,
    cell: &str,
) -> Result<Option<bool>, StoreFail>
    ensures { (now : ℕ) (a : Asked) → IsOwned now draft.old a
        → Takes now draft.new named a cell.now result }
{
    if !same_name("Name", cell) {
        let refused = make_column(alloc, draft, cell)?;
        match refused {
            Some(_refusal) => Ok(None),
            None => Ok(Some(named)),
        }
    } else if named {
        Ok(None)
    } else {
        Ok(Some(true))
    }
}

// The cell at a place, which is empty where there is none.
fn cell_at(heading: &StringRecord, place: usize) -> &str
    ensures { result.now ≡ unwrap_or (field_at (fields_of heading.now) place) [] }
{
    heading.get(place).unwrap_or("")
}

/// Makes the columns of a heading, or returns the first cell that is none.
///
/// # Errors
///
/// `Memory` if out of memory. No call of this keeper fails.
pub(crate) fn make_columns(
    alloc: Global,
    draft: &mut Draft<'_, MemoryKeeper>,
    heading: &StringRecord,
) -> Result<Option<Text>, StoreFail>
    ensures { (now : ℕ) (a : Asked) → IsOwned now draft.old a
        → Goes now draft.new (with_columns false a (fields_of heading.now)) result }
{
    let mut named = false;
    for place in 0..heading.len() {
        let cell = cell_at(heading, place);
        match take_column(alloc, draft, named, cell)? {
            Some(next) => named = next,
            None => return Ok(Some(Text::from_str(alloc, cell)?)),
        }
    }
    Ok(None)
}

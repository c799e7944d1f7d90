//! A record for each row.

ghost use Rattle.std.specs.Prelude.{◌≡◌, IsTrue, pos, map};
ghost use Rattle.csv.specs.Records.{fields_of};
ghost use Rattle.cmd_csvq.specs.Organisation.{given_of, object_name, with_rows};
ghost use Rattle.cmd_csvq.specs.inner.Making.{Goes};
ghost use Rattle.model.specs.Creates.{create};
ghost use Rattle.model.specs.Paths.{Asked};
ghost use Rattle.record_target.specs.Usable.{IsReady};
ghost use Rattle.cmd_sandbox.specs.Making.{IsLaidOut, IsOwned, StepsLaidOut};
ghost use Rattle.base_value.specs.Dates.{is_moment};

use crate::given::given_of;
use base_value::Text;
use cmd_sandbox::{make_record_of, ready_object};
use csv::StringRecord;
use model::Refusal;
use std::alloc::Global;
use store_abstraction::Layout;
use store_kv::{Draft, MemoryKeeper};
use store_rows::StoreFail;

// Makes the record of a row, of the object with this layout.
fn make_row(
    alloc: Global,
    draft: &mut Draft<'_, MemoryKeeper>,
    layout: &Layout,
    now: u64,
    heading: &StringRecord,
    row: &StringRecord,
) -> Result<Option<Refusal>, StoreFail>
    requires ready { IsReady 1 layout.now }
    requires moment { IsTrue (is_moment (pos now)) }
    ensures { (a : Asked) → IsLaidOut now draft.old object_name layout.now a
        → StepsLaidOut now draft.new object_name layout.now a
        (create a object_name (given_of (fields_of heading.now) (fields_of row.now))) result }
{
    let given = given_of(alloc, heading, row)?;
    make_record_of(alloc, draft, layout, now, given.as_slice())
}

// The same for each row, by one layout.
fn make_rows_of(
    alloc: Global,
    draft: &mut Draft<'_, MemoryKeeper>,
    layout: &Layout,
    now: u64,
    heading: &StringRecord,
    rows: &[StringRecord],
) -> Result<Option<(u64, Refusal)>, StoreFail>
    requires ready { IsReady 1 layout.now }
    requires moment { IsTrue (is_moment (pos now)) }
    ensures { (a : Asked) → IsLaidOut now draft.old object_name layout.now a
        → Goes now draft.new (with_rows (fields_of heading.now) 1 a (map fields_of rows.now)) result }
{
    for (place, row) in rows.iter().enumerate() {
        if let Some(refusal) = make_row(alloc, draft, layout, now, heading, row)? {
            return Ok(Some((place as u64 + 1, refusal)));
        }
    }
    Ok(None)
}

/// Makes a record for each row, or returns the number of the first row whose record is refused, from 1, and why. The layout of their
/// object is read once.
///
/// # Errors
///
/// `Memory` if out of memory. No call of this keeper fails.
pub(crate) fn make_rows(
    alloc: Global,
    draft: &mut Draft<'_, MemoryKeeper>,
    now: u64,
    heading: &StringRecord,
    rows: &[StringRecord],
) -> Result<Option<(u64, Refusal)>, StoreFail>
    requires { IsTrue (is_moment (pos now)) }
    ensures { (a : Asked) → IsOwned now draft.old a
        → Goes now draft.new (with_rows (fields_of heading.now) 1 a (map fields_of rows.now)) result }
{
    if rows.is_empty() {
        return Ok(None);
    }
    let object = Text::from_str(alloc, "Row__c")?;
    match ready_object(alloc, draft, &object) {
        Ok(Ok(layout)) => make_rows_of(alloc, draft, &layout, now, heading, rows),
        Ok(Err(refusal)) => Ok(Some((1, refusal))),
        Err(fail) => Err(fail),
    }
}

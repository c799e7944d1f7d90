//! How the text of an input is loaded.

ghost use Rattle.std.specs.Prelude.{◌≡◌, ◌≤◌, IfOk, None, OnOk, length};
ghost use Rattle.csv.specs.Records.{fields_of};
ghost use Rattle.cmd_load.specs.Inputs.{IsPlanned, input_plan};
ghost use Rattle.cmd_load.specs.Targets.{IsTarget, LoadObject};
ghost use Rattle.cmd_load.specs.inner.Headings.{IsPlannedBy};
ghost use Rattle.model.specs.Limits.{input_limit};
ghost use Rattle.base_csv.specs.Table.{first_refused};

use crate::cells::cells_of;
use crate::target::Target;
use base_csv::{TableFail, read_table};
use cmd_load_plan::{LoadPlan, load_laws, load_plan};
use csv::StringRecord;
use model::Refusal;
use std::alloc::{AllocError, Global};

// How a text with this heading is loaded.
fn plan_heading(
    alloc: Global,
    target: &Target,
    heading: &StringRecord,
) -> Result<Result<LoadPlan, Refusal>, AllocError>
    ensures { IfOk result (λ planned. (x : LoadObject) → IsTarget x target.now → IsPlannedBy x (fields_of heading.now) planned) }
{
    load_laws();
    let cells = cells_of(alloc, heading)?;
    match load_plan(
        alloc,
        target.layouts.as_slice(),
        &target.layout,
        cells.as_slice(),
    )? {
        Ok(plan) => Ok(Ok(plan)),
        Err(cell) => Ok(Err(Refusal::HeadingRefused { cell })),
    }
}

/// How a text of at most 67,108,864 bytes is loaded into an object: by which plan, or why it isn't.
///
/// # Errors
///
/// When out of memory.
pub fn plan_input(
    alloc: Global,
    target: &Target,
    source: &[u8],
) -> Result<Result<LoadPlan, Refusal>, AllocError>
    requires { length source.now ≤ input_limit }
    ensures planned { IfOk result (λ planned. (x : LoadObject) → IsTarget x target.now → IsPlanned (input_plan x source.now) source.now planned) }
    ensures whole { IfOk result (λ planned. OnOk planned (first_refused source.now ≡ None)) }
{
    match read_table(alloc, source, 1) {
        Ok(records) => match records.as_slice().first() {
            Some(heading) => plan_heading(alloc, target, heading),
            None => Ok(Err(Refusal::CsvRefused { row: 0 })),
        },
        Err(TableFail::Refused { row, .. }) => Ok(Err(Refusal::CsvRefused { row })),
        Err(TableFail::Memory) => Err(AllocError),
    }
}

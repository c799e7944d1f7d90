//! The row of a change that is at no record.

ghost use Rattle.std.specs.Prelude.{◌≡◌, ◌&&◌, IfErr, IfOk, IsTrue, not};
ghost use Rattle.store_rows.specs.declared.fail.StoreFail.TheVariants.{Damaged};
ghost use Rattle.store_rows.specs.Forms.{FitsForm};
ghost use Rattle.store_rows.specs.Rows.{job_form};
ghost use Rattle.retype_request.specs.inner.Beginning.{row_by};
ghost use Rattle.base_value.specs.Types.{is_reference, is_type};

use base_value::{FieldType, Outcome, Phase, is_reference, is_type};
use store_rows::{JobRow, StoreFail};

/// The row of a change of this field, to or from this type, in this slot, which is at no record.
///
/// # Errors
///
/// `Damaged` if the type is out of its bounds or refers to an object, as that of no change does.
pub(crate) fn row_of(
    org: u32,
    object: u16,
    field: u8,
    kind: FieldType,
    twin: u8,
    phase: Phase,
    outcome: Outcome,
) -> Result<JobRow, StoreFail>
    ensures same { IfOk result (λ row. row ≡ row_by org object field kind twin phase outcome) }
    ensures fits { IfOk result (FitsForm job_form) }
    ensures cause { IfErr result (λ e. e ≡ Damaged) }
    ensures damaged { IsTrue (is_type kind && not (is_reference kind)) → IfErr result (λ e. ⊥) }
{
    if !is_type(&kind) || is_reference(&kind) {
        return Err(StoreFail::Damaged);
    }
    Ok(JobRow {
        org,
        object,
        field,
        kind,
        twin,
        phase,
        outcome,
        cursor: None,
        failed: None,
    })
}

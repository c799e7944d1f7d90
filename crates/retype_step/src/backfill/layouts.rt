//! The layout of an object whose change of a type comes further.

ghost use Rattle.std.specs.Prelude.{◌≡◌, IfOk};
ghost use Rattle.retype_step.specs.backfill.Progress.{come_to, job_come_to};

use base_value::{Id, Items, Text};
use std::alloc::{AllocError, Global};
use store_abstraction::{FieldPlace, JobPlace, Layout};

fn text_copy(alloc: Global, text: &Option<Text>) -> Result<Option<Text>, AllocError>
    ensures { IfOk result (λ copy. copy ≡ text.now) }
{
    match text {
        None => Ok(None),
        Some(text) => Ok(Some(text.copy(alloc)?)),
    }
}

fn field_copy(alloc: Global, field: &FieldPlace) -> Result<FieldPlace, AllocError>
    ensures { IfOk result (λ copy. copy ≡ field.now) }
{
    let name = field.name.copy(alloc)?;
    let kind = field.kind.copy(alloc)?;
    let child = text_copy(alloc, &field.child)?;
    Ok(FieldPlace {
        name,
        kind,
        required: field.required,
        unique: field.unique,
        indexed: field.indexed,
        slot: field.slot,
        child,
    })
}

fn field_copies(alloc: Global, fields: &[FieldPlace]) -> Result<Items<FieldPlace>, AllocError>
    ensures { IfOk result (λ copies. copies ≡ fields.now) }
{
    let mut copies = Items::new(alloc);
    for field in fields {
        copies.push(field_copy(alloc, field)?)?;
    }
    Ok(copies)
}

fn job_come_to(alloc: Global, job: &JobPlace, cursor: Option<Id>) -> Result<JobPlace, AllocError>
    ensures { IfOk result (λ come. come ≡ job_come_to cursor job.now) }
{
    let kind = job.kind.copy(alloc)?;
    Ok(JobPlace {
        field: job.field,
        kind,
        twin: job.twin,
        phase: job.phase,
        cursor,
    })
}

/// A copy of a layout, whose change of a type has come to this record.
///
/// # Errors
///
/// If out of memory.
pub(crate) fn come_to(
    alloc: Global,
    layout: &Layout,
    cursor: Option<Id>,
) -> Result<Layout, AllocError>
    ensures { IfOk result (λ come. come ≡ come_to cursor layout.now) }
{
    let job = match &layout.job {
        None => None,
        Some(job) => Some(job_come_to(alloc, job, cursor)?),
    };
    let name = layout.name.copy(alloc)?;
    let fields = field_copies(alloc, layout.fields.as_slice())?;
    Ok(Layout {
        org: layout.org,
        object: layout.object,
        name,
        access: layout.access,
        hierarchy: layout.hierarchy,
        fields,
        job,
    })
}

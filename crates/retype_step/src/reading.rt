//! What is read for a step: the change that is under way, the layout of its object, and the rows of its next records.

ghost use Rattle.std.specs.Prelude.{◌≡◌, ◌+◌, IfOk, Some, false};
ghost use Rattle.retype_step.specs.inner.Pages.{FindsPage, busy_row, unless_done};
ghost use Rattle.store_kv.specs.Draft.{DraftTells, removals_of, tables_of};
ghost use Rattle.model.specs.Retyping.{job_is_done};
ghost use Rattle.model.specs.Tenant.{Job, Tenant};
ghost use Rattle.store_abstraction.specs.Calls.{Calls, ended};
ghost use Rattle.store_abstraction.specs.Layouts.{own_layout};
ghost use Rattle.store_abstraction.specs.Local.{FindsIn, FindsThere, StandsIn};
ghost use Rattle.store_abstraction.specs.Metadata.{job_of};
ghost use Rattle.store_abstraction.specs.Plan.{OrgPlan};

use base_value::{Items, Phase};
use record_read::walk_rows;
use std::alloc::Global;
use store_abstraction::{Layout, call_laws, change_row, layout_at};
use store_kv::{Draft, Keeper, draft_laws};
use store_rows::{DataRow, JobRow, StoreFail};

/// A change that is under way, the layout of its object, and the rows of the records that a step of it is over.
#[derive(Drop)]
pub(crate) struct Page {
    pub row: JobRow,
    pub layout: Layout,
    pub rows: Items<DataRow>,
}

// So many records a step is over.
const STEP_RECORDS: usize = 100;

// ---- the change

// A change, unless it is done.
fn unless_done(row: Option<JobRow>) -> Option<JobRow>
    ensures { result ≡ unless_done row }
{
    match row {
        None => None,
        Some(row) => {
            if row.phase == Phase::Done {
                None
            } else {
                Some(row)
            }
        }
    }
}

/// The row of the change that is under way, if one is.
///
/// # Errors
///
/// `Keeper` if the keeper failed, `Memory` if out of memory, `Damaged` never if the organisation's rows stand for a tenant or
/// for none.
pub(crate) fn busy_row<K: Keeper>(
    alloc: Global,
    draft: &mut Draft<'_, K>,
    org: u32,
) -> Result<Option<JobRow>, StoreFail>
    ensures finds { DraftTells K.state draft.old draft.new → FindsIn org (busy_row org) (tables_of K.state draft.old) result }
    ensures calls { Calls K.state 0 (ended result) draft.old draft.new }
{
    match change_row(alloc, draft, org) {
        Ok(row) => Ok(unless_done(row)),
        Err(fail) => Err(fail),
    }
}

// ---- its object

// The layout of an object that is there.
fn layout_there<K: Keeper>(
    alloc: Global,
    draft: &mut Draft<'_, K>,
    org: u32,
    object: u16,
) -> Result<Layout, StoreFail>
    ensures finds { DraftTells K.state draft.old draft.new
        → FindsThere org (own_layout org object) (tables_of K.state draft.old) result }
    ensures own { IfOk result (λ layout. layout.org ≡ org) }
    ensures calls { Calls K.state 0 (ended result) draft.old draft.new }
{
    call_laws::<K>();
    match layout_at(alloc, draft, org, object) {
        Ok(None) => Err(StoreFail::Damaged),
        Ok(Some(layout)) => {
            let mut layout = layout;
            // As it is already, whatever the tables have.
            layout.org = org;
            Ok(layout)
        }
        Err(fail) => Err(fail),
    }
}

/// What a step of a change with this row is made by.
///
/// # Errors
///
/// `Keeper` if the keeper failed, `Memory` if out of memory, `Damaged` never if the organisation's rows stand for a tenant whose
/// change it is.
pub(crate) fn page_of<K: Keeper>(
    alloc: Global,
    draft: &mut Draft<'_, K>,
    org: u32,
    row: JobRow,
) -> Result<Page, StoreFail>
    ensures finds { DraftTells K.state draft.old draft.new
        → (q : OrgPlan) (t : Tenant) (j : Job) → StandsIn org q (tables_of K.state draft.old) (Some t)
        → t.job ≡ Some j → job_is_done j.phase ≡ false → row ≡ job_of org q j → FindsPage org q t j result }
    ensures own { IfOk result (λ page. page.layout.org ≡ org) }
    ensures calls { Calls K.state (100 + removals_of K.state 7 draft.old) (ended result) draft.old draft.new }
{
    draft_laws::<K>();
    call_laws::<K>();
    let layout = layout_there(alloc, draft, org, row.object)?;
    let rows = walk_rows(alloc, draft, &layout, row.cursor.as_ref(), STEP_RECORDS)?;
    Ok(Page {
        row,
        layout,
        rows: Items::from_vec(rows),
    })
}

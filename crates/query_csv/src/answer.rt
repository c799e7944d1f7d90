//! The lines of a query.

ghost use Rattle.std.specs.Prelude.{◌≡◌, ◌+◌, ◌*◌, length};
ghost use Rattle.query_exec.specs.Written.{most_shown, seeing};
ghost use Rattle.store_kv.specs.Draft.{DraftTells, removals_of, tables_of};
ghost use Rattle.query_csv.specs.Answered.{AnswersLines};
ghost use Rattle.query_csv.specs.inner.Rows.{PutsLines, parents_of, serves};
ghost use Rattle.store_abstraction.specs.Calls.{Calls, ended};
ghost use Rattle.model.specs.Shown.{readable_shown, row_shown};

use crate::form::CellLines;
use crate::names::names_line;
use access_traits::{Rights, Sight};
use base_value::{Bytes, day_of_moment};
use model::{Refusal, object_laws, record_laws};
use query_bind::{CellPlan, bind_cells};
use query_check::query_refusal;
use query_exec::{ExecFail, NoRelatives, Relatives};
use query_json::write_chosen;
use query_plan::plan_laws;
use query_related::PlanRelatives;
use record_read::data_laws;
use soql::Query;
use std::alloc::Global;
use store_abstraction::{Layout, call_laws};
use store_kv::{Draft, Keeper, draft_laws};
use store_rows::StoreFail;

// Appends the lines of a plan that may be read, by these relatives.
fn put_lines<K: Keeper, S: Sight, L: Relatives>(
    alloc: Global,
    draft: &mut Draft<'_, K>,
    layout: &Layout,
    sight: &S,
    relatives: &L,
    plan: &CellPlan,
    out: &mut Vec<u8>,
) -> Result<(), StoreFail>
    ensures what { DraftTells K.state draft.old draft.new
        → PutsLines layout.now (seeing (S.sees sight.now layout.now) (L.whose relatives.now layout.now.org)) (L.parents relatives.now)
        plan.now out.old.items out.new.items (tables_of K.state draft.old) result }
    ensures calls { Calls K.state
        (most_shown (S.shown + L.parents_shown relatives.now + L.children_shown relatives.now) (removals_of K.state 7 draft.old))
        (ended result) draft.old draft.new }
{
    call_laws::<K>();
    let form = CellLines {
        cells: plan.cells.as_slice(),
    };
    match write_chosen(
        alloc,
        draft,
        layout,
        sight,
        relatives,
        &plan.choice,
        &form,
        usize::MAX,
        out,
    ) {
        Ok(_count) => Ok(()),
        // No memory holds so many bytes.
        Err(ExecFail::TooLarge) => Err(StoreFail::Memory),
        Err(ExecFail::Store(fail)) => Err(fail),
    }
}

// Appends the lines of a plan that who asks may read. Without branches no layout is looked at.
fn plan_lines<K: Keeper, S: Sight, R: Rights>(
    alloc: Global,
    draft: &mut Draft<'_, K>,
    layouts: &[Layout],
    layout: &Layout,
    sight: &S,
    rights: &R,
    plan: &CellPlan,
    out: &mut Vec<u8>,
) -> Result<(), StoreFail>
    ensures what { DraftTells K.state draft.old draft.new
        → PutsLines layout.now (seeing (S.sees sight.now layout.now) (serves layouts.now layout.now (R.whose rights.now) plan.now))
        (parents_of plan.now.choice.branches) plan.now out.old.items out.new.items (tables_of K.state draft.old) result }
    ensures calls { Calls K.state
        (most_shown (S.shown + readable_shown * length plan.now.choice.branches) (removals_of K.state 7 draft.old))
        (ended result) draft.old draft.new }
{
    draft_laws::<K>();
    let branches = plan.choice.branches.as_slice();
    if branches.is_empty() {
        return put_lines(alloc, draft, layout, sight, &NoRelatives, plan, out);
    }
    let relatives = PlanRelatives {
        rights,
        layouts,
        branches,
        children: &[],
    };
    put_lines(alloc, draft, layout, sight, &relatives, plan, out)
}

/// The lines of a query of the layout's object, of a user with this sight and these rights who asks at this moment, in seconds from
/// 1970-01-01T00:00:00Z: the names that it selects, and the records that it finds; or why it is refused. The layouts are those of all
/// objects; of a flat query none of them is looked at.
///
/// # Errors
///
/// `Keeper` if the keeper failed, `Memory` if out of memory, `Damaged` never if the organisation's rows stand for a tenant whose
/// layouts these are and of whose user this is the sight and these are the rights.
pub fn answer_lines<K: Keeper, S: Sight, R: Rights>(
    alloc: Global,
    draft: &mut Draft<'_, K>,
    layouts: &[Layout],
    layout: &Layout,
    sight: &S,
    rights: &R,
    now: i64,
    query: &Query,
) -> Result<Result<Bytes, Refusal>, StoreFail>
    ensures what { DraftTells K.state draft.old draft.new
        → AnswersLines layouts.now layout.now (S.sees sight.now layout.now) (R.whose rights.now) now query.now
        (tables_of K.state draft.old) result }
    ensures calls { Calls K.state (most_shown (S.shown + row_shown query.now) (removals_of K.state 7 draft.old)) (ended result)
        draft.old draft.new }
{
    draft_laws::<K>();
    call_laws::<K>();
    data_laws();
    object_laws();
    plan_laws();
    record_laws();
    if let Some(refusal) = query_refusal(alloc, layouts, layout, query)? {
        return Ok(Err(refusal));
    }
    let plan = bind_cells(alloc, layouts, layout, day_of_moment(now), query)?;
    let mut text = names_line(alloc, layouts, layout, query)?;
    match plan_lines(
        alloc, draft, layouts, layout, sight, rights, &plan, &mut text,
    ) {
        Ok(()) => Ok(Ok(Bytes::from_vec(text))),
        Err(fail) => Err(fail),
    }
}

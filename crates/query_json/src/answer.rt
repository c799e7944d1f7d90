//! The reply to a query.

ghost use Rattle.std.specs.Prelude.{◌≡◌, ◌+◌, ℕ, List, [], IfErr, IfOk, length};
ghost use Rattle.std.specs.Str.{encode_utf8_all};
ghost use Rattle.query_json.specs.Answers.{AnswersFlat, AnswersRelated, IsAskedOver, IsReadReply, ReadsUnrefused, Refuses, ShowsFlat};
ghost use Rattle.query_json.specs.Planned.{choice_rows, window_of};
ghost use Rattle.query_json.specs.inner.Found.{AnswersPlan};
ghost use Rattle.query_exec.specs.Fails.{ended_exec};
ghost use Rattle.query_exec.specs.Relatives.{by_parents, by_relatives};
ghost use Rattle.query_exec.specs.Written.{ShowsPages, ShowsRecords, WritesRows, most_shown, seeing};
ghost use Rattle.store_kv.specs.Draft.{DraftTells, removals_of, tables_of};
ghost use Rattle.store_rows.specs.declared.fail.StoreFail.TheVariants.{Memory};
ghost use Rattle.model.specs.Replies.{json_reply, unless_too_large};
ghost use Rattle.model.specs.RowsJson.{rows_json};
ghost use Rattle.query_plan.specs.Checks.{takes};
ghost use Rattle.api_output.specs.Rows.{behind_commas};
ghost use Rattle.store_abstraction.specs.Calls.{Calls, ended};
ghost use Rattle.model.specs.Shown.{row_shown};

use crate::ranks::ByKeys;
use crate::rows::JsonRows;
use crate::test::Holding;
use access_traits::{Rights, Sight};
use api_output::{RowFront, rows_body};
use base_value::day_of_moment;
use http::StatusCode;
use model::{REPLY_LIMIT, Refusal, Reply, object_laws, record_laws};
use query_bind::bind;
use query_check::query_refusal;
use query_exec::{
    ExecFail, NoRelatives, Relatives, RowForm, Window, write_rows, write_sorted_rows,
};
use query_plan::{Choice, Plan, plan_laws, rank_laws};
use query_related::PlanRelatives;
use record_read::data_laws;
use soql::Query;
use std::alloc::{AllocError, Global};
use store_abstraction::{Layout, call_laws};
use store_kv::{Draft, Keeper, draft_laws};
use store_rows::StoreFail;

/// The reply that refuses so.
///
/// # Errors
///
/// `Memory` if out of memory.
pub fn refuse(alloc: Global, refusal: Refusal) -> Result<Reply, StoreFail>
    ensures value { Refuses refusal result }
    ensures form { IfOk result IsReadReply }
{
    match refusal.reply(alloc) {
        Ok(reply) => Ok(reply),
        Err(_) => Err(StoreFail::Memory),
    }
}

// The reply that has these rows, unless it is too large.
fn rows_reply(alloc: Global, count: usize, rows: &[u8]) -> Result<Reply, AllocError>
    ensures value { IfOk result (λ r. (texts : List (List ℕ)) → count ≡ length texts → rows.now ≡ encode_utf8_all (behind_commas texts)
        → r ≡ unless_too_large (json_reply 200 (rows_json texts))) }
    ensures form { IfOk result IsReadReply }
{
    let body = rows_body(alloc, count, rows)?;
    if body.as_slice().len() > REPLY_LIMIT {
        Refusal::ReplyTooLarge.reply(alloc)
    } else {
        Ok(Reply {
            status: StatusCode::OK,
            body,
        })
    }
}

/// Appends the rows of a choice that may be read, in this form, and returns how many they are.
///
/// # Errors
///
/// `TooLarge` exactly if they have more bytes than there is room for. `Store` with `Keeper` if the keeper failed, with `Memory` if out
/// of memory, with `Damaged` never if the organisation's rows stand for a tenant whose layout it is, of whose user this is the sight
/// and whose relatives these are. Some rows may then have been appended.
pub fn write_chosen<K: Keeper, S: Sight, L: Relatives, W: RowForm>(
    alloc: Global,
    draft: &mut Draft<'_, K>,
    layout: &Layout,
    sight: &S,
    relatives: &L,
    choice: &Choice,
    form: &W,
    room: usize,
    out: &mut Vec<u8>,
) -> Result<usize, ExecFail>
    ensures what { DraftTells K.state draft.old draft.new
        → WritesRows layout.now (seeing (S.sees sight.now layout.now) (L.whose relatives.now layout.now.org))
        (choice_rows (L.parents relatives.now) choice.now layout.now.object)
        (by_relatives (L.parents relatives.now) (L.children relatives.now) (W.written form.now)) room
        out.old.items out.new.items (tables_of K.state draft.old) result }
    ensures shown { ShowsRecords K.state layout.now (seeing (S.sees sight.now layout.now) (L.whose relatives.now layout.now.org))
        (S.shown + L.parents_shown relatives.now + L.children_shown relatives.now) (ended_exec result) draft.old draft.new }
    ensures calls { Calls K.state
        (most_shown (S.shown + L.parents_shown relatives.now + L.children_shown relatives.now) (removals_of K.state 7 draft.old))
        (ended_exec result) draft.old draft.new }
    // Without keys, no page is read behind the one with the last row that is taken.
    ensures early { choice.now.order ≡ [] → ShowsPages K.state layout.now
        (seeing (S.sees sight.now layout.now) (L.whose relatives.now layout.now.org)) (window_of choice.now)
        (by_parents (L.parents relatives.now) (takes choice.now.check))
        (S.shown + L.parents_shown relatives.now + L.children_shown relatives.now) (ended_exec result) draft.old draft.new }
{
    call_laws::<K>();
    rank_laws();
    let keeps = Holding {
        check: &choice.check,
    };
    let keys = choice.order.as_slice();
    let window = Window {
        skip: choice.skip,
        most: choice.most,
    };
    if keys.is_empty() {
        write_rows(
            alloc, draft, layout, sight, relatives, &keeps, form, window, room, out,
        )
    } else {
        let ranks = ByKeys { keys };
        write_sorted_rows(
            alloc, draft, layout, sight, relatives, &keeps, &ranks, form, window, room, out,
        )
    }
}

// The reply that has the rows of a plan.
fn answer_plan<K: Keeper, S: Sight, L: Relatives>(
    alloc: Global,
    draft: &mut Draft<'_, K>,
    layout: &Layout,
    sight: &S,
    relatives: &L,
    plan: &Plan,
) -> Result<Reply, StoreFail>
    ensures what { DraftTells K.state draft.old draft.new
        → AnswersPlan layout.now (seeing (S.sees sight.now layout.now) (L.whose relatives.now layout.now.org))
        (L.parents relatives.now) (L.children relatives.now) plan.now (tables_of K.state draft.old) result }
    ensures form { IfOk result IsReadReply }
    ensures shown { ShowsRecords K.state layout.now (seeing (S.sees sight.now layout.now) (L.whose relatives.now layout.now.org))
        (S.shown + L.parents_shown relatives.now + L.children_shown relatives.now) (ended result) draft.old draft.new }
    ensures calls { Calls K.state
        (most_shown (S.shown + L.parents_shown relatives.now + L.children_shown relatives.now) (removals_of K.state 7 draft.old))
        (ended result) draft.old draft.new }
{
    call_laws::<K>();
    let front = RowFront::new(alloc, layout.name.as_str())?;
    let form = JsonRows {
        front: &front,
        shown: plan.shown.as_slice(),
    };
    let mut rows = Vec::new(alloc);
    match write_chosen(
        alloc,
        draft,
        layout,
        sight,
        relatives,
        &plan.choice,
        &form,
        REPLY_LIMIT,
        &mut rows,
    ) {
        Ok(count) => match rows_reply(alloc, count, rows.as_slice()) {
            Ok(reply) => Ok(reply),
            Err(_) => Err(StoreFail::Memory),
        },
        Err(ExecFail::TooLarge) => refuse(alloc, Refusal::ReplyTooLarge),
        Err(ExecFail::Store(fail)) => Err(fail),
    }
}

/// The reply to a query over one object, of a user with this sight who asks at this moment, in seconds from 1970-01-01T00:00:00Z.
///
/// # Errors
///
/// `Keeper` if the keeper failed, `Memory` if out of memory, `Damaged` never if the organisation's rows stand for a tenant whose
/// layout it is and of whose user this is the sight.
pub fn answer_flat<K: Keeper, S: Sight>(
    alloc: Global,
    draft: &mut Draft<'_, K>,
    layout: &Layout,
    sight: &S,
    now: i64,
    query: &Query,
) -> Result<Reply, StoreFail>
    ensures what { DraftTells K.state draft.old draft.new
        → AnswersFlat layout.now (S.sees sight.now layout.now) now query.now (tables_of K.state draft.old) result }
    ensures form { IfOk result IsReadReply }
    // Each record of the object is shown once at most, with what tells whether it may be read, as long as the draft removes none, and
    // none if the query is refused.
    ensures shown { ShowsFlat K.state layout.now (S.sees sight.now layout.now) now query.now S.shown (ended result) draft.old draft.new }
    ensures calls { Calls K.state (most_shown S.shown (removals_of K.state 7 draft.old)) (ended result) draft.old draft.new }
{
    call_laws::<K>();
    data_laws();
    object_laws();
    plan_laws();
    record_laws();
    if let Some(refusal) = query_refusal(alloc, &[], layout, query)? {
        return refuse(alloc, refusal);
    }
    let plan = bind(alloc, &[], layout, day_of_moment(now), query)?;
    answer_plan(alloc, draft, layout, sight, &NoRelatives, &plan)
}

/// The reply to any query, of a user with this sight and these rights who asks at this moment, in seconds from 1970-01-01T00:00:00Z.
/// The layouts are those of all objects.
///
/// # Errors
///
/// `Keeper` if the keeper failed, `Memory` if out of memory, `Damaged` never if the organisation's rows stand for a tenant whose
/// layouts these are and of whose user this is the sight and these are the rights.
pub fn answer_related<K: Keeper, S: Sight, R: Rights>(
    alloc: Global,
    draft: &mut Draft<'_, K>,
    layouts: &[Layout],
    layout: &Layout,
    sight: &S,
    rights: &R,
    now: i64,
    query: &Query,
) -> Result<Reply, StoreFail>
    ensures what { DraftTells K.state draft.old draft.new
        → AnswersRelated layouts.now layout.now (S.sees sight.now layout.now) (R.whose rights.now) now query.now
        (tables_of K.state draft.old) result }
    ensures form { IfOk result IsReadReply }
    // Each record of the object is shown once at most, with what tells whether it may be read, its parents and its children.
    ensures calls { Calls K.state (most_shown (S.shown + row_shown query.now) (removals_of K.state 7 draft.old)) (ended result)
        draft.old draft.new }
    // A query that is refused is shown no data row.
    ensures refused { ReadsUnrefused K.state layout.now (IsAskedOver layouts.now layout.now (S.sees sight.now layout.now)
        (R.whose rights.now) now query.now (tables_of K.state draft.old)) query.now draft.old draft.new }
{
    draft_laws::<K>();
    call_laws::<K>();
    data_laws();
    object_laws();
    plan_laws();
    record_laws();
    if let Some(refusal) = query_refusal(alloc, layouts, layout, query)? {
        return refuse(alloc, refusal);
    }
    let plan = bind(alloc, layouts, layout, day_of_moment(now), query)?;
    let relatives = PlanRelatives {
        rights,
        layouts,
        branches: plan.choice.branches.as_slice(),
        children: plan.children.as_slice(),
    };
    answer_plan(alloc, draft, layout, sight, &relatives, &plan)
}

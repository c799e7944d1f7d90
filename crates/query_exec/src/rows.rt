//! Rows without ORDER BY: written as they come.

ghost use Rattle.std.specs.Prelude.{◌+◌};
ghost use Rattle.query_exec.specs.Fails.{ended_exec};
ghost use Rattle.query_exec.specs.Relatives.{by_parents, by_relatives};
ghost use Rattle.query_exec.specs.Written.{ShowsPages, ShowsRecords, WritesRows, most_shown, rows_kept, seeing};
ghost use Rattle.store_kv.specs.Draft.{DraftTells, removals_of, tables_of};
ghost use Rattle.store_abstraction.specs.Calls.{Calls};

use crate::asked::{Keeps, RowForm};
use crate::fail::ExecFail;
use crate::offers::{Progress, offer_rows};
use crate::pages::first_pages;
use crate::permitted::next_permitted;
use crate::ranked::Unranked;
use crate::relatives::Relatives;
use crate::window::Window;
use access_traits::Sight;
use record_read::{data_laws, has_types};
use std::alloc::Global;
use store_abstraction::{Layout, call_laws};
use store_kv::{Draft, Keeper, draft_laws};
use store_rows::StoreFail;

/// Appends the rows of an object's records that may be read and are kept, in the order of their ids, as far as the window takes them,
/// and returns how many they are. It has one page of rows in memory, and reads none behind the last row.
///
/// # Errors
///
/// `TooLarge` if the rows have more bytes than there is room for; `Keeper` if the keeper failed, `Memory` if out of memory,
/// `Damaged` never if the organisation's rows stand for a tenant whose layout it is, of whose user this is the sight, and whose
/// relatives these are. What was appended before is still there.
pub fn write_rows<K: Keeper, S: Sight, L: Relatives, P: Keeps, W: RowForm>(
    alloc: Global,
    draft: &mut Draft<'_, K>,
    layout: &Layout,
    sight: &S,
    relatives: &L,
    keeps: &P,
    form: &W,
    window: Window,
    room: usize,
    out: &mut Vec<u8>,
) -> Result<usize, ExecFail>
    ensures what { DraftTells K.state draft.old draft.new
        → WritesRows layout.now (seeing (S.sees sight.now layout.now) (L.whose relatives.now layout.now.org))
        (rows_kept window (by_parents (L.parents relatives.now) (P.keep keeps.now)) layout.now.object)
        (by_relatives (L.parents relatives.now) (L.children relatives.now) (W.written form.now)) room
        out.old.items out.new.items (tables_of K.state draft.old) result }
    // Each record is shown once, with what tells whether it may be read and its relatives, as long as the draft removes none.
    ensures shown { ShowsRecords K.state layout.now (seeing (S.sees sight.now layout.now) (L.whose relatives.now layout.now.org))
        (S.shown + L.parents_shown relatives.now + L.children_shown relatives.now) (ended_exec result) draft.old draft.new }
    ensures calls { Calls K.state
        (most_shown (S.shown + L.parents_shown relatives.now + L.children_shown relatives.now) (removals_of K.state 7 draft.old))
        (ended_exec result) draft.old draft.new }
    // No page is read behind the one with the last row that is taken.
    ensures early { ShowsPages K.state layout.now (seeing (S.sees sight.now layout.now) (L.whose relatives.now layout.now.org))
        window (by_parents (L.parents relatives.now) (P.keep keeps.now))
        (S.shown + L.parents_shown relatives.now + L.children_shown relatives.now) (ended_exec result) draft.old draft.new }
{
    draft_laws::<K>();
    call_laws::<K>();
    data_laws();
    if !has_types(layout) {
        return Err(ExecFail::Store(StoreFail::Damaged));
    }
    let mut progress = Progress {
        window,
        room,
        count: 0,
    };
    let mut pages = first_pages();
    'pages: while pages.left > 0 && !progress.window.is_over() {
        let mut rows = Vec::new(alloc);
        next_permitted(
            alloc, draft, layout, sight, relatives, keeps, &Unranked, &mut pages, &mut rows,
        )?;
        offer_rows(
            alloc,
            draft,
            layout,
            relatives,
            form,
            rows.as_slice(),
            &mut progress,
            out,
        )?;
    }
    Ok(progress.count)
}

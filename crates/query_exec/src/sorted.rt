//! Rows with ORDER BY: gathered, sorted, and written.

ghost use Rattle.std.specs.Prelude.{◌≡◌, ◌≤◌, ◌+◌, IsTrue, length};
ghost use Rattle.record_read.specs.Decoding.{has_types};
ghost use Rattle.query_exec.specs.Fails.{ended_exec};
ghost use Rattle.query_exec.specs.Ranks.{SortsRanked, by_rank};
ghost use Rattle.query_exec.specs.Relatives.{by_parents, by_relatives};
ghost use Rattle.query_exec.specs.Written.{ShowsRecords, WritesRows, most_shown, rows_sorted, seeing};
ghost use Rattle.query_exec.specs.inner.Gathering.{CutsRows, FindsAll, ReadsAll};
ghost use Rattle.query_exec.specs.inner.Judging.{judging};
ghost use Rattle.store_kv.specs.Draft.{DraftTells, removals_of, tables_of};
ghost use Rattle.store_abstraction.specs.Calls.{Calls};

use crate::asked::{Keeps, RowForm};
use crate::candidates::Candidate;
use crate::fail::ExecFail;
use crate::offers::{Progress, offer_rows};
use crate::pages::{PAGE, first_pages};
use crate::permitted::next_permitted;
use crate::ranked::{Ranked, Ranks};
use crate::relatives::Relatives;
use crate::window::Window;
use access_traits::Sight;
use model::record_laws;
use record_read::{data_laws, has_types};
use std::alloc::Global;
use store_abstraction::{Layout, call_laws};
use store_kv::{Draft, Keeper, draft_laws};
use store_rows::StoreFail;

// If only so many rows are wanted, and many more were gathered, puts these in order and drops the others.
fn cut<R: Ord + Drop, X: Drop>(gathered: &mut Vec<Ranked<R, X>>, wanted: Option<usize>)
    ensures cuts { CutsRows R.cmp wanted gathered.old.items gathered.new.items }
    ensures long { length gathered.new.items ≤ length gathered.old.items }
{
    if let Some(most) = wanted {
        if gathered.len() > PAGE && gathered.len() / 2 > most {
            put_in_order(gathered);
            gathered.truncate(most);
        }
    }
}

// The rows of all records of an object that may be read and are kept, with the records of their parents and their ranks; if only so many
// are wanted, these at least, and as many more as a page has or twice as many.
fn gather_all<K: Keeper, S: Sight, L: Relatives, P: Keeps, R: Ranks>(
    alloc: Global,
    draft: &mut Draft<'_, K>,
    layout: &Layout,
    sight: &S,
    relatives: &L,
    keeps: &P,
    ranks: &R,
    wanted: Option<usize>,
) -> Result<Vec<Ranked<R::Rank, Candidate>>, StoreFail>
    requires { IsTrue (has_types layout.now) }
    ensures what { DraftTells K.state draft.old draft.new
        → FindsAll layout.now (judging (S.sees sight.now layout.now) (L.whose relatives.now layout.now.org)
        (L.parents relatives.now) (P.keep keeps.now) (R.ranked ranks.now)) R.Rank.cmp wanted (tables_of K.state draft.old) result }
    ensures reads { ReadsAll layout.now (judging (S.sees sight.now layout.now) (L.whose relatives.now layout.now.org)
        (L.parents relatives.now) (P.keep keeps.now) (R.ranked ranks.now)) K.state
        (S.shown + L.parents_shown relatives.now) draft.old draft.new result }
{
    draft_laws::<K>();
    call_laws::<K>();
    let mut gathered = Vec::new(alloc);
    let mut pages = first_pages();
    'pages: while pages.left > 0 {
        next_permitted(
            alloc,
            draft,
            layout,
            sight,
            relatives,
            keeps,
            ranks,
            &mut pages,
            &mut gathered,
        )?;
        cut(&mut gathered, wanted);
    }
    Ok(gathered)
}

/// Puts rows in the order of their ranks, and of their ids where ranks tie. No two of them have one id.
pub fn put_in_order<R: Ord, X>(gathered: &mut Vec<Ranked<R, X>>)
    ensures sorts { SortsRanked R.cmp gathered.old.items gathered.new.items }
    ensures long { length gathered.new.items ≡ length gathered.old.items }
{
    gathered.sort_unstable();
}

/// Appends the rows of an object's records that may be read and are kept, in the order of their ranks and then of their ids, as far as
/// the window takes them, and returns how many they are. It has all these rows in memory, or with LIMIT
/// 251 more than twice as many as OFFSET and LIMIT together, or two pages of 250.
///
/// # Errors
///
/// As `write_rows`.
pub fn write_sorted_rows<K: Keeper, S: Sight, L: Relatives, P: Keeps, R: Ranks, W: RowForm>(
    alloc: Global,
    draft: &mut Draft<'_, K>,
    layout: &Layout,
    sight: &S,
    relatives: &L,
    keeps: &P,
    ranks: &R,
    form: &W,
    window: Window,
    room: usize,
    out: &mut Vec<u8>,
) -> Result<usize, ExecFail>
    ensures what { DraftTells K.state draft.old draft.new
        → WritesRows layout.now (seeing (S.sees sight.now layout.now) (L.whose relatives.now layout.now.org))
        (rows_sorted window (λ a. by_rank R.Rank.cmp (by_parents (L.parents relatives.now) (R.ranked ranks.now) a))
        (by_parents (L.parents relatives.now) (P.keep keeps.now)) layout.now.object)
        (by_relatives (L.parents relatives.now) (L.children relatives.now) (W.written form.now)) room
        out.old.items out.new.items (tables_of K.state draft.old) result }
    // Each record is shown once, with what tells whether it may be read and its relatives, as long as the draft removes none.
    ensures shown { ShowsRecords K.state layout.now (seeing (S.sees sight.now layout.now) (L.whose relatives.now layout.now.org))
        (S.shown + L.parents_shown relatives.now + L.children_shown relatives.now) (ended_exec result) draft.old draft.new }
    ensures calls { Calls K.state
        (most_shown (S.shown + L.parents_shown relatives.now + L.children_shown relatives.now) (removals_of K.state 7 draft.old))
        (ended_exec result) draft.old draft.new }
{
    record_laws();
    draft_laws::<K>();
    call_laws::<K>();
    if window.is_over() {
        return Ok(0);
    }
    data_laws();
    if !has_types(layout) {
        return Err(ExecFail::Store(StoreFail::Damaged));
    }
    let mut gathered = gather_all(
        alloc,
        draft,
        layout,
        sight,
        relatives,
        keeps,
        ranks,
        window.wanted(),
    )?;
    put_in_order(&mut gathered);
    let mut progress = Progress {
        window,
        room,
        count: 0,
    };
    offer_rows(
        alloc,
        draft,
        layout,
        relatives,
        form,
        gathered.as_slice(),
        &mut progress,
        out,
    )?;
    Ok(progress.count)
}

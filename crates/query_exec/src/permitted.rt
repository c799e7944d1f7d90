//! Of an object's rows those whose records may be read and are kept, page by page.

ghost use Rattle.std.specs.Prelude.{◌≡◌, ◌≤◌, ◌<◌, ◌+◌, ◌*◌, IsTrue, OnOk, Some, length};
ghost use Rattle.record_read.specs.Decoding.{has_types};
ghost use Rattle.query_exec.specs.Relatives.{FindsOfSeen};
ghost use Rattle.query_exec.specs.Seen.{seen_record};
ghost use Rattle.query_exec.specs.inner.Judging.{RanksKept, judged, judging};
ghost use Rattle.query_exec.specs.inner.Permitted.{AdmitsRow, AdmitsRows, PutsBehind, TurnsPage};
ghost use Rattle.store_kv.specs.Draft.{DraftTells, tables_of};
ghost use Rattle.model.specs.declared.record.Record.{Record};
ghost use Rattle.access_traits.specs.Rights.{kept_record};
ghost use Rattle.store_abstraction.specs.Calls.{Calls, ended};

use crate::asked::Keeps;
use crate::candidates::Candidate;
use crate::pages::{Pages, next_page};
use crate::ranked::{Ranked, Ranks};
use crate::relatives::Relatives;
use crate::seen::SeenRecord;
use access_traits::Sight;
use base_value::{Id, Items};
use model::Record;
use std::alloc::Global;
use store_abstraction::{Layout, call_laws};
use store_codec::CodecFail;
use store_kv::{Draft, Keeper, KeptRow, draft_laws};
use store_rows::StoreFail;

// The rank and the id of a row's record, if it is kept.
fn rank_kept<P: Keeps, R: Ranks>(
    alloc: Global,
    keeps: &P,
    ranks: &R,
    item: &SeenRecord<'_>,
    parents: &[Option<Record>],
) -> Result<Option<(R::Rank, Id)>, CodecFail>
    ensures { (r : Record) → seen_record item.now ≡ Some r
        → RanksKept (P.keep keeps.now parents.now) (R.ranked ranks.now parents.now) r result }
{
    if keeps.keeps(alloc, item, parents)? {
        let rank = ranks.rank_of(alloc, item, parents)?;
        Ok(Some((rank, item.id())))
    } else {
        Ok(None)
    }
}

// The rank and the id of a row's record, and the records of its parents, if it is kept.
fn judge_row<K: Keeper, L: Relatives, P: Keeps, R: Ranks>(
    alloc: Global,
    draft: &mut Draft<'_, K>,
    layout: &Layout,
    relatives: &L,
    keeps: &P,
    ranks: &R,
    row: &KeptRow,
) -> Result<Option<(R::Rank, (Id, Items<Option<Record>>))>, StoreFail>
    requires { IsTrue (has_types layout.now) }
    ensures finds { DraftTells K.state draft.old draft.new
        → FindsOfSeen layout.now (L.whose relatives.now) (kept_record layout.now row.now)
        (judged (P.keep keeps.now) (R.ranked ranks.now) (L.parents relatives.now)) (tables_of K.state draft.old) result }
    ensures calls { Calls K.state (L.parents_shown relatives.now) (ended result) draft.old draft.new }
{
    draft_laws::<K>();
    call_laws::<K>();
    let item = SeenRecord::of(layout, row)?;
    let parents = relatives.parents_of(alloc, draft, layout, &item)?;
    match rank_kept(alloc, keeps, ranks, &item, parents.as_slice())? {
        Some((rank, id)) => Ok(Some((rank, (id, parents)))),
        None => Ok(None),
    }
}

// Puts a row behind the others, with what was found of its record.
fn put_behind<T: Drop>(
    kept: &mut Vec<Ranked<T, Candidate>>,
    row: KeptRow,
    found: (T, (Id, Items<Option<Record>>)),
) -> Result<(), StoreFail>
    ensures puts { PutsBehind row found kept.old.items kept.new.items result }
    ensures sized { length kept.new.items ≤ length kept.old.items + 1 }
{
    let (rank, (id, parents)) = found;
    match kept.push(Ranked {
        rank,
        id,
        kept: Candidate { kept: row, parents },
    }) {
        Ok(()) => Ok(()),
        Err(_) => Err(StoreFail::Memory),
    }
}

// A row, which is put behind the others if its record may be read and is kept.
fn admit_row<K: Keeper, S: Sight, L: Relatives, P: Keeps, R: Ranks>(
    alloc: Global,
    draft: &mut Draft<'_, K>,
    layout: &Layout,
    sight: &S,
    relatives: &L,
    keeps: &P,
    ranks: &R,
    row: KeptRow,
    kept: &mut Vec<Ranked<R::Rank, Candidate>>,
) -> Result<(), StoreFail>
    requires { IsTrue (has_types layout.now) }
    ensures admits { DraftTells K.state draft.old draft.new
        → AdmitsRow layout.now (judging (S.sees sight.now layout.now) (L.whose relatives.now layout.now.org)
        (L.parents relatives.now) (P.keep keeps.now) (R.ranked ranks.now)) row
        kept.old.items kept.new.items (tables_of K.state draft.old) result }
    ensures sized { length kept.new.items ≤ length kept.old.items + 1 }
    ensures calls { Calls K.state (S.shown + L.parents_shown relatives.now) (ended result) draft.old draft.new }
{
    draft_laws::<K>();
    call_laws::<K>();
    if sight.may_read(alloc, draft, layout, &row)? {
        match judge_row(alloc, draft, layout, relatives, keeps, ranks, &row)? {
            Some(found) => put_behind(kept, row, found),
            None => Ok(()),
        }
    } else {
        Ok(())
    }
}

// Rows, of which those are put behind the others whose records may be read and are kept.
fn admit_rows<K: Keeper, S: Sight, L: Relatives, P: Keeps, R: Ranks>(
    alloc: Global,
    draft: &mut Draft<'_, K>,
    layout: &Layout,
    sight: &S,
    relatives: &L,
    keeps: &P,
    ranks: &R,
    rows: Vec<KeptRow>,
    kept: &mut Vec<Ranked<R::Rank, Candidate>>,
) -> Result<(), StoreFail>
    requires { IsTrue (has_types layout.now) }
    ensures admits { DraftTells K.state draft.old draft.new
        → AdmitsRows layout.now (judging (S.sees sight.now layout.now) (L.whose relatives.now layout.now.org)
        (L.parents relatives.now) (P.keep keeps.now) (R.ranked ranks.now)) rows.items
        kept.old.items kept.new.items (tables_of K.state draft.old) result }
    ensures sized { OnOk result (length kept.new.items ≤ length kept.old.items + length rows.items) }
    ensures calls { Calls K.state ((S.shown + L.parents_shown relatives.now) * length rows.items) (ended result) draft.old draft.new }
{
    draft_laws::<K>();
    call_laws::<K>();
    for row in rows {
        admit_row(
            alloc, draft, layout, sight, relatives, keeps, ranks, row, kept,
        )?;
    }
    Ok(())
}

/// Puts the rows of the next page whose records may be read and are kept behind the others, each with the records of its parents and
/// its rank.
///
/// # Errors
///
/// `Keeper` if the keeper failed, `Memory` if out of memory, `Damaged` never if the organisation's rows stand for a tenant whose
/// layout it is and of whose user this is the sight, and these are the relatives.
pub(crate) fn next_permitted<K: Keeper, S: Sight, L: Relatives, P: Keeps, R: Ranks>(
    alloc: Global,
    draft: &mut Draft<'_, K>,
    layout: &Layout,
    sight: &S,
    relatives: &L,
    keeps: &P,
    ranks: &R,
    pages: &mut Pages,
    kept: &mut Vec<Ranked<R::Rank, Candidate>>,
) -> Result<(), StoreFail>
    requires left { 0 < pages.old.left }
    requires typed { IsTrue (has_types layout.now) }
    ensures turns { TurnsPage layout.now (judging (S.sees sight.now layout.now) (L.whose relatives.now layout.now.org)
        (L.parents relatives.now) (P.keep keeps.now) (R.ranked ranks.now)) K.state
        (S.shown + L.parents_shown relatives.now) pages.old pages.new
        kept.old.items kept.new.items draft.old draft.new result }
    ensures less { OnOk result (pages.new.left < pages.old.left) }
{
    draft_laws::<K>();
    call_laws::<K>();
    match next_page(alloc, draft, layout, pages) {
        Ok(rows) => admit_rows(
            alloc, draft, layout, sight, relatives, keeps, ranks, rows, kept,
        ),
        Err(fail) => Err(fail),
    }
}

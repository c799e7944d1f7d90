//! Rows offered one after the other, of which some are written.

ghost use Rattle.std.specs.Prelude.{◌≡◌, ◌+◌, ◌*◌, ◌∷◌, [], Err, IfOk, IsTrue, List, Some, length};
ghost use Rattle.record_read.specs.Decoding.{has_types};
ghost use Rattle.query_exec.specs.Fails.{ended_exec};
ghost use Rattle.query_exec.specs.Relatives.{by_relatives};
ghost use Rattle.query_exec.specs.Seen.{seen_record};
ghost use Rattle.query_exec.specs.inner.Judging.{IsOf, OfOne, OfRows};
ghost use Rattle.query_exec.specs.inner.Offers.{Appends, Offered, Written};
ghost use Rattle.store_kv.specs.Draft.{DraftTells, tables_of};
ghost use Rattle.store_rows.specs.declared.fail.StoreFail.TheVariants.{Keeper, Memory};
ghost use Rattle.model.specs.declared.record.Record.{Record};
ghost use Rattle.store_abstraction.specs.Calls.{Calls};

use crate::asked::RowForm;
use crate::candidates::Candidate;
use crate::fail::ExecFail;
use crate::ranked::Ranked;
use crate::relatives::Relatives;
use crate::seen::SeenRecord;
use crate::window::Window;
use base_value::Items;
use model::Record;
use query_plan::Child;
use std::alloc::Global;
use store_abstraction::{Layout, call_laws};
use store_kv::{Draft, Keeper, draft_laws};
use store_rows::StoreFail;

/// How far rows were written.
#[derive(Clone, Copy)]
pub(crate) struct Progress {
    /// Which rows are still to be taken.
    pub window: Window,
    /// How many bytes there is room for.
    pub room: usize,
    /// How many rows were written.
    pub count: usize,
}

// Appends a row, and returns how many bytes there is room for behind it.
fn append_row<W: RowForm>(
    alloc: Global,
    form: &W,
    item: &SeenRecord<'_>,
    parents: &[Option<Record>],
    children: &[Items<Child>],
    room: usize,
    out: &mut Vec<u8>,
) -> Result<usize, ExecFail>
    ensures appends { (r : Record) → seen_record item.now ≡ Some r
        → Appends (W.written form.now parents.now children.now r) room out.old.items out.new.items result }
    ensures keeper { result ≡ Err (ExecFail.Store Keeper) → ⊥ }
{
    let before = out.len();
    form.write(alloc, item, parents, children, out)?;
    let size = out.len().saturating_sub(before);
    if size <= room {
        Ok(room - size)
    } else {
        Err(ExecFail::TooLarge)
    }
}

// One more. There are never so many that they can't be counted.
fn one_more(count: usize) -> Result<usize, ExecFail>
    ensures next { IfOk result (λ n. n ≡ count + 1) }
    ensures memory { (e : ExecFail) → result ≡ Err e → e ≡ ExecFail.Store Memory }
{
    match count.checked_add(1) {
        Some(next) => Ok(next),
        None => Err(ExecFail::Store(StoreFail::Memory)),
    }
}

// A row that the window admitted, which is written.
fn write_row<W: RowForm>(
    alloc: Global,
    form: &W,
    item: &SeenRecord<'_>,
    parents: &[Option<Record>],
    children: &[Items<Child>],
    progress: &mut Progress,
    out: &mut Vec<u8>,
) -> Result<(), ExecFail>
    ensures written { (r : Record) → seen_record item.now ≡ Some r
        → Written (W.written form.now parents.now children.now r) progress.old progress.new out.old.items out.new.items result }
    ensures keeper { result ≡ Err (ExecFail.Store Keeper) → ⊥ }
{
    progress.room = append_row(alloc, form, item, parents, children, progress.room, out)?;
    progress.count = one_more(progress.count)?;
    Ok(())
}

// A row of the window: its children are fetched, and it is written.
fn take_row<K: Keeper, L: Relatives, W: RowForm>(
    alloc: Global,
    draft: &mut Draft<'_, K>,
    layout: &Layout,
    relatives: &L,
    form: &W,
    row: &Candidate,
    progress: &mut Progress,
    out: &mut Vec<u8>,
) -> Result<(), ExecFail>
    requires { IsTrue (has_types layout.now) }
    ensures written { DraftTells K.state draft.old draft.new
        → OfOne layout.now (L.whose relatives.now layout.now.org) (λ a. IsOf layout.now (L.parents relatives.now a)) row.now
        (tables_of K.state draft.old)
        (λ a r. Written (by_relatives (L.parents relatives.now) (L.children relatives.now) (W.written form.now) a r)
        progress.old progress.new out.old.items out.new.items result) }
    ensures calls { Calls K.state (L.children_shown relatives.now) (ended_exec result) draft.old draft.new }
{
    call_laws::<K>();
    draft_laws::<K>();
    let item = SeenRecord::of(layout, &row.kept)?;
    let children = relatives.children_of(alloc, draft, layout, &item)?;
    write_row(
        alloc,
        form,
        &item,
        row.parents.as_slice(),
        children.as_slice(),
        progress,
        out,
    )
}

// A row, which is written if the window admits it.
fn offer_row<K: Keeper, L: Relatives, W: RowForm>(
    alloc: Global,
    draft: &mut Draft<'_, K>,
    layout: &Layout,
    relatives: &L,
    form: &W,
    row: &Candidate,
    progress: &mut Progress,
    out: &mut Vec<u8>,
) -> Result<(), ExecFail>
    requires { IsTrue (has_types layout.now) }
    ensures offered { DraftTells K.state draft.old draft.new
        → OfOne layout.now (L.whose relatives.now layout.now.org) (λ a. IsOf layout.now (L.parents relatives.now a)) row.now
        (tables_of K.state draft.old)
        (λ a r. Offered (by_relatives (L.parents relatives.now) (L.children relatives.now) (W.written form.now) a)
        progress.old progress.new out.old.items out.new.items (r ∷ []) result) }
    ensures calls { Calls K.state (L.children_shown relatives.now) (ended_exec result) draft.old draft.new }
{
    call_laws::<K>();
    draft_laws::<K>();
    if progress.window.admits() {
        take_row(alloc, draft, layout, relatives, form, row, progress, out)
    } else {
        Ok(())
    }
}

/// Rows that are offered one after the other. Once no row is taken any more, no further one is looked at.
///
/// # Errors
///
/// `TooLarge` if the rows have more bytes than there is room for, `Keeper` if the keeper failed, `Memory` if out of memory, `Damaged`
/// never if the rows are of records of a tenant for which the organisation's rows stand and of whose user the relatives are.
pub(crate) fn offer_rows<K: Keeper, L: Relatives, W: RowForm, T: Drop>(
    alloc: Global,
    draft: &mut Draft<'_, K>,
    layout: &Layout,
    relatives: &L,
    form: &W,
    rows: &[Ranked<T, Candidate>],
    progress: &mut Progress,
    out: &mut Vec<u8>,
) -> Result<(), ExecFail>
    requires { IsTrue (has_types layout.now) }
    ensures offered { DraftTells K.state draft.old draft.new
        → OfRows layout.now (L.whose relatives.now layout.now.org) (λ a row. IsOf layout.now (L.parents relatives.now a) row.kept) rows.now
        (tables_of K.state draft.old)
        (λ a page. Offered (by_relatives (L.parents relatives.now) (L.children relatives.now) (W.written form.now) a)
        progress.old progress.new out.old.items out.new.items page result) }
    ensures calls { Calls K.state (L.children_shown relatives.now * length rows.now) (ended_exec result) draft.old draft.new }
{
    call_laws::<K>();
    draft_laws::<K>();
    let mut left = rows;
    'rows: while let Some((row, more)) = left.split_first() {
        if progress.window.is_over() {
            return Ok(());
        }
        offer_row(
            alloc, draft, layout, relatives, form, &row.kept, progress, out,
        )?;
        left = more;
    }
    Ok(())
}

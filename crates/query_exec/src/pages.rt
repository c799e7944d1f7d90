//! The rows of an object's records, page by page.

ghost use Rattle.std.specs.Prelude.{◌≡◌, ◌+◌, ◌++◌, ◌<◌, IfOk, IfSome, IsTrue, take};
ghost use Rattle.std.specs.Option.{option_map};
ghost use Rattle.query_exec.specs.inner.Reading.{FindsPage, KeepsPage, ReadsPage, id_in, last_of, pages_left};
ghost use Rattle.store_kv.specs.Draft.{DraftTells, removals_of, tables_of};
ghost use Rattle.store_kv.specs.Prefixes.{raised};
ghost use Rattle.store_kv.specs.State.{seen};
ghost use Rattle.store_rows.specs.Keys.{record_key};
ghost use Rattle.store_rows.specs.Listings.{rows_to, start_of};
ghost use Rattle.store_codec.specs.Plain.{number16, number32};
ghost use Rattle.store_codec.specs.Shapes.{Both, FitsIn, Number16, Number32, spelled};
ghost use Rattle.store_abstraction.specs.Calls.{Calls, ended};
ghost use Rattle.base_value.specs.Id.{is_id};

use base_value::{Bytes, Id, id_laws};
use model::record_laws;
use record_read::data_laws;
use std::alloc::{AllocError, Global};
use store_abstraction::{Layout, local_laws};
use store_codec::{shape_laws, spelling_of};
use store_kv::{Draft, Keeper, KeptRow, next_key, prefix_ends, walk_laws};
use store_rows::{DataRow, StoreFail, listing_laws, table_laws};
use store_view::RowView;

// The table of data rows.
const DATA: u8 = 7;

/// How many rows are read at a time.
pub(crate) const PAGE: usize = 250;

// As many pages have the most records that an object may have.
const PAGES: usize = 80;

/// Where reading goes on.
#[derive(Clone, Copy)]
pub(crate) struct Pages {
    /// Behind the record with this id, or at the first.
    pub after: Option<Id>,
    /// For so many pages at most.
    pub left: usize,
}

/// From the first record on.
pub(crate) fn first_pages() -> Pages
    ensures { result ≡ record { after = None; left = 80 } }
{
    Pages {
        after: None,
        left: PAGES,
    }
}

// The key of a record's row.
fn key_of(org: u32, object: u16, id: &Id) -> (u32, (u16, Id))
    ensures is { result ≡ (org, (object, id.now)) }
    ensures fits { FitsIn record_key (org, (object, id.now)) }
{
    // That these are an id's characters.
    let _ = id.as_bytes();
    (org, (object, *id))
}

// Where a page begins: at the first key of an object, or above a record's.
fn start(
    alloc: Global,
    org: u32,
    object: u16,
    first: Bytes,
    after: Option<&Id>,
) -> Result<Bytes, AllocError>
    ensures { IfOk result (λ b. b ≡ start_of first (option_map (λ id. spelled record_key (org, (object, id.now))) after.entry)) }
{
    match after {
        None => Ok(first),
        Some(id) => {
            let key = key_of(org, object, id);
            next_key(alloc, spelling_of(alloc, &key)?.as_slice())
        }
    }
}

// That what is after is an id.
fn is_after_id(after: Option<&Id>)
    ensures { IfSome after.entry (λ id. IsTrue (is_id id.now)) }
{
    if let Some(id) = after {
        let _ = id.as_bytes();
    }
}

// A page of an object's rows, in the order of their keys: the first, or those after an id's.
fn rows_after<K: Keeper>(
    alloc: Global,
    draft: &mut Draft<'_, K>,
    org: u32,
    object: u16,
    after: Option<&Id>,
) -> Result<Vec<KeptRow>, StoreFail>
    ensures rows { DraftTells K.state draft.old draft.new
        → KeepsPage (take 250 (rows_to (tables_of K.state draft.old) 7
        (start_of (number32 org ++ number16 object) (option_map (λ id. spelled record_key (org, (object, id.now))) after.entry))
        (raised (number32 org ++ number16 object)))) result }
    ensures fits { FitsIn (Both Number32 Number16) (org, object) }
    ensures calls { Calls K.state (seen 250 result + removals_of K.state 7 draft.old) (ended result) draft.old draft.new }
{
    let prefix = spelling_of(alloc, &(org, object))?;
    let Some((from, below)) = prefix_ends(alloc, prefix.as_slice())? else {
        return Ok(Vec::new(alloc));
    };
    let from = start(alloc, org, object, from, after)?;
    Ok(draft.scan(alloc, DATA, from.as_slice(), below.as_slice(), PAGE)?)
}

// A page of the rows of a layout's object: the first, or the rows after an id's.
fn page_after<K: Keeper>(
    alloc: Global,
    draft: &mut Draft<'_, K>,
    layout: &Layout,
    after: Option<&Id>,
) -> Result<Vec<KeptRow>, StoreFail>
    ensures page { DraftTells K.state draft.old draft.new
        → FindsPage layout.now (option_map (λ id. id.now) after.entry) (tables_of K.state draft.old) result }
    ensures calls { Calls K.state (seen 250 result + removals_of K.state 7 draft.old) (ended result) draft.old draft.new }
{
    listing_laws::<DataRow>();
    table_laws();
    shape_laws();
    walk_laws();
    id_laws();
    local_laws();
    data_laws();
    is_after_id(after);
    rows_after(alloc, draft, layout.org, layout.object, after)
}

// The id of a row's record, if it is a row.
fn id_of(row: &KeptRow) -> Option<Id>
    ensures { result ≡ id_in row.now }
{
    match RowView::of(row.key.as_slice(), row.row.as_slice()) {
        Some(row) => Some(row.id()),
        None => None,
    }
}

// The id of the last of these rows, or what was before.
fn last_of(before: Option<Id>, rows: &[KeptRow]) -> Option<Id>
    ensures { result ≡ last_of before rows.now }
{
    match rows.last() {
        Some(row) => id_of(row),
        None => before,
    }
}

// For how many pages reading goes on after these rows: for none behind a page that isn't full.
fn pages_left(left: usize, rows: &[KeptRow]) -> usize
    requires { 0 < left }
    ensures { result ≡ pages_left left rows.now }
{
    if rows.len() < PAGE { 0 } else { left - 1 }
}

/// The rows of the next page.
///
/// # Errors
///
/// `Keeper` if the keeper failed, `Memory` if out of memory, `Damaged` never if the organisation's rows stand for a tenant whose
/// layout it is.
pub(crate) fn next_page<K: Keeper>(
    alloc: Global,
    draft: &mut Draft<'_, K>,
    layout: &Layout,
    pages: &mut Pages,
) -> Result<Vec<KeptRow>, StoreFail>
    requires { 0 < pages.old.left }
    ensures page { DraftTells K.state draft.old draft.new
        → ReadsPage layout.now pages.old pages.new (tables_of K.state draft.old) result }
    ensures less { IfOk result (λ _. pages.new.left < pages.old.left) }
    ensures calls { Calls K.state (seen 250 result + removals_of K.state 7 draft.old) (ended result) draft.old draft.new }
{
    record_laws();
    let rows = page_after(alloc, draft, layout, pages.after.as_ref());
    if let Ok(rows) = &rows {
        pages.after = last_of(pages.after, rows.as_slice());
        pages.left = pages_left(pages.left, rows.as_slice());
    }
    rows
}

//! Reads of records.

ghost use Rattle.std.specs.Prelude.{◌≡◌, ◌+◌, ◌++◌, Err, IfErr, IfOk, IfSome, IsErrOf, IsTrue, is_ok, is_some, take};
ghost use Rattle.std.specs.FinMap as map;
ghost use Rattle.std.specs.List.{list_all};
ghost use Rattle.std.specs.Option.{option_and_then, option_map};
ghost use Rattle.record_read.specs.Decoding.{each_from, has_types, kinds_in, record_from};
ghost use Rattle.record_read.specs.Rows.{FindsRows};
ghost use Rattle.record_read.specs.inner.Found.{found_from, listed_from};
ghost use Rattle.store_kv.specs.Draft.{DraftReads, DraftTells, removals_of, state_of, tables_of};
ghost use Rattle.store_kv.specs.Prefixes.{raised};
ghost use Rattle.store_kv.specs.State.{KeeperCause, Quiet, StaysAfter, seen};
ghost use Rattle.store_rows.specs.declared.fail.StoreFail.TheVariants.{Damaged, Keeper, Memory};
ghost use Rattle.store_rows.specs.Keys.{Data, record_key, spell};
ghost use Rattle.store_rows.specs.Listings.{rows_to, start_of};
ghost use Rattle.store_rows.specs.Reads.{ListsAs};
ghost use Rattle.store_rows.specs.Rows.{data_form};
ghost use Rattle.model.specs.Rights.{record_of_object};
ghost use Rattle.model.specs.SoundRecords.{all_valid};
ghost use Rattle.store_codec.specs.Plain.{number16, number32};
ghost use Rattle.store_codec.specs.Gives.{Gives, GivesBy};
ghost use Rattle.store_codec.specs.Shapes.{Both, FitsIn, Number16, Number32, spelled};
ghost use Rattle.store_abstraction.specs.Calls.{Calls, ended};
ghost use Rattle.store_abstraction.specs.Layouts.{FindsOf, records_after};
ghost use Rattle.store_abstraction.specs.Local.{FindsIn};
ghost use Rattle.base_value.specs.Causes.{GivesOr};
ghost use Rattle.base_value.specs.Id.{is_id};

use crate::decoding::{has_types, record_of, record_within};
use crate::laws::data_laws;
use base_value::{Id, Items, id_laws};
use model::Record;
use std::alloc::Global;
use store_abstraction::{Layout, local_laws};
use store_codec::{CodecFail, shape_laws};
use store_kv::{Draft, Keeper, draft_laws, key_laws, walk_laws};
use store_rows::{
    DataRow, RowForm, StoreFail, listing_laws, page_under, row_at, row_laws, spelling_of,
    table_laws,
};

// The key of a record's row.
fn key_of(org: u32, object: u16, id: &Id) -> (u32, (u16, Id))
    ensures is { result ≡ (org, (object, id.now)) }
    ensures fits { FitsIn record_key (org, (object, id.now)) }
{
    // That these are an id's characters.
    let _ = id.as_bytes();
    (org, (object, *id))
}

// Whether there is a row of a record's key.
fn has_row<K: Keeper>(
    alloc: Global,
    draft: &mut Draft<'_, K>,
    key: &(u32, (u16, Id)),
) -> Result<bool, StoreFail>
    requires { FitsIn record_key key.now }
    ensures there { DraftTells K.state draft.old draft.new
        → IfOk result (λ there. there ≡ is_some (map.get (tables_of K.state draft.old) (spell (Data key.now.0 key.now.1.0 key.now.1.1)))) }
    ensures whole { IsErrOf result Damaged → ⊥ }
    ensures reads { DraftReads K.state 1 draft.old draft.new }
    ensures stays { StaysAfter (is_ok result) (state_of K.state draft.old) (state_of K.state draft.new) }
    ensures cause { KeeperCause (state_of K.state draft.old) (state_of K.state draft.new) (IsErrOf result Keeper) }
    ensures quiet { Quiet (state_of K.state draft.old) (state_of K.state draft.new) (IsErrOf result Keeper) }
{
    shape_laws();
    let key = spelling_of(alloc, key)?;
    let row = draft.get(alloc, DataRow::table(), key.as_slice())?;
    Ok(row.is_some())
}

/// Whether the object with this number has a record with this id. Its row isn't read.
///
/// # Errors
///
/// `Keeper` if the keeper failed, `Memory` if out of memory, `Damaged` never.
pub fn has_record<K: Keeper>(
    alloc: Global,
    draft: &mut Draft<'_, K>,
    org: u32,
    object: u16,
    id: &Id,
) -> Result<bool, StoreFail>
    ensures finds { DraftTells K.state draft.old draft.new
        → FindsIn org (λ q t. is_some (option_and_then (λ u. record_of_object u object id.now) t)) (tables_of K.state draft.old) result }
    ensures calls { Calls K.state 1 (ended result) draft.old draft.new }
{
    key_laws();
    local_laws();
    let key = key_of(org, object, id);
    has_row(alloc, draft, &key)
}

// The record of a row that was read, if there is one.
fn record_found(
    alloc: Global,
    layout: &Layout,
    row: Result<Option<DataRow>, StoreFail>,
) -> Result<Option<Record>, StoreFail>
    ensures found { GivesOr Memory (found_from layout.now row) result }
    ensures valid { IfOk result (λ found. IfSome found (λ r. IsTrue (all_valid (kinds_in layout.now.fields) r.values))) }
    ensures failed { IfErr row (λ e. result ≡ Err e) }
{
    match row {
        Ok(None) => Ok(None),
        Ok(Some(row)) => match record_of(alloc, layout, &row) {
            Ok(record) => Ok(Some(record)),
            Err(fail) => Err(StoreFail::from(fail)),
        },
        Err(fail) => Err(fail),
    }
}

/// The record of an object that has this id, if there is one.
///
/// # Errors
///
/// `Keeper` if the keeper failed, `Memory` if out of memory, `Damaged` never if the organisation's rows stand for a tenant whose
/// layout it is.
pub fn load_record<K: Keeper>(
    alloc: Global,
    draft: &mut Draft<'_, K>,
    layout: &Layout,
    id: &Id,
) -> Result<Option<Record>, StoreFail>
    ensures finds { DraftTells K.state draft.old draft.new
        → FindsOf layout.now (λ t. record_of_object t layout.now.object id.now) (tables_of K.state draft.old) result }
    // Its values are valid, whatever the tables hold.
    ensures valid { IfOk result (λ found. IfSome found (λ r. IsTrue (all_valid (kinds_in layout.now.fields) r.values))) }
    ensures calls { Calls K.state 1 (ended result) draft.old draft.new }
{
    key_laws();
    row_laws::<DataRow>();
    local_laws();
    data_laws();
    let key = key_of(layout.org, layout.object, id);
    let row = row_at::<DataRow, K>(alloc, draft, &key);
    record_found(alloc, layout, row)
}

// The records of rows, by a layout whose types are within their bounds.
fn records_within(
    alloc: Global,
    layout: &Layout,
    rows: &[DataRow],
) -> Result<Vec<Record>, CodecFail>
    requires { IsTrue (has_types layout.now) }
    ensures gives { GivesBy (λ rs. rs.items) result (each_from (record_from layout.now) rows.now) }
    ensures valid { IfOk result (λ rs. IsTrue (list_all (λ r. all_valid (kinds_in layout.now.fields) r.values) rs.items)) }
{
    let mut records = Vec::new(alloc);
    for row in rows {
        let record = match record_within(alloc, layout, row) {
            Ok(record) => record,
            Err(fail) => return Err(fail),
        };
        records.push(record)?;
    }
    Ok(records)
}

fn records_of(alloc: Global, layout: &Layout, rows: &[DataRow]) -> Result<Items<Record>, CodecFail>
    ensures gives { Gives result (each_from (record_from layout.now) rows.now) }
    ensures valid { IfOk result (λ rs. IsTrue (list_all (λ r. all_valid (kinds_in layout.now.fields) r.values) rs)) }
{
    if rows.is_empty() {
        return Ok(Items::new(alloc));
    }
    if !has_types(layout) {
        return Err(CodecFail::Damaged);
    }
    match records_within(alloc, layout, rows) {
        Ok(records) => Ok(Items::from_vec(records)),
        Err(fail) => Err(fail),
    }
}

// The records of rows that were read.
fn records_found(
    alloc: Global,
    layout: &Layout,
    rows: Result<Vec<DataRow>, StoreFail>,
) -> Result<Items<Record>, StoreFail>
    ensures listed { GivesOr Memory (listed_from layout.now rows) result }
    ensures valid { IfOk result (λ rs. IsTrue (list_all (λ r. all_valid (kinds_in layout.now.fields) r.values) rs)) }
    ensures failed { IfErr rows (λ e. result ≡ Err e) }
{
    match rows {
        Ok(rows) => match records_of(alloc, layout, rows.as_slice()) {
            Ok(records) => Ok(records),
            Err(fail) => Err(StoreFail::from(fail)),
        },
        Err(fail) => Err(fail),
    }
}

// At most so many rows of an object's records, in the order of their keys: the first, or those after an id's.
fn rows_after<K: Keeper>(
    alloc: Global,
    draft: &mut Draft<'_, K>,
    org: u32,
    object: u16,
    after: Option<&Id>,
    limit: usize,
) -> Result<Vec<DataRow>, StoreFail>
    ensures rows { DraftTells K.state draft.old draft.new
        → ListsAs data_form (take limit (rows_to (tables_of K.state draft.old) 7
        (start_of (number32 org ++ number16 object) (option_map (λ id. spelled record_key (org, (object, id.now))) after.entry))
        (raised (number32 org ++ number16 object)))) result }
    ensures fits { FitsIn (Both Number32 Number16) (org, object) × IfSome after.entry (λ id. IsTrue (is_id id.now)) }
    ensures calls { Calls K.state (seen limit result + removals_of K.state 7 draft.old) (ended result) draft.old draft.new }
{
    match after {
        None => page_under(alloc, draft, &(org, object), None, limit),
        Some(id) => {
            let key = key_of(org, object, id);
            page_under(alloc, draft, &(org, object), Some(&key), limit)
        }
    }
}

/// At most `limit` records of an object, in the order of their ids: the first, or those after an id.
///
/// # Errors
///
/// `Keeper` if the keeper failed, `Memory` if out of memory, `Damaged` never if the organisation's rows stand for a tenant whose
/// layout it is.
pub fn walk<K: Keeper>(
    alloc: Global,
    draft: &mut Draft<'_, K>,
    layout: &Layout,
    after: Option<&Id>,
    limit: usize,
) -> Result<Items<Record>, StoreFail>
    ensures finds { DraftTells K.state draft.old draft.new
        → FindsOf layout.now (records_after layout.now.object (option_map (λ id. id.now) after.entry) limit)
        (tables_of K.state draft.old) result }
    // The values of each are valid, whatever the tables hold.
    ensures valid { IfOk result (λ rs. IsTrue (list_all (λ r. all_valid (kinds_in layout.now.fields) r.values) rs)) }
    ensures calls { Calls K.state (limit + removals_of K.state 7 draft.old) (ended result) draft.old draft.new }
{
    listing_laws::<DataRow>();
    table_laws();
    shape_laws();
    walk_laws();
    draft_laws::<K>();
    id_laws();
    local_laws();
    data_laws();
    let rows = rows_after(alloc, draft, layout.org, layout.object, after, limit);
    records_found(alloc, layout, rows)
}

/// The rows of at most `limit` records of an object, in the order of their ids: the first, or those after an id.
///
/// # Errors
///
/// As `walk`.
pub fn walk_rows<K: Keeper>(
    alloc: Global,
    draft: &mut Draft<'_, K>,
    layout: &Layout,
    after: Option<&Id>,
    limit: usize,
) -> Result<Vec<DataRow>, StoreFail>
    ensures finds { DraftTells K.state draft.old draft.new
        → FindsRows layout.now (records_after layout.now.object (option_map (λ id. id.now) after.entry) limit)
        (tables_of K.state draft.old) result }
    ensures calls { Calls K.state (limit + removals_of K.state 7 draft.old) (ended result) draft.old draft.new }
{
    listing_laws::<DataRow>();
    table_laws();
    shape_laws();
    walk_laws();
    draft_laws::<K>();
    id_laws();
    local_laws();
    data_laws();
    rows_after(alloc, draft, layout.org, layout.object, after, limit)
}

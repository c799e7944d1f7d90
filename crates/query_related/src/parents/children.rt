//! The children of records.

ghost use Rattle.std.specs.Prelude.{◌≡◌, ◌*◌, ◌++◌, ◌<◌, OnOk, length, take};
ghost use Rattle.std.specs.Option.{option_map};
ghost use Rattle.store_kv.specs.Draft.{DraftTells, tables_of};
ghost use Rattle.query_related.specs.parents.Children.{children_after, page_of};
ghost use Rattle.query_related.specs.parents.Parents.{FindsBy, readable_shown};
ghost use Rattle.query_related.specs.parents.inner.Reading.{last_in, page_with, readable_among, records_in};
ghost use Rattle.store_abstraction.specs.Calls.{Calls, ended};

use crate::parents::readable::readable_by_id;
use access_traits::Rights;
use base_value::{Id, Items};
use model::Record;
use record_references::referring;
use std::alloc::{AllocError, Global};
use store_abstraction::{Layout, call_laws};
use store_kv::{Draft, Keeper, draft_laws};
use store_rows::StoreFail;

/// A page of the records that refer to a record.
#[derive(Drop)]
pub struct ChildPage {
    /// Those of them that who asks may read, in the order of their ids.
    pub records: Items<Record>,
    /// The id of the last of all of them, after which the next page begins: none if the page has none.
    pub last: Option<Id>,
}

// At most so many of these.
fn at_most(ids: &[Id], limit: usize) -> &[Id]
    ensures { result.now ≡ take limit ids.now }
{
    &ids[..limit.min(ids.len())]
}

fn last_in(ids: &[Id]) -> Option<Id>
    ensures { result ≡ last_in ids.now }
{
    ids.last().copied()
}

// With a record more, if one was found.
fn add_found(records: &mut Items<Record>, found: Option<Record>) -> Result<(), AllocError>
    ensures { OnOk result (records.new ≡ records.old ++ records_in found) }
{
    match found {
        Some(item) => records.push(item),
        None => Ok(()),
    }
}

// Of the records with these ids, those that may be read.
fn readable_among<K: Keeper, R: Rights>(
    alloc: Global,
    draft: &mut Draft<'_, K>,
    rights: &R,
    layout: &Layout,
    ids: &[Id],
) -> Result<Items<Record>, StoreFail>
    ensures finds { DraftTells K.state draft.old draft.new
        → FindsBy layout.now (R.whose rights.now) (λ t u. readable_among t u layout.now.object ids.now)
        (tables_of K.state draft.old) result }
    ensures calls { Calls K.state (readable_shown * length ids.now) (ended result) draft.old draft.new }
{
    draft_laws::<K>();
    call_laws::<K>();
    let mut records = Items::new(alloc);
    for id in ids {
        let found = readable_by_id(alloc, draft, rights, layout, id)?;
        add_found(&mut records, found)?;
    }
    Ok(records)
}

// The page of the records with these ids, by those of them that were read.
fn page_with(ids: &[Id], records: Result<Items<Record>, StoreFail>) -> Result<ChildPage, StoreFail>
    ensures { result ≡ page_with ids.now records }
{
    match records {
        Ok(records) => {
            let last = last_in(ids);
            Ok(ChildPage { records, last })
        }
        Err(fail) => Err(fail),
    }
}

/// A page of the records of the layout's object that refer to a record by the field with this number, in the order of their ids: at
/// most `limit` of them are looked at, the first or those after an id, and of these those are returned that who asks may read.
///
/// # Errors
///
/// As `readable_by_id`.
pub fn children_of<K: Keeper, R: Rights>(
    alloc: Global,
    draft: &mut Draft<'_, K>,
    rights: &R,
    layout: &Layout,
    number: usize,
    target: &Id,
    after: Option<&Id>,
    limit: usize,
) -> Result<ChildPage, StoreFail>
    requires field { number < length layout.now.fields }
    ensures finds { DraftTells K.state draft.old draft.new
        → FindsBy layout.now (R.whose rights.now)
        (λ t u. page_of t u (children_after layout.now.object number target.now (option_map (λ id. id.now) after.entry) limit t))
        (tables_of K.state draft.old) result }
    ensures calls { Calls K.state (readable_shown * limit) (ended result) draft.old draft.new }
{
    draft_laws::<K>();
    call_laws::<K>();
    match referring(alloc, draft, layout, number, target, after, limit) {
        Ok(ids) => {
            // `referring` says that there are no more only where the rows stand for a tenant.
            let ids = at_most(ids.as_slice(), limit);
            let records = readable_among(alloc, draft, rights, layout, ids);
            page_with(ids, records)
        }
        Err(fail) => Err(fail),
    }
}

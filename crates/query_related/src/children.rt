//! The records that refer to a record, all of them that may be read.

ghost use Rattle.std.specs.Prelude.{◌≡◌, ◌≤◌, ◌*◌, IfOk, length};
ghost use Rattle.store_kv.specs.Draft.{DraftTells, tables_of};
ghost use Rattle.query_related.specs.parents.Parents.{FindsBy, readable_shown};
ghost use Rattle.query_related.specs.Children.{FindsOfAsked};
ghost use Rattle.query_related.specs.inner.Referring.{few_of, readable_referring, those_referring};
ghost use Rattle.store_abstraction.specs.Calls.{Calls, ended};

use crate::parents::children_of;
use access_traits::Rights;
use base_value::{Id, Items};
use model::Record;
use query_plan::{ChildStep, layout_in};
use std::alloc::Global;
use store_abstraction::{Layout, call_laws};
use store_kv::{Draft, Keeper, draft_laws};
use store_rows::StoreFail;

// As many records as an object has at most.
const MOST: usize = 20_000;

// These records, unless they are more than an object has.
fn few_of(records: Items<Record>) -> Result<Items<Record>, StoreFail>
    ensures { result ≡ few_of records }
{
    if records.len() > MOST {
        Err(StoreFail::Damaged)
    } else {
        Ok(records)
    }
}

// The records of the layout's object that refer to a record by the field with this number, as far as they may be read.
fn referring<K: Keeper, R: Rights>(
    alloc: Global,
    draft: &mut Draft<'_, K>,
    rights: &R,
    layout: &Layout,
    field: usize,
    target: &Id,
) -> Result<Items<Record>, StoreFail>
    ensures finds { DraftTells K.state draft.old draft.new
        → FindsBy layout.now (R.whose rights.now) (λ t u. readable_referring t u layout.now.object field target.now)
        (tables_of K.state draft.old) result }
    ensures calls { Calls K.state (20000 * readable_shown) (ended result) draft.old draft.new }
    ensures few { IfOk result (λ records. length records ≤ 20000) }
{
    draft_laws::<K>();
    call_laws::<K>();
    if field >= layout.fields.len() {
        return Ok(Items::new(alloc));
    }
    match children_of(alloc, draft, rights, layout, field, target, None, MOST) {
        Ok(page) => few_of(page.records),
        Err(fail) => Err(fail),
    }
}

/// The records that refer to a record by a relationship, as far as they may be read, in the order of their ids.
///
/// # Errors
///
/// `Keeper` if the keeper failed, `Memory` if out of memory, `Damaged` never if the organisation's rows stand for a tenant whose
/// layouts they are and of whose user the rights are.
pub(crate) fn those_referring<K: Keeper, R: Rights>(
    alloc: Global,
    draft: &mut Draft<'_, K>,
    rights: &R,
    layouts: &[Layout],
    step: ChildStep,
    target: &Id,
) -> Result<Items<Record>, StoreFail>
    ensures finds { DraftTells K.state draft.old draft.new
        → FindsOfAsked layouts.now (R.whose rights.now) (λ a. those_referring a step target.now) (tables_of K.state draft.old) result }
    ensures calls { Calls K.state (20000 * readable_shown) (ended result) draft.old draft.new }
    ensures few { IfOk result (λ records. length records ≤ 20000) }
{
    draft_laws::<K>();
    call_laws::<K>();
    match layout_in(layouts, step.object) {
        Some(layout) => referring(alloc, draft, rights, layout, step.field, target),
        None => Ok(Items::new(alloc)),
    }
}

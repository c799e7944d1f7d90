//! The records of branches.

ghost use Rattle.std.specs.Prelude.{◌≡◌, ◌≤◌, ◌*◌, [], Some, length};
ghost use Rattle.query_plan.specs.Given.{GivesJust};
ghost use Rattle.formula.specs.Meaning.{value_at};
ghost use Rattle.store_kv.specs.Draft.{DraftTells, tables_of};
ghost use Rattle.model.specs.declared.record.Record.{Record};
ghost use Rattle.query_related.specs.parents.Branches.{FindsOfRow};
ghost use Rattle.query_related.specs.parents.Parents.{readable_shown};
ghost use Rattle.query_related.specs.parents.inner.Branching.{id_above, id_in};
ghost use Rattle.store_abstraction.specs.Calls.{Calls, ended};
ghost use Rattle.base_value.specs.Values.{ref_of};
ghost use Rattle.query_plan.specs.paths.Branches.{branch_record, branch_records};

use crate::parents::parents::{id_at, id_of};
use crate::parents::readable::readable_by_id;
use access_traits::Rights;
use base_value::{Id, Items};
use model::Record;
use query_plan::{Branch, HasValues, Site, layout_in};
use std::alloc::Global;
use store_abstraction::{Layout, call_laws};
use store_codec::CodecFail;
use store_kv::{Draft, Keeper, draft_laws};
use store_rows::StoreFail;

// The id to which the value at a position refers, of a record whose values are given one by one.
fn id_given<V: HasValues>(alloc: Global, item: &V, position: usize) -> Result<Option<Id>, CodecFail>
    ensures { (r : Record) → V.its_record item.now ≡ Some r → length r.values ≤ 256
        → GivesJust (ref_of (value_at r.values position)) result }
{
    // No record has a value behind the 256th.
    let Ok(position) = u8::try_from(position) else {
        return Ok(None);
    };
    let value = item.value_at(alloc, Site::Value(position))?;
    Ok(id_of(&value))
}

// The same of one of these records.
fn id_in(before: &[Option<Record>], number: usize, position: usize) -> Option<Id>
    ensures { result ≡ id_in before.now number position }
{
    match before.get(number) {
        Some(Some(item)) => id_at(item, position),
        _ => None,
    }
}

// The id of the record to which a branch leads, by the row's record and those of the branches before.
fn id_above<V: HasValues>(
    alloc: Global,
    branch: Branch,
    item: &V,
    before: &[Option<Record>],
) -> Result<Option<Id>, CodecFail>
    ensures { (r : Record) → V.its_record item.now ≡ Some r → length r.values ≤ 256
        → GivesJust (id_above r before.now branch) result }
{
    match branch.above {
        None => id_given(alloc, item, branch.step.position),
        Some(number) => Ok(id_in(before, number, branch.step.position)),
    }
}

// The record of a branch, by those of the branches before.
fn branch_of<K: Keeper, R: Rights, V: HasValues>(
    alloc: Global,
    draft: &mut Draft<'_, K>,
    rights: &R,
    layouts: &[Layout],
    branch: Branch,
    item: &V,
    before: &[Option<Record>],
) -> Result<Option<Record>, StoreFail>
    ensures finds { DraftTells K.state draft.old draft.new
        → FindsOfRow layouts.now (R.whose rights.now) (V.its_record item.now) (λ a r. branch_record a r before.now branch)
        (tables_of K.state draft.old) result }
    ensures calls { Calls K.state readable_shown (ended result) draft.old draft.new }
{
    draft_laws::<K>();
    call_laws::<K>();
    match id_above(alloc, branch, item, before) {
        Ok(Some(id)) => match layout_in(layouts, branch.step.target) {
            Some(layout) => readable_by_id(alloc, draft, rights, layout, &id),
            None => Ok(None),
        },
        Ok(None) => Ok(None),
        Err(fail) => Err(StoreFail::from(fail)),
    }
}

/// The records of branches, one after the other: those of the parents that a row's record needs. A branch has none where there is
/// no such parent, or who asks may not read it.
///
/// The layouts are those of all objects.
///
/// # Errors
///
/// `Keeper` if the keeper failed, `Memory` if out of memory, `Damaged` never if the organisation's rows stand for a tenant whose
/// layouts they are, of whose user the rights are and whose record it is.
pub fn records_of_branches<K: Keeper, R: Rights, V: HasValues>(
    alloc: Global,
    draft: &mut Draft<'_, K>,
    rights: &R,
    layouts: &[Layout],
    branches: &[Branch],
    item: &V,
) -> Result<Items<Option<Record>>, StoreFail>
    ensures finds { DraftTells K.state draft.old draft.new
        → FindsOfRow layouts.now (R.whose rights.now) (V.its_record item.now) (λ a r. branch_records a r [] branches.now)
        (tables_of K.state draft.old) result }
    ensures calls { Calls K.state (readable_shown * length branches.now) (ended result) draft.old draft.new }
{
    draft_laws::<K>();
    call_laws::<K>();
    let mut records = Items::new(alloc);
    for branch in branches {
        let found = branch_of(
            alloc,
            draft,
            rights,
            layouts,
            *branch,
            item,
            records.as_slice(),
        )?;
        records.push(found)?;
    }
    Ok(records)
}

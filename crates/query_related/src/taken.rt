//! Records that are taken as children, with their parents and their ranks.

ghost use Rattle.std.specs.Prelude.{◌≡◌, ◌++◌, ◌*◌, OnOk, Some, length};
ghost use Rattle.query_plan.specs.Given.{GivesJust};
ghost use Rattle.query_plan.specs.Plans.{parents_by};
ghost use Rattle.store_kv.specs.Draft.{DraftTells, tables_of};
ghost use Rattle.query_related.specs.parents.Branches.{FindsOfRow};
ghost use Rattle.query_related.specs.parents.Parents.{readable_shown};
ghost use Rattle.query_related.specs.inner.Taken.{FindsTaken, all_taken, children_in, ranked_if};
ghost use Rattle.store_abstraction.specs.Calls.{Calls, ended};

use crate::parents::records_of_branches;
use access_traits::Rights;
use base_value::Items;
use model::Record;
use query_exec::Ranked;
use query_plan::{Child, Choice, Rank, check_holds, rank_of};
use std::alloc::{AllocError, Global};
use store_abstraction::{Layout, call_laws};
use store_codec::CodecFail;
use store_kv::{Draft, Keeper, draft_laws};
use store_rows::StoreFail;

// A record with its parents as a child, with its rank, if it is taken.
fn ranked_if_taken(
    alloc: Global,
    choice: &Choice,
    item: Record,
    parents: Items<Option<Record>>,
) -> Result<Option<Ranked<Rank, Child>>, CodecFail>
    ensures { GivesJust (ranked_if choice.now parents item) result }
{
    if !check_holds(alloc, &choice.check, &item, parents.as_slice())? {
        return Ok(None);
    }
    let rank = rank_of(alloc, choice.order.as_slice(), &item, parents.as_slice())?;
    Ok(Some(Ranked {
        rank,
        id: item.id,
        kept: Child {
            record: item,
            parents,
        },
    }))
}

// A record as a child, with its rank, if it is taken.
fn ranked_child<K: Keeper, R: Rights>(
    alloc: Global,
    draft: &mut Draft<'_, K>,
    rights: &R,
    layouts: &[Layout],
    choice: &Choice,
    item: Record,
) -> Result<Option<Ranked<Rank, Child>>, StoreFail>
    ensures finds { DraftTells K.state draft.old draft.new
        → FindsOfRow layouts.now (R.whose rights.now) (Some item) (λ a s. ranked_if choice.now (parents_by a choice.now s) s)
        (tables_of K.state draft.old) result }
    ensures calls { Calls K.state (readable_shown * length choice.now.branches) (ended result) draft.old draft.new }
{
    draft_laws::<K>();
    call_laws::<K>();
    let branches = choice.branches.as_slice();
    match records_of_branches(alloc, draft, rights, layouts, branches, &item) {
        Ok(parents) => match ranked_if_taken(alloc, choice, item, parents) {
            Ok(found) => Ok(found),
            Err(fail) => Err(StoreFail::from(fail)),
        },
        Err(fail) => Err(fail),
    }
}

// With a child more, if one was found.
fn add_found(
    gathered: &mut Vec<Ranked<Rank, Child>>,
    found: Option<Ranked<Rank, Child>>,
) -> Result<(), AllocError>
    ensures { OnOk result (gathered.new.items ≡ gathered.old.items ++ children_in found) }
{
    if let Some(child) = found {
        gathered.push(child)?;
    }
    Ok(())
}

/// Of some records those that are taken, as children, with their ranks, in the order of the records.
///
/// # Errors
///
/// `Keeper` if the keeper failed, `Memory` if out of memory, `Damaged` never if the organisation's rows stand for a tenant whose
/// layouts and whose records they are and of whose user the rights are.
pub(crate) fn taken_children<K: Keeper, R: Rights>(
    alloc: Global,
    draft: &mut Draft<'_, K>,
    rights: &R,
    layouts: &[Layout],
    choice: &Choice,
    mut records: Items<Record>,
) -> Result<Vec<Ranked<Rank, Child>>, StoreFail>
    ensures finds { DraftTells K.state draft.old draft.new
        → FindsTaken layouts.now (R.whose rights.now) records (λ a. all_taken a choice.now records) (tables_of K.state draft.old) result }
    ensures calls { Calls K.state (length records * (readable_shown * length choice.now.branches)) (ended result) draft.old draft.new }
{
    draft_laws::<K>();
    call_laws::<K>();
    let mut gathered = Vec::new(alloc);
    // From the last record to the first: each is moved out.
    'records: while let Some(item) = records.pop() {
        let found = ranked_child(alloc, draft, rights, layouts, choice, item)?;
        add_found(&mut gathered, found)?;
    }
    gathered.reverse();
    Ok(gathered)
}

//! The object, its field and its records.

ghost use Rattle.std.specs.Prelude.{◌≡◌, ◌≤◌, [], IfOk, IsTrue, pos, ℕ};
ghost use Rattle.std.specs.List.{list_all};
ghost use Rattle.cmd_demo.specs.Demos.{comes_to, given_amount, item_object, new_amount, new_item, with_all, with_items, with_object};
ghost use Rattle.cmd_demo.specs.inner.Coming.{Makes, Passes};
ghost use Rattle.record_input.specs.Given.{IsInJson};
ghost use Rattle.store_kv.specs.Draft.{tables_of};
ghost use Rattle.store_kv.specs.Memory.{memory_state};
ghost use Rattle.model.specs.Creates.{create};
ghost use Rattle.model.specs.Metadata.{add_object};
ghost use Rattle.model.specs.NewFields.{add_field};
ghost use Rattle.model.specs.Paths.{Asked};
ghost use Rattle.cmd_sandbox.specs.Making.{IsOwned, NeverFails};
ghost use Rattle.model_invariant.specs.Fit.{is_spelled};
ghost use Rattle.store_abstraction.specs.Stands.{Stands};
ghost use Rattle.base_value.specs.Dates.{is_moment};

use base_json::Json;
use base_value::{Access, FieldType, Text};
use cmd_sandbox::{make_field, make_object, make_org, make_record, only_name};
use model::{Assignment, Given, NewField, NewObject, Refusal, SpelledType};
use std::alloc::{AllocError, Global};
use store_abstraction::EditFail;
use store_kv::{Draft, MemoryKeeper};

/// What a request comes to that its verdict may refuse.
pub(crate) fn unless_refused(refused: Option<Refusal>) -> Result<(), EditFail>
    ensures { Passes refused result }
{
    match refused {
        Some(refusal) => Err(EditFail::Refused(refusal)),
        None => Ok(()),
    }
}

fn new_item(alloc: Global) -> Result<NewObject, AllocError>
    ensures { IfOk result (λ new. new ≡ new_item) }
{
    Ok(NewObject {
        members: only_name(alloc)?,
        name: Text::from_str(alloc, "Item__c")?,
        access: Access::Private,
        hierarchy: true,
        master: None,
    })
}

fn new_amount(alloc: Global) -> Result<NewField, AllocError>
    ensures { IfOk result (λ new. new ≡ new_amount) }
{
    Ok(NewField {
        members: only_name(alloc)?,
        object: Text::from_str(alloc, "Item__c")?,
        name: Text::from_str(alloc, "Amount__c")?,
        kind: SpelledType::Plain(FieldType::Text(20)),
        required: false,
        unique: false,
        indexed: false,
    })
}

// Makes the object.
fn make_item_object(alloc: Global, draft: &mut Draft<'_, MemoryKeeper>) -> Result<(), EditFail>
    ensures { (now : ℕ) (a : Asked) → IsOwned now draft.old a
        → Makes now draft.new (comes_to a (add_object a.tenant new_item)) result }
{
    let new = new_item(alloc)?;
    let refused = make_object(alloc, draft, &new)?;
    unless_refused(refused)
}

// Makes its field.
fn make_amount_field(alloc: Global, draft: &mut Draft<'_, MemoryKeeper>) -> Result<(), EditFail>
    ensures { (now : ℕ) (a : Asked) → IsOwned now draft.old a
        → Makes now draft.new (comes_to a (add_field a.tenant new_amount)) result }
{
    let new = new_amount(alloc)?;
    let refused = make_field(alloc, draft, &new)?;
    unless_refused(refused)
}

// What is given to the record with this number.
fn given_amount(alloc: Global, number: u64) -> Result<Vec<Assignment>, AllocError>
    requires { number ≤ 10000 }
    ensures same { IfOk result (λ given. given.items ≡ given_amount number) }
    ensures spelled { IfOk result (λ given. IsTrue (list_all (λ x. is_spelled x.given) given.items)) }
    ensures json { IfOk result (λ given. IsInJson given.items) }
{
    let amount = (37 * (number * number) + 11 * number) % 1000;
    let digits = format!(in alloc; "{amount}")?;
    let text = Text::from_str(alloc, digits.as_str())?;
    let field = Text::from_str(alloc, "Amount__c")?;
    let mut given = Vec::new(alloc);
    given.push(Assignment {
        field,
        given: Given::Json(Json::Text(text)),
    })?;
    Ok(given)
}

// Makes the record with this number.
fn make_item(
    alloc: Global,
    draft: &mut Draft<'_, MemoryKeeper>,
    now: u64,
    object: &Text,
    number: u64,
) -> Result<(), EditFail>
    requires moment { IsTrue (is_moment (pos now)) }
    requires object { object.now ≡ item_object }
    requires number { number ≤ 10000 }
    ensures { (a : Asked) → IsOwned now draft.old a
        → Makes now draft.new (comes_to a (create a item_object (given_amount number))) result }
{
    let given = given_amount(alloc, number)?;
    let refused = make_record(alloc, draft, now, object, given.as_slice())?;
    unless_refused(refused)
}

// Makes the records with the numbers from 1 to the count.
fn make_items(
    alloc: Global,
    draft: &mut Draft<'_, MemoryKeeper>,
    now: u64,
    count: u64,
) -> Result<(), EditFail>
    requires moment { IsTrue (is_moment (pos now)) }
    requires count { count ≤ 10000 }
    ensures { (a : Asked) → IsOwned now draft.old a
        → Makes now draft.new (with_items count a) result }
{
    let object = Text::from_str(alloc, "Item__c")?;
    for place in 0..count {
        make_item(alloc, draft, now, &object, place + 1)?;
    }
    Ok(())
}

// Makes the object with its field.
fn make_both(alloc: Global, draft: &mut Draft<'_, MemoryKeeper>) -> Result<(), EditFail>
    ensures { (now : ℕ) (a : Asked) → IsOwned now draft.old a
        → Makes now draft.new (with_object a) result }
{
    make_item_object(alloc, draft)?;
    make_amount_field(alloc, draft)
}

/// Makes all of it, in tables without rows.
///
/// # Errors
///
/// `Refused` as the definition says, `Store` if out of memory.
pub(crate) fn make_all(
    alloc: Global,
    draft: &mut Draft<'_, MemoryKeeper>,
    now: u64,
    count: u64,
) -> Result<(), EditFail>
    requires moment { IsTrue (is_moment (pos now)) }
    requires count { count ≤ 10000 }
    ensures { Stands (tables_of memory_state draft.old) [] → NeverFails draft.old
        → Makes now draft.new (with_all count (pos now)) result }
{
    make_org(alloc, draft)?;
    make_both(alloc, draft)?;
    make_items(alloc, draft, now, count)
}

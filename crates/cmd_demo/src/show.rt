//! A demo from its beginning to its end.

ghost use Rattle.std.specs.Prelude.{◌≡◌, ◌≤◌, [], IfOk, IsTrue, pos, ℕ};
ghost use Rattle.cmd_demo.specs.Demos.{amount_field, begun, demo_outcome, comes_to, item_object, most_records, watched, whole_number};
ghost use Rattle.cmd_demo.specs.inner.Coming.{Comes, Makes, Returns};
ghost use Rattle.store_kv.specs.Draft.{tables_of};
ghost use Rattle.store_kv.specs.Memory.{memory_state};
ghost use Rattle.model.specs.Paths.{Asked};
ghost use Rattle.model.specs.Retyping.{begin_retype};
ghost use Rattle.cmd_sandbox.specs.Making.{IsOwned, NeverFails};
ghost use Rattle.store_abstraction.specs.Stands.{Stands};
ghost use Rattle.base_value.specs.Dates.{is_moment};

use crate::asking::ask;
use crate::items::{make_all, unless_refused};
use crate::lines::{amount_line, rows_in};
use crate::repeats::{FIRST, Repeats, repeat};
use base_value::{Bytes, FieldType, Text};
use cmd_sandbox::{begin_change, make_step};
use model::{Refusal, SpelledType};
use std::alloc::{AllocError, Global};
use store_abstraction::{EditFail, stands_laws};
use store_kv::{Draft, MemoryKeeper};
use store_rows::StoreFail;

/// The most records of a demo.
pub const DEMO_LIMIT: u64 = 10_000;

// The query of the amounts above 500.
const ABOVE: &str = "SELECT Amount__c FROM Item__c WHERE Amount__c > 500";

/// What a demo comes to.
#[derive(Drop)]
pub struct Demo {
    /// The first amount in the order of texts, or `none`, with the end of its line.
    pub first: Bytes,
    /// The number of the first repeat of the query after which the field had the new type.
    pub switched: Option<u64>,
    /// How often the query was repeated until the change was done.
    pub repeats: u64,
    /// The first amount in the order of numbers, or `none`, with the end of its line.
    pub least: Bytes,
    /// How many amounts are above 500.
    pub above: usize,
}

// Begins the change of the field's type, from a text to a number.
fn begin(alloc: Global, draft: &mut Draft<'_, MemoryKeeper>) -> Result<(), EditFail>
    ensures { (now : ℕ) (a : Asked) → IsOwned now draft.old a
        → Makes now draft.new (comes_to a (begin_retype a.tenant item_object amount_field whole_number)) result }
{
    let object = Text::from_str(alloc, "Item__c")?;
    let field = Text::from_str(alloc, "Amount__c")?;
    let kind = SpelledType::Plain(FieldType::Number {
        digits: 6,
        decimals: 0,
    });
    let refused = begin_change(alloc, draft, &object, &field, &kind)?;
    unless_refused(refused)
}

// Makes the organisation, asks for the first amount, and begins the change.
fn begin_demo(
    alloc: Global,
    draft: &mut Draft<'_, MemoryKeeper>,
    now: u64,
    count: u64,
) -> Result<Bytes, EditFail>
    requires moment { IsTrue (is_moment (pos now)) }
    requires count { count ≤ most_records }
    ensures { Stands (tables_of memory_state draft.old) [] → NeverFails draft.old
        → Comes (λ x line. IsOwned now draft.new x.0 × (line ≡ x.1)) (begun count (pos now)) result }
{
    make_all(alloc, draft, now, count)?;
    let lines = ask(alloc, draft, now, FIRST)?;
    let line = amount_line(alloc, lines.as_slice())?;
    begin(alloc, draft)?;
    Ok(line)
}

// Watches the change to its end, and counts the amounts above 500.
fn watch(
    alloc: Global,
    draft: &mut Draft<'_, MemoryKeeper>,
    now: u64,
) -> Result<(Repeats, usize), EditFail>
    requires { IsTrue (is_moment (pos now)) }
    ensures { (a : Asked) → IsOwned now draft.old a → Returns (watched a) result }
{
    let repeats = repeat(alloc, draft, now)?;
    make_step(alloc, draft)?;
    let lines = ask(alloc, draft, now, ABOVE)?;
    Ok((repeats, rows_in(lines.as_slice())))
}

// All of it, in tables without rows.
fn show(
    alloc: Global,
    draft: &mut Draft<'_, MemoryKeeper>,
    now: u64,
    count: u64,
) -> Result<Demo, EditFail>
    requires moment { IsTrue (is_moment (pos now)) }
    requires count { count ≤ most_records }
    ensures { Stands (tables_of memory_state draft.old) [] → NeverFails draft.old → Returns (demo_outcome count (pos now)) result }
{
    let first = begin_demo(alloc, draft, now, count)?;
    let (repeats, above) = watch(alloc, draft, now)?;
    Ok(Demo {
        first,
        switched: repeats.switched,
        repeats: repeats.count,
        least: repeats.least,
        above,
    })
}

/// A demo of so many records at this moment, in tables of its own; or why one of its requests is refused.
///
/// # Errors
///
/// If out of memory.
pub fn make_demo(alloc: Global, count: u64, now: u64) -> Result<Result<Demo, Refusal>, AllocError>
    requires moment { IsTrue (is_moment (pos now)) }
    requires count { count ≤ most_records }
    ensures { IfOk result (λ found. found ≡ demo_outcome count (pos now)) }
{
    stands_laws();
    let mut keeper = MemoryKeeper::new(alloc, &[])?;
    let mut draft = Draft::new(alloc, &mut keeper);
    match show(alloc, &mut draft, now, count) {
        Ok(demo) => Ok(Ok(demo)),
        Err(EditFail::Refused(refusal)) => Ok(Err(refusal)),
        Err(EditFail::Store(StoreFail::Memory)) => Err(AllocError),
        // No call of this keeper fails, and its tables stand for what was made.
        Err(EditFail::Store(StoreFail::Keeper | StoreFail::Damaged)) => unreachable!(),
    }
}

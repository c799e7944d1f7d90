//! The query, repeated until the change of the type is done.

ghost use Rattle.std.specs.Prelude.{◌≡◌, ◌+◌, IfOk, IsTrue, None, Some, if◌then◌else◌, pos, ℕ};
ghost use Rattle.cmd_demo.specs.Demos.{has_switched, is_settled, is_switch, most_repeats, next_repeat, repeats_from, switched_by};
ghost use Rattle.cmd_demo.specs.inner.Coming.{Comes};
ghost use Rattle.model.specs.Paths.{Asked};
ghost use Rattle.model.specs.Retyping.{job_is_done};
ghost use Rattle.cmd_sandbox.specs.Making.{IsOwned, OrMemory};
ghost use Rattle.base_value.specs.Dates.{is_moment};

use crate::asking::ask;
use crate::lines::amount_line;
use base_value::{Bytes, Outcome, Phase};
use cmd_sandbox::{change, make_step};
use std::alloc::Global;
use store_abstraction::EditFail;
use store_kv::{Draft, MemoryKeeper};
use store_rows::StoreFail;

/// The query of the first amount.
pub(crate) const FIRST: &str = "SELECT Amount__c FROM Item__c ORDER BY Amount__c LIMIT 1";

// A change of as many records as an organisation has at most is done long before.
const MOST_REPEATS: u64 = 1000;

/// What was seen so far.
#[derive(Drop)]
pub struct Repeats {
    /// How often the query was repeated.
    pub count: u64,
    /// The number of the first repeat after which the field had the new type.
    pub switched: Option<u64>,
    /// The amount that the last one was answered, with the end of its line.
    pub least: Bytes,
}

fn is_switch(outcome: Outcome) -> bool
    ensures { result ≡ is_switch outcome }
{
    matches!(outcome, Outcome::Switched)
}

fn job_is_done(phase: Phase) -> bool
    ensures { result ≡ job_is_done phase }
{
    matches!(phase, Phase::Done)
}

fn if_switched(switched: bool, number: u64) -> Option<u64>
    ensures { result ≡ (if switched then Some number else None) }
{
    if switched { Some(number) } else { None }
}

// Whether the field has the new type.
fn has_switched(alloc: Global, draft: &mut Draft<'_, MemoryKeeper>) -> Result<bool, StoreFail>
    ensures is { (now : ℕ) (a : Asked) → IsOwned now draft.old a
        → OrMemory result (λ yes. yes ≡ has_switched a.tenant) }
    ensures kept { (now : ℕ) (a : Asked) → IsOwned now draft.old a → IsOwned now draft.new a }
{
    match change(alloc, draft) {
        Ok(Some(change)) => Ok(is_switch(change.outcome)),
        Ok(None) => Ok(false),
        Err(fail) => Err(fail),
    }
}

// Whether no change is under way.
fn is_settled(alloc: Global, draft: &mut Draft<'_, MemoryKeeper>) -> Result<bool, StoreFail>
    ensures is { (now : ℕ) (a : Asked) → IsOwned now draft.old a
        → OrMemory result (λ yes. yes ≡ is_settled a.tenant) }
    ensures kept { (now : ℕ) (a : Asked) → IsOwned now draft.old a → IsOwned now draft.new a }
{
    match change(alloc, draft) {
        Ok(Some(change)) => Ok(job_is_done(change.phase)),
        Ok(None) => Ok(true),
        Err(fail) => Err(fail),
    }
}

// The number of the first repeat after which the field has the new type, where this one was the last.
fn switched_by(
    alloc: Global,
    draft: &mut Draft<'_, MemoryKeeper>,
    first: Option<u64>,
    number: u64,
) -> Result<Option<u64>, StoreFail>
    ensures is { (now : ℕ) (a : Asked) → IsOwned now draft.old a
        → OrMemory result (λ switched. switched ≡ switched_by first number a.tenant) }
    ensures kept { (now : ℕ) (a : Asked) → IsOwned now draft.old a → IsOwned now draft.new a }
{
    match first {
        Some(first) => Ok(Some(first)),
        None => match has_switched(alloc, draft) {
            Ok(switched) => Ok(if_switched(switched, number)),
            Err(fail) => Err(fail),
        },
    }
}

// One repeat more, which has this number, behind a step of the change.
fn next_repeat(
    alloc: Global,
    draft: &mut Draft<'_, MemoryKeeper>,
    now: u64,
    last: &Repeats,
    number: u64,
) -> Result<Repeats, EditFail>
    requires moment { IsTrue (is_moment (pos now)) }
    requires number { number ≡ last.now.count + 1 }
    ensures count { IfOk result (λ x. x.count ≡ number) }
    ensures comes { (a : Asked) → IsOwned now draft.old a
        → Comes (λ x y. IsOwned now draft.new x.0 × (y ≡ x.1)) (next_repeat a last.now) result }
{
    make_step(alloc, draft)?;
    let lines = ask(alloc, draft, now, FIRST)?;
    let least = amount_line(alloc, lines.as_slice())?;
    let switched = switched_by(alloc, draft, last.switched, number)?;
    Ok(Repeats {
        count: number,
        switched,
        least,
    })
}

/// Repeats the query until no change is under way.
///
/// # Errors
///
/// `Refused` as the definition says, `Store` if out of memory.
pub(crate) fn repeat(
    alloc: Global,
    draft: &mut Draft<'_, MemoryKeeper>,
    now: u64,
) -> Result<Repeats, EditFail>
    requires { IsTrue (is_moment (pos now)) }
    ensures { (a : Asked) → IsOwned now draft.old a
        → Comes (λ x y. IsOwned now draft.new x.0 × (y ≡ x.1)) (repeats_from most_repeats a) result }
{
    let mut repeats = Repeats {
        count: 0,
        switched: None,
        least: Bytes::from_vec(Vec::new(alloc)),
    };
    for turn in 0..MOST_REPEATS {
        if is_settled(alloc, draft)? {
            return Ok(repeats);
        }
        repeats = next_repeat(alloc, draft, now, &repeats, turn + 1)?;
    }
    Ok(repeats)
}

//! The answer to a query in lines of CSV.

ghost use Rattle.std.specs.Prelude.{◌≡◌, IsTrue, Some, pos, ℕ};
ghost use Rattle.query_check.specs.Reaching.{Reaches};
ghost use Rattle.cmd_sandbox.specs.Making.{IsOwned, OrMemory};
ghost use Rattle.store_kv.specs.Draft.{tables_of};
ghost use Rattle.store_kv.specs.Memory.{memory_state};
ghost use Rattle.query_csv.specs.Lines.{query_lines};
ghost use Rattle.model.specs.Objects.{Numbered, object_named};
ghost use Rattle.model.specs.Paths.{Asked};
ghost use Rattle.store_abstraction.specs.Layouts.{layout_of};
ghost use Rattle.base_value.specs.Dates.{is_moment};

use crate::organisation::{ORG, moment};
use access_traits::Administrator;
use base_value::Bytes;
use model::Refusal;
use query_check::is_flat;
use query_csv::answer_lines;
use soql::Query;
use std::alloc::Global;
use store_abstraction::{Layout, layout_named, layouts};
use store_kv::{Draft, MemoryKeeper};
use store_rows::StoreFail;

// The answer to a query of the layout's object, by the layouts of all objects or, where it is over one alone, by none.
fn answer_there(
    alloc: Global,
    draft: &mut Draft<'_, MemoryKeeper>,
    layouts: &[Layout],
    layout: &Layout,
    now: u64,
    query: &Query,
) -> Result<Result<Bytes, Refusal>, StoreFail>
    requires { IsTrue (is_moment (pos now)) }
    ensures lines { (a : Asked) → (made : IsOwned now draft.old a) → (o : Numbered)
        → object_named a.tenant query.now.tail.from ≡ Some o → layout.now ≡ layout_of 1 made.plan a.tenant o
        → Reaches 1 made.plan a.tenant layouts.now query.now → OrMemory result (λ lines. lines ≡ query_lines a query.now) }
    ensures kept { (at : ℕ) (a : Asked) → IsOwned at draft.old a → IsOwned at draft.new a }
    ensures same { tables_of memory_state draft.new ≡ tables_of memory_state draft.old }
{
    let all = &Administrator;
    answer_lines(alloc, draft, layouts, layout, all, all, moment(now), query)
}

// The answer to a query of the layout's object.
fn answer_over(
    alloc: Global,
    draft: &mut Draft<'_, MemoryKeeper>,
    layout: &Layout,
    now: u64,
    query: &Query,
) -> Result<Result<Bytes, Refusal>, StoreFail>
    requires { IsTrue (is_moment (pos now)) }
    ensures lines { (a : Asked) → (made : IsOwned now draft.old a) → (o : Numbered)
        → object_named a.tenant query.now.tail.from ≡ Some o → layout.now ≡ layout_of 1 made.plan a.tenant o
        → OrMemory result (λ lines. lines ≡ query_lines a query.now) }
    ensures kept { (at : ℕ) (a : Asked) → IsOwned at draft.old a → IsOwned at draft.new a }
    ensures same { tables_of memory_state draft.new ≡ tables_of memory_state draft.old }
{
    if is_flat(query) {
        return answer_there(alloc, draft, &[], layout, now, query);
    }
    match layouts(alloc, draft, ORG) {
        Ok(all) => answer_there(alloc, draft, all.as_slice(), layout, now, query),
        Err(fail) => Err(fail),
    }
}

/// The answer to a query of the administrator at this moment, in lines of CSV. The layouts of all objects are read only where the query
/// isn't over one alone.
///
/// # Errors
///
/// `Memory` if out of memory. No call of this keeper fails.
pub fn answer(
    alloc: Global,
    draft: &mut Draft<'_, MemoryKeeper>,
    now: u64,
    query: &Query,
) -> Result<Result<Bytes, Refusal>, StoreFail>
    requires { IsTrue (is_moment (pos now)) }
    ensures lines { (a : Asked) → IsOwned now draft.old a
        → OrMemory result (λ lines. lines ≡ query_lines a query.now) }
    ensures kept { (at : ℕ) (a : Asked) → IsOwned at draft.old a → IsOwned at draft.new a }
    ensures same { tables_of memory_state draft.new ≡ tables_of memory_state draft.old }
{
    match layout_named(alloc, draft, ORG, query.tail.from.as_str()) {
        Ok(Some(layout)) => answer_over(alloc, draft, &layout, now, query),
        Ok(None) => match query.tail.from.copy(alloc) {
            Ok(name) => Ok(Err(Refusal::InvalidType { name })),
            Err(_) => Err(StoreFail::Memory),
        },
        Err(fail) => Err(fail),
    }
}

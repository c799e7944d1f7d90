//! Queries answered in lines of CSV.

ghost use Rattle.query_csv.specs.Lines.{query_lines};

use access_traits::{Administrator, Rights, Sight};
use base_value::Bytes;
use model::Refusal;
use query_csv::answer_lines;
use query_run::QueryForm;
use soql::Query;
use std::alloc::Global;
use store_abstraction::Layout;
use store_kv::{Draft, Keeper};
use store_rows::StoreFail;

/// Lines of CSV, or why a query is refused.
#[derive(Drop)]
pub(crate) struct LineForm;

impl QueryForm for LineForm {
    type Answer = Result<Bytes, Refusal>;

    ghost answer = { λ f a q. query_lines a q };

    ghost formed = { λ f x. Unit {0} };

    // No right and no other layout is asked for.
    fn flat<K: Keeper, S: Sight>(
        &self,
        alloc: Global,
        draft: &mut Draft<'_, K>,
        layout: &Layout,
        sight: &S,
        now: i64,
        query: &Query,
    ) -> Result<Result<Bytes, Refusal>, StoreFail> {
        answer_lines(alloc, draft, &[], layout, sight, &Administrator, now, query)
    }

    fn related<K: Keeper, S: Sight, R: Rights>(
        &self,
        alloc: Global,
        draft: &mut Draft<'_, K>,
        layouts: &[Layout],
        layout: &Layout,
        sight: &S,
        rights: &R,
        now: i64,
        query: &Query,
    ) -> Result<Result<Bytes, Refusal>, StoreFail> {
        answer_lines(alloc, draft, layouts, layout, sight, rights, now, query)
    }

    // It is refused under the name that the query has.
    fn without_object(
        &self,
        alloc: Global,
        query: &Query,
    ) -> Result<Result<Bytes, Refusal>, StoreFail> {
        match query.tail.from.copy(alloc) {
            Ok(name) => Ok(Err(Refusal::InvalidType { name })),
            Err(_) => Err(StoreFail::Memory),
        }
    }
}

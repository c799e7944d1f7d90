//! Queries.

ghost use Rattle.std.specs.Prelude.{◌≡◌, IfOk, IsTrue, pos};
ghost use Rattle.query_json.specs.Answers.{AnswersBy, IsReadReply, Refuses};
ghost use Rattle.base_grammar.specs.Place.{UnlessMemory};
ghost use Rattle.store_kv.specs.Draft.{DraftTells, removals_of, tables_of};
ghost use Rattle.store_kv.specs.State.{data_table};
ghost use Rattle.model.specs.declared.refusal.Refusal.TheVariants.{MalformedQuery};
ghost use Rattle.model.specs.Asking.{ask};
ghost use Rattle.model.specs.Paths.{Asked};
ghost use Rattle.model.specs.Replies.{reply_of};
ghost use Rattle.model_requests.specs.RequestOf.{query_or, verdict_or};
ghost use Rattle.model.specs.Step.{query_text};
ghost use Rattle.soql.specs.grammar.Spelling.{reads_query};
ghost use Rattle.store_abstraction.specs.Calls.{Calls, ended};
ghost use Rattle.store_abstraction.specs.Local.{StandsIn};
ghost use Rattle.store_abstraction.specs.Plan.{OrgPlan};
ghost use Rattle.model.specs.Asker.{IsAsking};
ghost use Rattle.model.specs.Shown.{further_to, shown_beside};
ghost use Rattle.base_value.specs.Dates.{is_moment};

use crate::query::query_text;
use access_traits::{Rights, Sight};
use api_edit::moment;
use base_grammar::ParseFail;
use base_value::Text;
use model::{Caller, Refusal, Reply};
use query_json::{answer_flat, answer_related, refuse};
use query_run::{QueryForm, answer_named};
use soql::Query;
use soql_parser::parse;
use std::alloc::Global;
use store_abstraction::{Layout, call_laws};
use store_kv::{Draft, Keeper, draft_laws};
use store_rows::StoreFail;

/// Replies of HTTP, in JSON.
struct JsonReplies;

impl QueryForm for JsonReplies {
    type Answer = Reply;

    ghost answer = { λ f a q. reply_of a (ask a q).answer };

    ghost formed = { λ f r. IsReadReply r };

    fn flat<K: Keeper, S: Sight>(
        &self,
        alloc: Global,
        draft: &mut Draft<'_, K>,
        layout: &Layout,
        sight: &S,
        now: i64,
        query: &Query,
    ) -> Result<Reply, StoreFail> {
        draft_laws::<K>();
        answer_flat(alloc, draft, layout, sight, now, query)
    }

    fn related<K: Keeper, S: Sight, R: Rights>(
        &self,
        alloc: Global,
        draft: &mut Draft<'_, K>,
        layouts: &[Layout],
        layout: &Layout,
        sight: &S,
        rights: &R,
        now: i64,
        query: &Query,
    ) -> Result<Reply, StoreFail> {
        answer_related(alloc, draft, layouts, layout, sight, rights, now, query)
    }

    // It is refused under the name that the query has.
    fn without_object(&self, alloc: Global, query: &Query) -> Result<Reply, StoreFail> {
        match query.tail.from.copy(alloc) {
            Ok(name) => refuse(alloc, Refusal::InvalidType { name }),
            Err(_) => Err(StoreFail::Memory),
        }
    }
}

// The query that a query string has.
fn query_in(alloc: Global, pairs: &Text) -> Result<Query, ParseFail>
    ensures { UnlessMemory result (λ read. reads_query (query_text pairs.now) ≡ read) }
{
    let text = query_text(alloc, pairs)?;
    parse(alloc, text.as_str())
}

// A text that spells no query is refused, with the byte at which the token begins that can't be there.
fn refuse_malformed(alloc: Global, place: usize) -> Result<Reply, StoreFail>
    ensures value { Refuses (MalformedQuery place) result }
    ensures form { IfOk result IsReadReply }
{
    refuse(alloc, Refusal::MalformedQuery { place })
}

/// Answers the query of a query string at this moment. Nothing is changed.
///
/// # Errors
///
/// `Keeper` if the keeper failed, `Memory` if out of memory, `Damaged` never if the rows of the caller's organisation stand for a
/// tenant.
pub(crate) fn answer_query<K: Keeper>(
    alloc: Global,
    draft: &mut Draft<'_, K>,
    caller: &Caller,
    now: u64,
    pairs: &Text,
) -> Result<Reply, StoreFail>
    requires { IsTrue (is_moment (pos now)) }
    ensures what { DraftTells K.state draft.old draft.new
        → (p : OrgPlan) (a : Asked) → StandsIn caller.now.org p (tables_of K.state draft.old) (Some a.tenant)
        → IsAsking caller.now now a → AnswersBy a (verdict_or a (query_or (reads_query (query_text pairs.now)))) result }
    ensures form { IfOk result IsReadReply }
    ensures calls { Calls K.state (shown_beside (further_to (reads_query (query_text pairs.now))) (removals_of K.state data_table draft.old))
        (ended result) draft.old draft.new }
{
    call_laws::<K>();
    match query_in(alloc, pairs) {
        Ok(query) => answer_named(alloc, draft, &JsonReplies, caller, moment(now), &query),
        Err(ParseFail::Malformed(place)) => refuse_malformed(alloc, place),
        Err(ParseFail::Memory) => Err(StoreFail::Memory),
    }
}

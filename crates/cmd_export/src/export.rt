//! What is exported.

ghost use Rattle.std.specs.Prelude.{◌≡◌, IfOk, IsTrue, Err, Ok, Some, pos};
ghost use Rattle.cmd_export.specs.Exports.{export_shown, exported, exported_query, exported_read, is_child};
ghost use Rattle.cmd_export.specs.inner.Unchanged.{IsExport, query_read, unchanged};
ghost use Rattle.std.specs.List.{list_any};
ghost use Rattle.store_kv.specs.Draft.{DraftTells, removals_of, tables_of};
ghost use Rattle.store_kv.specs.State.{data_table};
ghost use Rattle.model.specs.declared.refusal.Refusal.TheVariants.{InvalidSession};
ghost use Rattle.model.specs.Paths.{Asked};
ghost use Rattle.soql.specs.grammar.Spelling.{reads_query};
ghost use Rattle.store_abstraction.specs.Calls.{Calls, ended};
ghost use Rattle.store_abstraction.specs.Local.{StandsIn};
ghost use Rattle.store_abstraction.specs.Plan.{OrgPlan};
ghost use Rattle.model.specs.Asker.{IsAsking};
ghost use Rattle.model.specs.Shown.{further_to, shown_beside};
ghost use Rattle.base_value.specs.Dates.{is_moment};

use crate::lines::LineForm;
use base_grammar::ParseFail;
use base_value::Bytes;
use cmd_auth::Ask;
use model::{Caller, Refusal};
use query_run::answer_named;
use soql::{Item, Query};
use soql_parser::parse;
use std::alloc::{AllocError, Global};
use store_abstraction::{Judged, call_laws};
use store_kv::{Draft, Keeper};
use store_rows::StoreFail;

// Whether a child subquery is selected.
fn has_child(query: &Query) -> bool
    ensures { result ≡ list_any is_child query.now.select }
{
    query
        .select
        .as_slice()
        .iter()
        .any(|item| matches!(item, Item::Child { .. }))
}

// A moment of the calendar, as queries have it.
fn moment(now: u64) -> i64
    requires { IsTrue (is_moment (pos now)) }
    ensures { result ≡ pos now }
{
    now as i64
}

// The lines of a query that was read, or why it is refused.
fn export_query<K: Keeper>(
    alloc: Global,
    draft: &mut Draft<'_, K>,
    caller: &Caller,
    now: u64,
    query: &Query,
) -> Result<Result<Bytes, Refusal>, StoreFail>
    requires { IsTrue (is_moment (pos now)) }
    ensures what { DraftTells K.state draft.old draft.new
        → (p : OrgPlan) (a : Asked) → StandsIn caller.now.org p (tables_of K.state draft.old) (Some a.tenant)
        → IsAsking caller.now now a → IsExport (exported_query a query.now) result }
    ensures calls { Calls K.state (shown_beside (further_to (Ok query.now)) (removals_of K.state data_table draft.old)) (ended result)
        draft.old draft.new }
{
    call_laws::<K>();
    if has_child(query) {
        return Ok(Err(Refusal::SubqueryNotExported));
    }
    answer_named(alloc, draft, &LineForm, caller, moment(now), query)
}

// The query that a text spells, or why it is refused.
fn query_of(alloc: Global, text: &str) -> Result<Result<Query, Refusal>, AllocError>
    ensures { IfOk result (λ read. read ≡ query_read (reads_query text.now)) }
{
    match parse(alloc, text) {
        Ok(query) => Ok(Ok(query)),
        Err(ParseFail::Malformed(place)) => Ok(Err(Refusal::MalformedQuery { place })),
        Err(ParseFail::Memory) => Err(AllocError),
    }
}

// The lines of the query that a text is, or why it is refused.
fn export_text<K: Keeper>(
    alloc: Global,
    draft: &mut Draft<'_, K>,
    caller: &Caller,
    now: u64,
    text: &str,
) -> Result<Result<Bytes, Refusal>, StoreFail>
    requires { IsTrue (is_moment (pos now)) }
    ensures what { DraftTells K.state draft.old draft.new
        → (p : OrgPlan) (a : Asked) → StandsIn caller.now.org p (tables_of K.state draft.old) (Some a.tenant)
        → IsAsking caller.now now a → IsExport (exported_read a (reads_query text.now)) result }
    ensures calls { Calls K.state (shown_beside (further_to (reads_query text.now)) (removals_of K.state data_table draft.old)) (ended result)
        draft.old draft.new }
{
    call_laws::<K>();
    match query_of(alloc, text)? {
        Ok(query) => export_query(alloc, draft, caller, now, &query),
        Err(refusal) => Ok(Err(refusal)),
    }
}

// What a read comes to: nothing is changed.
fn unchanged(
    read: Result<Result<Bytes, Refusal>, StoreFail>,
) -> Result<Judged<Result<Bytes, Refusal>>, StoreFail>
    ensures { result ≡ unchanged read }
{
    match read {
        Ok(answer) => Ok(Judged::Same(answer)),
        Err(fail) => Err(fail),
    }
}

/// The export of a query.
#[derive(Drop)]
pub struct Export<'a> {
    /// The text of the query.
    pub query: &'a str,
}

impl Ask for Export<'_> {
    type Answer = Result<Bytes, Refusal>;

    ghost does = { λ e. exported e.query.now };

    ghost refused = { λ e. Err InvalidSession };

    ghost most = { 0 };

    ghost shown = { λ e. export_shown e.query.now };

    fn judge<K: Keeper>(
        &self,
        alloc: Global,
        draft: &mut Draft<'_, K>,
        caller: &Caller,
        now: u64,
    ) -> Result<Judged<Result<Bytes, Refusal>>, StoreFail> {
        call_laws::<K>();
        unchanged(export_text(alloc, draft, caller, now, self.query))
    }

    fn refuse(&self, _alloc: Global) -> Result<Result<Bytes, Refusal>, AllocError> {
        Ok(Err(Refusal::InvalidSession))
    }
}

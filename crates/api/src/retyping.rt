//! How far the change of a field's type is.

ghost use Rattle.std.specs.Prelude.{◌≡◌, IfErr, IfOk, Some};
ghost use Rattle.query_json.specs.Answers.{AnswersBy, IsReadReply};
ghost use Rattle.store_kv.specs.Draft.{DraftTells, tables_of};
ghost use Rattle.store_rows.specs.declared.fail.StoreFail.TheVariants.{Memory};
ghost use Rattle.model.specs.Paths.{Asked};
ghost use Rattle.model.specs.Retyping.{get_retype, state_of};
ghost use Rattle.model.specs.Tenant.{Job};
ghost use Rattle.model.specs.Verdict.{accept};
ghost use Rattle.retype_request.specs.States.{state_in};
ghost use Rattle.store_abstraction.specs.Calls.{Calls, ended};
ghost use Rattle.store_abstraction.specs.Local.{StandsIn};
ghost use Rattle.store_abstraction.specs.Plan.{OrgPlan};

use api_output::state_body;
use http::StatusCode;
use model::{Refusal, Reply};
use query_json::refuse;
use retype_request::{ChangeState, change_state};
use std::alloc::Global;
use store_abstraction::call_laws;
use store_kv::{Draft, Keeper};
use store_rows::StoreFail;

// The reply that says it.
fn state_reply(alloc: Global, state: &ChangeState) -> Result<Reply, StoreFail>
    ensures value { (a : Asked) (j : Job) → state.now ≡ state_in a.tenant j → AnswersBy a (accept (state_of a.tenant j) a.tenant) result }
    ensures form { IfOk result IsReadReply }
    ensures cause { IfErr result (λ e. e ≡ Memory) }
{
    let body = state_body(
        alloc,
        state.object.as_str(),
        state.field.as_str(),
        state.phase,
        state.outcome,
        state.failed,
    );
    match body {
        Ok(body) => Ok(Reply {
            status: StatusCode::OK,
            body,
        }),
        Err(_) => Err(StoreFail::Memory),
    }
}

/// Answers how far the change of a field's type is, whoever asks. Nothing is changed.
///
/// # Errors
///
/// `Keeper` if the keeper failed, `Memory` if out of memory, `Damaged` never if the organisation's rows stand for a tenant.
pub(crate) fn answer_state<K: Keeper>(
    alloc: Global,
    draft: &mut Draft<'_, K>,
    org: u32,
) -> Result<Reply, StoreFail>
    ensures what { DraftTells K.state draft.old draft.new
        → (p : OrgPlan) (a : Asked) → StandsIn org p (tables_of K.state draft.old) (Some a.tenant)
        → AnswersBy a (get_retype a.tenant) result }
    ensures form { IfOk result IsReadReply }
    ensures calls { Calls K.state 0 (ended result) draft.old draft.new }
{
    call_laws::<K>();
    match change_state(alloc, draft, org) {
        Ok(Some(state)) => state_reply(alloc, &state),
        Ok(None) => refuse(alloc, Refusal::NotFound),
        Err(fail) => Err(fail),
    }
}

//! What is told, as a reply.

ghost use Rattle.std.specs.Prelude.{◌≡◌, IfErr, IfOk, List, encode_utf8_all, ℕ};
ghost use Rattle.api_read.specs.Tells.{TellsSo};
ghost use Rattle.model.specs.Paths.{Asked};
ghost use Rattle.api_read.specs.inner.Ends.{EndsAs};
ghost use Rattle.model_reads.specs.Told.{Telling, telling_verdict, told_body};
ghost use Rattle.query_json.specs.Answers.{AnswersBy, IsReadReply};
ghost use Rattle.store_rows.specs.declared.fail.StoreFail.TheVariants.{Memory};

use base_json::Json;
use base_json_tree::print;
use base_value::Bytes;
use http::StatusCode;
use model::{REPLY_LIMIT, Refusal, Reply};
use query_json::refuse;
use std::alloc::Global;
use store_abstraction::EditFail;
use store_rows::StoreFail;

// The reply that has this body, unless it is too large.
fn body_reply(alloc: Global, body: Bytes) -> Result<Reply, StoreFail>
    ensures value { (a : Asked) (characters : List ℕ) → body ≡ encode_utf8_all characters
        → AnswersBy a (told_body a.tenant characters) result }
    ensures form { IfOk result IsReadReply }
    ensures cause { IfErr result (λ e. e ≡ Memory) }
{
    if body.as_slice().len() > REPLY_LIMIT {
        return refuse(alloc, Refusal::ReplyTooLarge);
    }
    Ok(Reply {
        status: StatusCode::OK,
        body,
    })
}

/// The reply that tells it, or why it isn't told.
pub(crate) fn reply_to(alloc: Global, told: Result<Json, EditFail>) -> Result<Reply, StoreFail>
    ensures value { (a : Asked) (telling : Telling) → TellsSo telling told → AnswersBy a (telling_verdict a.tenant telling) result }
    ensures form { IfOk result IsReadReply }
    ensures ends { EndsAs told result }
{
    match told {
        Ok(value) => match print(alloc, &value) {
            Ok(body) => body_reply(alloc, body),
            Err(_) => Err(StoreFail::Memory),
        },
        Err(EditFail::Refused(refusal)) => refuse(alloc, refusal),
        Err(EditFail::Store(fail)) => Err(fail),
    }
}

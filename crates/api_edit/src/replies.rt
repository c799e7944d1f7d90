//! The replies to edits.

ghost use Rattle.std.specs.Prelude.{◌≡◌, ◌⊎◌, Err, IfOk, IsTrue, if◌then◌else◌};
ghost use Rattle.api_edit.specs.Administration.{IsEditReply};
ghost use Rattle.api_edit.specs.inner.Edits.{IsAnswerTo, reply_made, reply_to};
ghost use Rattle.store_rows.specs.declared.fail.StoreFail.TheVariants.{Memory};
ghost use Rattle.model_requests.specs.declared.route.Route.{Route};
ghost use Rattle.store_abstraction.specs.Fails.{is_judged};

use crate::answer::Answer;
use api_output::{made_body, upserted_body};
use base_value::{Bytes, Id};
use http::StatusCode;
use model::Reply;
use std::alloc::{AllocError, Global};
use store_abstraction::{EditFail, Judged};
use store_rows::StoreFail;

// The reply that it is done.
fn done_reply(alloc: Global) -> Reply
    ensures { result ≡ reply_made (Answer.Done) }
{
    Reply {
        status: StatusCode::NO_CONTENT,
        body: Bytes::from_vec(Vec::new(alloc)),
    }
}

// The reply that has the id of what is new.
fn made_reply(alloc: Global, id: &Id) -> Result<Reply, AllocError>
    ensures { IfOk result (λ r. r ≡ reply_made (Answer.Made id.now)) }
{
    Ok(Reply {
        status: StatusCode::CREATED,
        body: made_body(alloc, id)?,
    })
}

// The status of the reply to an upsert.
fn upserted_status(created: bool) -> StatusCode
    ensures { result ≡ (if created then 201 else 200) }
{
    if created {
        StatusCode::CREATED
    } else {
        StatusCode::OK
    }
}

// The reply that has the id of what was made or found, and says whether it is new.
fn upserted_reply(alloc: Global, id: &Id, created: bool) -> Result<Reply, AllocError>
    ensures { IfOk result (λ r. r ≡ reply_made (Answer.Upserted id.now created)) }
{
    let body = upserted_body(alloc, id, created)?;
    Ok(Reply {
        status: upserted_status(created),
        body,
    })
}

// The reply to an edit that was made.
fn answered(alloc: Global, answer: &Answer) -> Result<Reply, AllocError>
    ensures { IfOk result (λ r. r ≡ reply_made answer.now) }
{
    match answer {
        Answer::Done => Ok(done_reply(alloc)),
        Answer::Made(id) => made_reply(alloc, id),
        Answer::Upserted { id, created } => upserted_reply(alloc, id, *created),
    }
}

/// The reply to an edit, which is a change if the edit was made.
///
/// # Errors
///
/// What the work on the tables stopped at, and `Memory` if out of memory.
pub(crate) fn reply_to(
    alloc: Global,
    edit: Result<Answer, EditFail>,
) -> Result<Judged<Reply>, StoreFail>
    ensures value { (result ≡ reply_to edit) ⊎ ((result ≡ Err Memory) × IsTrue (is_judged edit)) }
    ensures form { (route : Route) → IfOk edit (IsAnswerTo route) → IfOk result (IsEditReply route) }
{
    match edit {
        Ok(answer) => match answered(alloc, &answer) {
            Ok(reply) => Ok(Judged::Changed(reply)),
            Err(_) => Err(StoreFail::Memory),
        },
        Err(EditFail::Refused(refusal)) => match refusal.reply(alloc) {
            Ok(reply) => Ok(Judged::Same(reply)),
            Err(_) => Err(StoreFail::Memory),
        },
        Err(EditFail::Store(fail)) => Err(fail),
    }
}

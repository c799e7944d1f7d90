//! Replies in bytes, as they are written.

ghost use Rattle.std.specs.Prelude.{◌≡◌, ◌⊎◌, [], Err, IfOk, IsSome, Ok};
ghost use Rattle.http.specs.StatusCode.{reason_phrase};
ghost use Rattle.server_http.specs.Reply.{reply_to};
ghost use Rattle.store_rows.specs.declared.fail.StoreFail.TheVariants.{Memory};
ghost use Rattle.model.specs.Bodies.{damaged_body, refusal_body};
ghost use Rattle.model.specs.Refusals.{status_of};
ghost use Rattle.server.specs.Requests.{JudgedForm, head_refusal, in_bytes, last_reply, refusal_bytes};

use base_value::Bytes;
use http::StatusCode;
use model::{Refusal, Reply, damaged_body};
use server_http::{HttpFail, HttpMessage, reply_bytes, reply_bytes_to};
use std::alloc::{AllocError, Global};
use store_abstraction::Judged;
use store_rows::StoreFail;

// Why bytes are no message, as a refusal. `Failed` and `Memory` are none.
fn refusal_of(fail: HttpFail) -> Refusal
    ensures { result ≡ head_refusal fail }
{
    match fail {
        HttpFail::HeadTooLarge => Refusal::HeadTooLarge,
        HttpFail::TransferEncoding => Refusal::TransferEncoding,
        HttpFail::LengthRequired => Refusal::LengthRequired,
        HttpFail::BodyTooLarge => Refusal::BodyTooLarge,
        _ => Refusal::BadHead,
    }
}

// The bytes of a reply to a message.
fn bytes_to(
    alloc: Global,
    message: &HttpMessage,
    status: StatusCode,
    body: &[u8],
) -> Result<Bytes, AllocError>
    requires known { IsSome (reason_phrase status) }
    requires empty { status ≡ 204 → body.now ≡ [] }
    ensures { IfOk result (λ bytes. bytes ≡ reply_to message.now.method status body.now
        message.now.close) }
{
    reply_bytes_to(alloc, &message.method, status, body, message.close)
}

/// The reply to a message that refuses it so.
///
/// # Errors
///
/// If out of memory.
pub(crate) fn refusal_bytes_to(
    alloc: Global,
    message: &HttpMessage,
    refusal: &Refusal,
) -> Result<Bytes, AllocError>
    ensures { IfOk result (λ bytes. bytes ≡ reply_to message.now.method (status_of refusal.now)
        (refusal_body refusal.now) message.now.close) }
{
    let body = refusal.body(alloc)?;
    bytes_to(alloc, message, refusal.status(), body.as_slice())
}

// The reply that refuses so what is no message.
fn refusal_bytes(alloc: Global, refusal: &Refusal, close: bool) -> Result<Bytes, AllocError>
    ensures { IfOk result (λ bytes. bytes ≡ refusal_bytes refusal.now close) }
{
    let body = refusal.body(alloc)?;
    reply_bytes(alloc, refusal.status(), body.as_slice(), close)
}

/// The reply to bytes that are no message, the last of its connection.
///
/// # Errors
///
/// If out of memory.
pub(crate) fn last_reply(alloc: Global, fail: HttpFail) -> Result<Bytes, AllocError>
    ensures { IfOk result (λ bytes. bytes ≡ last_reply fail) }
{
    refusal_bytes(alloc, &refusal_of(fail), true)
}

/// The reply of damaged tables to a message.
///
/// # Errors
///
/// If out of memory.
pub(crate) fn damaged_bytes(alloc: Global, message: &HttpMessage) -> Result<Bytes, AllocError>
    ensures { IfOk result (λ bytes. bytes ≡ reply_to message.now.method 500 damaged_body
        message.now.close) }
{
    let body = damaged_body(alloc)?;
    let status = StatusCode::INTERNAL_SERVER_ERROR;
    bytes_to(alloc, message, status, body.as_slice())
}

/// The bytes of a judged reply to a message.
///
/// # Errors
///
/// `Memory` if out of memory.
pub(crate) fn judged_bytes(
    alloc: Global,
    message: &HttpMessage,
    judged: &Judged<Reply>,
) -> Result<Judged<Bytes>, StoreFail>
    requires { JudgedForm judged.now }
    ensures { (result ≡ Ok (in_bytes message.now.method message.now.close judged.now))
        ⊎ (result ≡ Err Memory) }
{
    match judged {
        Judged::Same(reply) => match bytes_to(alloc, message, reply.status, reply.body.as_slice()) {
            Ok(bytes) => Ok(Judged::Same(bytes)),
            Err(_) => Err(StoreFail::Memory),
        },
        Judged::Changed(reply) => match bytes_to(
            alloc,
            message,
            reply.status,
            reply.body.as_slice(),
        ) {
            Ok(bytes) => Ok(Judged::Changed(bytes)),
            Err(_) => Err(StoreFail::Memory),
        },
    }
}

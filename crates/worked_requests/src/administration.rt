//! Requests of the first administrator of organisation 1.

ghost use Rattle.std.specs.Prelude.{◌≡◌, IfOk, IfSome, true};
ghost use Rattle.api_edit.specs.Administration.{is_edit};

use crate::line::first_of;
use access_traits::Administrator;
use api_edit::administer;
use base_value::Text;
use model::{Caller, Reply, first_user_id};
use model_requests::Route;
use std::alloc::{AllocError, Global};
use store_abstraction::Judged;
use store_kv::{Draft, MemoryKeeper};
use store_rows::StoreFail;

// 2023-11-14T22:13:20Z.
const NOW: u64 = 1_700_000_000;

fn administrator() -> Caller {
    Caller {
        org: 1,
        user: first_user_id(),
        admin: true,
    }
}

// A request is made whole, or changes nothing.
fn reply_to(
    alloc: Global,
    keeper: &mut MemoryKeeper,
    route: &Route,
    body: &str,
) -> Result<Reply, StoreFail>
    requires { is_edit route.now ≡ true }
{
    let mut draft = Draft::new(alloc, keeper);
    match administer(
        alloc,
        &mut draft,
        &Administrator,
        &administrator(),
        NOW,
        route,
        body.as_bytes(),
    )? {
        Judged::Changed(reply) => {
            draft.commit(alloc)?;
            Ok(reply)
        }
        Judged::Same(reply) => Ok(reply),
    }
}

// The status and the body.
fn shown(alloc: Global, reply: &Reply) -> Result<String, AllocError> {
    let status = reply.status.as_u16();
    let body = str::from_utf8(reply.body.as_slice()).unwrap_or("?");
    let all = format!(in alloc; "{status} {body}")?;
    String::from_str(alloc, all.as_str().trim_end())
}

fn shown_reply(
    alloc: Global,
    keeper: &mut MemoryKeeper,
    route: &Route,
    body: &str,
) -> Result<String, StoreFail>
    requires { is_edit route.now ≡ true }
{
    let reply = reply_to(alloc, keeper, route, body)?;
    Ok(shown(alloc, &reply)?)
}

// What a request asks for, and its body.
type Asked<'a> = Result<(Route, &'a str), AllocError>;

// The object with which arguments begin, and the other arguments.
fn object_in(alloc: Global, arguments: &str) -> Result<(Text, &str), AllocError> {
    let (object, rest) = first_of(arguments);
    Ok((Text::from_str(alloc, object)?, rest))
}

// The object with which arguments begin, the id or the unique field behind it, and the other arguments.
fn record_in(alloc: Global, arguments: &str) -> Result<(Text, Text, &str), AllocError> {
    let (object, rest) = first_of(arguments);
    let (key, rest) = first_of(rest);
    let object = Text::from_str(alloc, object)?;
    let key = Text::from_str(alloc, key)?;
    Ok((object, key, rest))
}

fn access(alloc: Global, arguments: &str) -> Asked<'_>
    ensures { IfOk result (λ asked. is_edit asked.0 ≡ true) }
{
    let (object, body) = object_in(alloc, arguments)?;
    Ok((Route::SetObject { object }, body))
}

fn create(alloc: Global, arguments: &str) -> Asked<'_>
    ensures { IfOk result (λ asked. is_edit asked.0 ≡ true) }
{
    let (object, body) = object_in(alloc, arguments)?;
    Ok((Route::Create { object }, body))
}

fn update(alloc: Global, arguments: &str) -> Asked<'_>
    ensures { IfOk result (λ asked. is_edit asked.0 ≡ true) }
{
    let (object, key, body) = record_in(alloc, arguments)?;
    Ok((Route::Update { object, key }, body))
}

fn upsert(alloc: Global, arguments: &str) -> Asked<'_>
    ensures { IfOk result (λ asked. is_edit asked.0 ≡ true) }
{
    let (object, key, rest) = record_in(alloc, arguments)?;
    let (value, body) = first_of(rest);
    let value = Text::from_str(alloc, value)?;
    Ok((Route::Upsert { object, key, value }, body))
}

fn delete(alloc: Global, arguments: &str) -> Asked<'_>
    ensures { IfOk result (λ asked. is_edit asked.0 ≡ true) }
{
    let (object, key, body) = record_in(alloc, arguments)?;
    Ok((Route::Delete { object, key }, body))
}

// What a call asks for: of a new object, field or role, and of the beginning or the calling off of the change of a field's type, the
// arguments are the body; of another default access and of a new record they are the object and the body, of other values for a record
// the object, the record's id and the body, of an upsert the object, the unique field, the value and the body, and of a deletion the
// object, the record's id, and a body if it has one.
fn asked<'a>(alloc: Global, call: &str, arguments: &'a str) -> Option<Asked<'a>>
    ensures { IfSome result (λ made. IfOk made (λ asked. is_edit asked.0 ≡ true)) }
{
    match call {
        "object" => Some(Ok((Route::AddObject, arguments))),
        "field" => Some(Ok((Route::AddField, arguments))),
        "role" => Some(Ok((Route::AddRole, arguments))),
        "retype" => Some(Ok((Route::BeginRetype, arguments))),
        "cancel-retype" => Some(Ok((Route::CancelRetype, arguments))),
        "access" => Some(access(alloc, arguments)),
        "create" => Some(create(alloc, arguments)),
        "update" => Some(update(alloc, arguments)),
        "upsert" => Some(upsert(alloc, arguments)),
        "delete" => Some(delete(alloc, arguments)),
        _ => None,
    }
}

/// The status and the body of the reply to a request.
pub(crate) fn answer(
    alloc: Global,
    keeper: &mut MemoryKeeper,
    call: &str,
    arguments: &str,
) -> Result<String, StoreFail> {
    match asked(alloc, call, arguments) {
        Some(Ok((route, body))) => shown_reply(alloc, keeper, &route, body),
        Some(Err(_)) => Err(StoreFail::Memory),
        None => Ok(String::from_str(alloc, "no such call")?),
    }
}

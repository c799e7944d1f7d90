ghost use Rattle.std.specs.Prelude.{◌≡◌, ◌++◌, ◌≤◌, IfOk, IsSome, [], List, length, if◌then◌else◌, ℕ};
ghost use Rattle.std.specs.Option.{unwrap_or};
ghost use Rattle.std.specs.String.{string_bytes};
ghost use Rattle.http.specs.StatusCode.{reason_phrase};
ghost use Rattle.server_http.specs.Reply.{body_lines, close_line, is_head, no_memory, reply, reply_head, reply_to, store_failed};

use base_value::Bytes;
use http::{Method, StatusCode};
use std::alloc::{AllocError, Global};

// The phrase of a status.
fn phrase(status: StatusCode) -> &'static str
    ensures { result.now ≡ unwrap_or (reason_phrase status) [] }
{
    status.canonical_reason().unwrap_or("")
}

fn body_lines(alloc: Global, status: StatusCode, size: usize) -> Result<String, AllocError>
    ensures { IfOk result (λ text. string_bytes text ≡ body_lines status size) }
{
    if status == StatusCode::NO_CONTENT {
        return Ok(String::new(alloc));
    }
    format!(in alloc; "Content-Type: application/json;charset=UTF-8\r\nContent-Length: {size}\r\n")
}

fn close_line(close: bool) -> &'static str
    ensures { result.now ≡ close_line close }
{
    if close { "Connection: close\r\n" } else { "" }
}

fn reply_head(
    alloc: Global,
    status: StatusCode,
    size: usize,
    close: bool,
) -> Result<Vec<u8>, AllocError>
    ensures { IfOk result (λ head. head.items ≡ reply_head status size close) }
{
    let code = status.as_u16();
    let phrase = phrase(status);
    let lines = body_lines(alloc, status, size)?;
    let last = close_line(close);
    Ok(format!(in alloc; "HTTP/1.1 {code} {phrase}\r\n{lines}{last}\r\n")?.into_bytes())
}

/// The reply of a status that has a phrase, with a body of JSON, which is empty for 204.
///
/// # Errors
///
/// When out of memory.
pub fn reply_bytes(
    alloc: Global,
    status: StatusCode,
    body: &[u8],
    close: bool,
) -> Result<Bytes, AllocError>
    requires known { IsSome (reason_phrase status) }
    requires empty { status ≡ 204 → body.now ≡ [] }
    ensures { IfOk result (λ bytes. bytes ≡ reply status body.now close) }
{
    let mut bytes = reply_head(alloc, status, body.len(), close)?;
    bytes.extend_from_slice(body)?;
    Ok(Bytes::from_vec(bytes))
}

fn is_head(method: &Method) -> bool
    ensures { result ≡ is_head method.now }
{
    *method == Method::HEAD
}

/// The same as the reply to a message with this method: to HEAD its head alone.
///
/// # Errors
///
/// When out of memory.
pub fn reply_bytes_to(
    alloc: Global,
    method: &Method,
    status: StatusCode,
    body: &[u8],
    close: bool,
) -> Result<Bytes, AllocError>
    requires known { IsSome (reason_phrase status) }
    requires empty { status ≡ 204 → body.now ≡ [] }
    ensures { IfOk result (λ bytes. bytes ≡ reply_to method.now status body.now close) }
{
    let mut bytes = reply_head(alloc, status, body.len(), close)?;
    if !is_head(method) {
        bytes.extend_from_slice(body)?;
    }
    Ok(Bytes::from_vec(bytes))
}

// What of a whole reply, whose body has so many bytes, goes to a message with this method.
fn part_to(method: &Method, whole: &'static [u8], size: usize) -> &'static [u8]
    requires { size ≤ length whole.now }
    ensures { (head body : List ℕ) → whole.now ≡ head ++ body → length body ≡ size
        → result.now ≡ head ++ if◌then◌else◌ (is_head method.now) [] body }
{
    if is_head(method) {
        &whole[..whole.len() - size]
    } else {
        whole
    }
}

// The whole reply where the store failed.
fn unavailable(close: bool) -> &'static [u8]
    ensures { result.now ≡ reply 503 store_failed close }
{
    if close {
        b"HTTP/1.1 503 Service Unavailable\r\nContent-Type: application/json;charset=UTF-8\r\nContent-Length: 65\r\nConnection: close\r\n\r\n[{\"message\":\"the store failed\",\"errorCode\":\"SERVER_UNAVAILABLE\"}]"
    } else {
        b"HTTP/1.1 503 Service Unavailable\r\nContent-Type: application/json;charset=UTF-8\r\nContent-Length: 65\r\n\r\n[{\"message\":\"the store failed\",\"errorCode\":\"SERVER_UNAVAILABLE\"}]"
    }
}

/// The reply to a message with this method where the store failed. It takes no memory.
pub fn unavailable_to(method: &Method, close: bool) -> &'static [u8]
    ensures { result.now ≡ reply_to method.now 503 store_failed close }
{
    part_to(method, unavailable(close), 65)
}

/// The whole reply when out of memory. It takes no memory.
pub fn out_of_memory(close: bool) -> &'static [u8]
    ensures { result.now ≡ reply 507 no_memory close }
{
    if close {
        b"HTTP/1.1 507 Insufficient Storage\r\nContent-Type: application/json;charset=UTF-8\r\nContent-Length: 57\r\nConnection: close\r\n\r\n[{\"message\":\"out of memory\",\"errorCode\":\"OUT_OF_MEMORY\"}]"
    } else {
        b"HTTP/1.1 507 Insufficient Storage\r\nContent-Type: application/json;charset=UTF-8\r\nContent-Length: 57\r\n\r\n[{\"message\":\"out of memory\",\"errorCode\":\"OUT_OF_MEMORY\"}]"
    }
}

/// The reply to a message with this method when out of memory. It takes no memory.
pub fn out_of_memory_to(method: &Method, close: bool) -> &'static [u8]
    ensures { result.now ≡ reply_to method.now 507 no_memory close }
{
    part_to(method, out_of_memory(close), 57)
}

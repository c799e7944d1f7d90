ghost use Rattle.std.specs.Prelude.{◌≡◌, ◌⊎◌, length, map, take, All, IfOk, IfErr, Err, codes, IsUtf8};
ghost use Rattle.std.specs.Str.{chars};
ghost use Rattle.httparse.specs.Spans.{header_bytes, span_bytes, IsHeaderWithin, IsRequestWithin};
ghost use Rattle.server_http.specs.Framing.{bearer, body_size, credentials, values_named};
ghost use Rattle.server_http.specs.Parts.{HeadIs};
ghost use Rattle.server_http.specs.declared.fail.HttpFail.TheVariants.{Memory};

use crate::close::is_last;
use crate::fail::HttpFail;
use crate::framing::body_size;
use crate::lines::{Found, find, is_same};
use base_value::Text;
use http::Method;
use httparse::spans::{HeaderSpan, RequestSpans};
use std::alloc::{AllocError, Global};
use std::str::from_utf8;

/// What a head says.
#[derive(Drop)]
pub(crate) struct Head {
    pub(crate) method: Method,
    pub(crate) target: Text,
    pub(crate) bearer: Option<Text>,
    pub(crate) close: bool,
    /// How many bytes the head has.
    pub(crate) len: usize,
    /// How many bytes the body has.
    pub(crate) size: usize,
}

fn text_of(alloc: Global, bytes: &[u8]) -> Result<Text, AllocError>
    requires { IsUtf8 bytes.now }
    ensures { IfOk result (λ text. text ≡ chars bytes.now) }
{
    Text::from_str(alloc, from_utf8(bytes).unwrap())
}

// The method of a head. Its bytes are a token, so the one error is to be out of memory.
fn method_of(alloc: Global, bytes: &[u8]) -> Result<Method, AllocError>
    ensures { IfOk result (λ method. method ≡ bytes.now) }
{
    match Method::from_bytes(alloc, bytes) {
        Ok(method) => Ok(method),
        Err(_) => Err(AllocError),
    }
}

fn credentials(alloc: Global, value: &[u8]) -> Result<Option<Text>, AllocError>
    ensures { IfOk result (λ found. found ≡ credentials value.now) }
{
    if value.len() < 7 || !is_same(&value[..7], b"bearer ") {
        return Ok(None);
    }
    match from_utf8(&value[7..]) {
        Ok(text) => Ok(Some(Text::from_str(alloc, text)?)),
        Err(_) => Ok(None),
    }
}

fn bearer(alloc: Global, text: &[u8], lines: &[HeaderSpan]) -> Result<Option<Text>, AllocError>
    requires { All (IsHeaderWithin (length text.now)) lines.now }
    ensures { IfOk result (λ found. found ≡ bearer (values_named (codes "authorization") (map (header_bytes text.now) lines.now))) }
{
    match find(text, lines, b"authorization") {
        Found::One(span) => credentials(alloc, span.of(text)),
        _ => Ok(None),
    }
}

/// The parts of a head that count, or its first refusal.
pub(crate) fn parts(
    alloc: Global,
    text: &[u8],
    lines: &[HeaderSpan],
    spans: &RequestSpans,
) -> Result<Head, HttpFail>
    requires within { IsRequestWithin text.now lines.now spans.now }
    requires target { IsUtf8 (span_bytes text.now spans.now.path) }
    ensures ok { IfOk result (λ head. HeadIs (span_bytes text.now spans.now.method) (span_bytes text.now spans.now.path) (map (header_bytes text.now) (take spans.now.headers lines.now)) spans.now.version spans.now.len head) }
    ensures err { IfErr result (λ e. (e ≡ Memory) ⊎ (body_size (span_bytes text.now spans.now.method) (map (header_bytes text.now) (take spans.now.headers lines.now)) ≡ Err e)) }
{
    let size = body_size(text, lines, spans)?;
    let named = &lines[..spans.headers];
    Ok(Head {
        method: method_of(alloc, spans.method.of(text))?,
        target: text_of(alloc, spans.path.of(text))?,
        bearer: bearer(alloc, text, named)?,
        close: is_last(text, named, spans.version),
        len: spans.len,
        size,
    })
}

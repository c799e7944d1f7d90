ghost use Rattle.std.specs.Prelude.{◌≡◌, ◌+◌, ◌≤◌, ◌<◌, length, map, take, List, ℕ, min, IsTrue, true};
ghost use Rattle.std.specs.List.{list_any, list_all};
ghost use Rattle.std.specs.Char.{is_ascii_digit};
ghost use Rattle.std.specs.Str.{bytes_eq};
ghost use Rattle.std.specs.Str.Parse.{digits_value};
ghost use Rattle.httparse.specs.Spans.{header_bytes, span_bytes, IsRequestWithin, IsWithin};
ghost use Rattle.server_http.specs.Framing.{is_number, content_length, needs_length, checked_size, framed, body_size};
ghost use Rattle.server_http.specs.Found.{FoundIs, IsFoundWithin, CappedIs};

use crate::fail::HttpFail;
use crate::lines::{Found, find};
use httparse::spans::{HeaderSpan, RequestSpans};

// A body has at most so many bytes.
const BODY_LIMIT: usize = 4194304;

// A head has at most so many lines.
const LINE_LIMIT: usize = 64;

// The number that the digits write, or the first past the limit where it is greater.
fn number(digits: &[u8]) -> usize
    requires { is_number digits.now ≡ true }
    ensures { result ≡ min (digits_value 10 digits.now) (BODY_LIMIT + 1) }
{
    let mut value = 0usize;
    for digit in digits {
        value = (value * 10 + (*digit as usize).saturating_sub(48)).min(BODY_LIMIT + 1);
    }
    value
}

fn all_digits(value: &[u8]) -> bool
    ensures { result ≡ list_all is_ascii_digit value.now }
{
    value.iter().all(|b| b.is_ascii_digit())
}

fn is_digits(value: &[u8]) -> bool
    ensures { result ≡ is_number value.now }
{
    0 < value.len() && all_digits(value)
}

// The length of a body by the values of `Content-Length`, or the refusal of the head.
fn stated_size(text: &[u8], lengths: Found) -> Result<Option<usize>, HttpFail>
    requires { IsFoundWithin (length text.now) lengths }
    ensures { (values : List (List ℕ)) → FoundIs text.now values lengths → CappedIs (content_length values) result }
{
    match lengths {
        Found::None => Ok(None),
        Found::One(span) => {
            let value = span.of(text);
            if is_digits(value) {
                Ok(Some(number(value)))
            } else {
                Err(HttpFail::BadHead)
            }
        }
        Found::Several => Err(HttpFail::BadHead),
    }
}

fn wants_length(method: &[u8]) -> bool
    ensures { result ≡ needs_length method.now }
{
    method == b"POST".as_slice() || method == b"PATCH".as_slice()
}

// The length of the body, or the first refusal of a whole head.
pub(crate) fn body_size(
    text: &[u8],
    lines: &[HeaderSpan],
    spans: &RequestSpans,
) -> Result<usize, HttpFail>
    requires { IsRequestWithin text.now lines.now spans.now }
    ensures { result ≡ body_size (span_bytes text.now spans.now.method) (map (header_bytes text.now) (take spans.now.headers lines.now)) }
{
    let lines = &lines[..spans.headers];
    let size = stated_size(text, find(text, lines, b"content-length"))?;
    if lines.len() > LINE_LIMIT {
        return Err(HttpFail::HeadTooLarge);
    }
    if find(text, lines, b"transfer-encoding") != Found::None {
        return Err(HttpFail::TransferEncoding);
    }
    match size {
        None if wants_length(spans.method.of(text)) => Err(HttpFail::LengthRequired),
        None => Ok(0),
        Some(size) if size > BODY_LIMIT => Err(HttpFail::BodyTooLarge),
        Some(size) => Ok(size),
    }
}

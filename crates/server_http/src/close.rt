ghost use Rattle.std.specs.Prelude.{◌≡◌, ◌==◌, length, map, All};
ghost use Rattle.httparse.specs.Grammar.{is_ows, trim_ows};
ghost use Rattle.httparse.specs.Spans.{header_bytes, IsHeaderWithin};
ghost use Rattle.server_http.specs.Framing.{closes, has_close, is_close};

use crate::lines::is_same;
use httparse::spans::HeaderSpan;

fn is_blank(byte: u8) -> bool
    ensures { result ≡ is_ows byte }
{
    byte == b' ' || byte == b'\t'
}

// The bytes without the blanks at both ends.
fn trimmed(bytes: &[u8]) -> &[u8]
    ensures { result.now ≡ trim_ows bytes.now }
{
    let mut start = 0;
    let mut end = bytes.len();
    while start < end && is_blank(bytes[start]) {
        start += 1;
    }
    while start < end && is_blank(bytes[end - 1]) {
        end -= 1;
    }
    &bytes[start..end]
}

fn is_close(part: &[u8]) -> bool
    ensures { result ≡ is_close part.now }
{
    is_same(trimmed(part), b"close")
}

// Whether one of the parts between commas is the word `close`.
fn has_close(value: &[u8]) -> bool
    ensures { result ≡ has_close value.now }
{
    value.split(|byte| *byte == b',').any(|part| is_close(part))
}

// Whether the connection ends behind the message.
pub(crate) fn is_last(text: &[u8], lines: &[HeaderSpan], version: u8) -> bool
    requires { All (IsHeaderWithin (length text.now)) lines.now }
    ensures { result ≡ closes version (map (header_bytes text.now) lines.now) }
{
    if version == 0 {
        return true;
    }
    for line in lines {
        if is_same(line.name.of(text), b"connection") && has_close(line.value.of(text)) {
            return true;
        }
    }
    false
}

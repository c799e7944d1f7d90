ghost use Rattle.std.specs.Prelude.{◌≡◌, ◌≤◌, length, map, All};
ghost use Rattle.std.specs.Str.{str_eq_ignore_ascii_case};
ghost use Rattle.httparse.specs.Spans.{header_bytes, IsHeaderWithin};
ghost use Rattle.server_http.specs.Framing.{values_named};
ghost use Rattle.server_http.specs.Found.{FoundIs, found_after};

use httparse::spans::{HeaderSpan, Span};

/// The values of the lines with one name: none, one, or several.
#[derive(Clone, Copy, Debug, PartialEq, Eq)]
pub(crate) enum Found {
    None,
    One(Span),
    Several,
}

// Whether two names are equal, case ignored.
pub(crate) fn is_same(a: &[u8], b: &[u8]) -> bool
    ensures { result ≡ str_eq_ignore_ascii_case a.now b.now }
{
    a.eq_ignore_ascii_case(b)
}

// What is found with one more line.
fn with_line(bytes: &[u8], name: &[u8], found: Found, line: &HeaderSpan) -> Found
    requires { IsHeaderWithin (length bytes.now) line.now }
    ensures { result ≡ found_after bytes.now name.now found line.now }
{
    if is_same(line.name.of(bytes), name) {
        match found {
            Found::None => Found::One(line.value),
            _ => Found::Several,
        }
    } else {
        found
    }
}

// The values of the lines with a name.
pub(crate) fn find(bytes: &[u8], lines: &[HeaderSpan], name: &[u8]) -> Found
    requires { All (IsHeaderWithin (length bytes.now)) lines.now }
    ensures { FoundIs bytes.now (values_named name.now (map (header_bytes bytes.now) lines.now)) result }
{
    let mut found = Found::None;
    for line in lines {
        found = with_line(bytes, name, found, line);
    }
    found
}

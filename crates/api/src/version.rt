ghost use Rattle.std.specs.Prelude.{◌≡◌, ◌≢◌, ◌++◌, IfOk, IsOk, MatchOption, OnSome, codes};
ghost use Rattle.std.specs.Str.{chars};
ghost use Rattle.std.specs.Cow.{cow_str_bytes};
ghost use Rattle.model_requests.specs.Routing.{as_served, is_part_end, is_version};

use std::alloc::{AllocError, Global};
use std::borrow::CowStr;

// Whether two digits spell the number of a version that is served: 26 to 99.
fn is_version(first: u8, second: u8) -> bool
    ensures { result ≡ is_version first second }
{
    first.is_ascii_digit() && second.is_ascii_digit() && 10 * (first - b'0') + (second - b'0') >= 26
}

// Whether a part of a path ends before this text.
fn is_part_end(text: &str) -> bool
    ensures { result ≡ is_part_end text.now }
{
    text.is_empty() || text.starts_with('/')
}

// What is behind the version of a path, if that is another one than 59 and is served as version 59.
fn behind_version(path: &str) -> Option<&str>
    ensures served { MatchOption result (as_served path.now ≡ path.now) (λ rest. as_served path.now ≡ codes "/services/data/v59.0" ++ rest.now) }
    ensures other { OnSome result (as_served (chars path.now) ≢ chars path.now) }
{
    let version = path.strip_prefix("/services/data/v")?;
    let (digits, rest) = version.split_once(".0")?;
    if digits == "59" {
        return None;
    }
    match digits.as_bytes() {
        [first, second] if is_version(*first, *second) && is_part_end(rest) => Some(rest),
        _ => None,
    }
}

/// The path that is served for a path: where that has a version from 26 to 99, version 59 stands in its place.
///
/// # Errors
///
/// When out of memory. A path that is served as it is takes none.
pub fn as_served(alloc: Global, path: &str) -> Result<CowStr<'_>, AllocError>
    ensures path { IfOk result (λ served. chars (cow_str_bytes served) ≡ as_served (chars path.now)) }
    ensures same { as_served (chars path.now) ≡ chars path.now → IsOk result }
{
    let Some(rest) = behind_version(path) else {
        return Ok(CowStr::Borrowed(path));
    };
    let mut served = String::from_str(alloc, "/services/data/v59.0")?;
    served.push_str(rest)?;
    Ok(CowStr::Owned(served))
}

ghost use Rattle.std.specs.Prelude.{◌≡◌, IfOk, List, drop, map, ℕ};
ghost use Rattle.std.specs.Str.{chars};
ghost use Rattle.model_requests.specs.Routing.{part, path_of, query_of, routed_as};
ghost use Rattle.api.specs.router.Cuts.{AllUtf8};
ghost use Rattle.api.specs.router.Pick.{router_rows};
ghost use Rattle.api.specs.inner.Kinds.{kind_in, kind_lines, routed_at};
ghost use Rattle.api.specs.inner.Places.{table, taken};

use crate::methods::kind_at;
use crate::place::Place;
use base_value::Text;
use http::Method;
use matchit::{ParamsIter, Router};
use model_requests::Routed;
use std::alloc::{AllocError, Global};

// The next part of a path; without one it is empty.
fn next_part(alloc: Global, parts: &mut ParamsIter<'_, '_, '_>) -> Result<Text, AllocError>
    ensures text { AllUtf8 (taken parts.old) → IfOk result (λ t. t ≡ part 0 (map chars (taken parts.old))) }
    ensures rest { parts.new ≡ drop 1 parts.old }
{
    if parts.is_empty() {
        return Ok(Text::from_string(String::new(alloc)));
    }
    match parts.next() {
        Some((_name, text)) => Text::from_str(alloc, text),
        None => Ok(Text::from_string(String::new(alloc))),
    }
}

// What a method comes to at a place, with a query string and the parts of the path.
fn route_at(
    alloc: Global,
    place: Place,
    method: &Method,
    query: &str,
    mut parts: ParamsIter<'_, '_, '_>,
) -> Result<Routed, AllocError>
    ensures { AllUtf8 (taken parts.entry) → IfOk result
        (λ r. r ≡ routed_at (kind_in method.now place kind_lines) (chars query.now) (map chars (taken parts.entry))) }
{
    let Some(kind) = kind_at(place, method) else {
        return Ok(Routed::NotAllowed);
    };
    let pairs = Text::from_str(alloc, query)?;
    let first = next_part(alloc, &mut parts)?;
    let second = next_part(alloc, &mut parts)?;
    let third = next_part(alloc, &mut parts)?;
    Ok(kind.routed(pairs, first, second, third))
}

/// The request of the line of the table that has a method and a path, with a query string, by the router of the table.
///
/// # Errors
///
/// When out of memory.
pub fn route_by(
    alloc: Global,
    router: &Router<Place>,
    method: &Method,
    path: &str,
    query: &str,
) -> Result<Routed, AllocError>
    requires { router.now ≡ router_rows table }
    ensures { (target : List ℕ) → chars path.now ≡ path_of target → chars query.now ≡ query_of target
        → IfOk result (λ r. r ≡ routed_as method.now target) }
{
    match router.at(path) {
        Ok(found) => route_at(alloc, *found.value, method, query, found.params.iter()),
        Err(_) => Ok(Routed::NotFound),
    }
}

ghost use Rattle.std.specs.Prelude.{◌≡◌};
ghost use Rattle.std.specs.List.{before_first};
ghost use Rattle.std.specs.Str.{chars};
ghost use Rattle.model_requests.specs.Routing.{is_question, query_of, without_slash};

// A path without one slash at its end.
fn without_slash(path: &str) -> &str
    ensures { chars result.now ≡ without_slash (chars path.now) }
{
    match path.strip_suffix('/') {
        Some(front) => front,
        None => path,
    }
}

/// The path of a target, and its query string: what is before the first `?`, without one slash at its end, and what is behind it.
pub fn path_and_query(target: &str) -> (&str, &str)
    ensures path { chars result.0.now ≡ without_slash (before_first is_question (chars target.now)) }
    ensures query { chars result.1.now ≡ query_of (chars target.now) }
{
    match target.split_once('?') {
        Some((path, query)) => (without_slash(path), query),
        None => (without_slash(target), ""),
    }
}

//! Principals, and the sources of sharing rules.

ghost use Rattle.std.specs.Prelude.{◌≡◌, ◌++◌, ◌∷◌, OnOk};
ghost use Rattle.store_codec.specs.Composed.{principal, principal_at, FitsPrincipal, source, source_at, FitsSource};

use crate::fail::CodecFail;
use crate::part::Part;
use base_value::{Id, Principal, RuleSource, Text};
use std::alloc::{AllocError, Global};

// A kind's number and an id.
fn put_named(out: &mut Vec<u8>, kind: u8, id: &Id) -> Result<(), AllocError>
    ensures { OnOk result (out.new.items ≡ out.old.items ++ kind ∷ id.now) }
{
    out.push(kind)?;
    out.extend_from_slice(id.as_bytes())?;
    Ok(())
}

impl Part for Principal {
    ghost spell = { principal };

    ghost Fits = { FitsPrincipal };

    ghost reads = { principal_at };

    fn put(&self, out: &mut Vec<u8>) -> Result<(), AllocError> {
        match self {
            Principal::User(id) => put_named(out, 0, id),
            Principal::Role(id) => put_named(out, 1, id),
            Principal::Subordinates(id) => put_named(out, 2, id),
            Principal::Group(id) => put_named(out, 3, id),
        }
    }

    #[tactic(auto, unfolding(crate::specs::Composed::principal_at))]
    fn take(alloc: Global, bytes: &[u8]) -> Result<(Principal, &[u8]), CodecFail> {
        let (kind, rest) = match bytes {
            [] => return Err(CodecFail::Damaged),
            [kind, rest @ ..] => (*kind, rest),
        };
        // A `match`, since `?` gets no proof where an id stands beside a reference.
        let (id, rest) = match Id::take(alloc, rest) {
            Ok(found) => found,
            Err(fail) => return Err(fail),
        };
        match kind {
            0 => Ok((Principal::User(id), rest)),
            1 => Ok((Principal::Role(id), rest)),
            2 => Ok((Principal::Subordinates(id), rest)),
            3 => Ok((Principal::Group(id), rest)),
            _ => Err(CodecFail::Damaged),
        }
    }
}

impl Part for RuleSource {
    ghost spell = { source };

    ghost Fits = { FitsSource };

    ghost reads = { source_at };

    fn put(&self, out: &mut Vec<u8>) -> Result<(), AllocError> {
        match self {
            RuleSource::Owner(named) => {
                out.push(0)?;
                named.put(out)
            }
            RuleSource::Criteria(formula) => {
                out.push(1)?;
                formula.put(out)
            }
        }
    }

    #[tactic(auto, unfolding(crate::specs::Composed::source_at))]
    fn take(alloc: Global, bytes: &[u8]) -> Result<(RuleSource, &[u8]), CodecFail> {
        match bytes {
            [0, rest @ ..] => match Principal::take(alloc, rest) {
                Ok((named, rest)) => Ok((RuleSource::Owner(named), rest)),
                Err(fail) => Err(fail),
            },
            [1, rest @ ..] => match Text::take(alloc, rest) {
                Ok((formula, rest)) => Ok((RuleSource::Criteria(formula), rest)),
                Err(fail) => Err(fail),
            },
            _ => Err(CodecFail::Damaged),
        }
    }
}

//! Names that are tested and ordered by.

ghost use Rattle.std.specs.Prelude.{◌≡◌, IfOk};
ghost use Rattle.model.specs.Rules.{first_of};
ghost use Rattle.query_check.specs.Rules as spec;

use crate::rules::{Rule, no_field, tests_refusal};
use model::Refusal;
use soql::{OrderKey, Tail};
use std::alloc::{AllocError, Global};
use store_abstraction::Layout;

fn keys_refusal(
    alloc: Global,
    layouts: &[Layout],
    layout: &Layout,
    keys: &[OrderKey],
) -> Result<Option<Refusal>, AllocError>
    ensures { IfOk result (λ r. r ≡ first_of (spec.key_rule layouts.now layout.now) keys.now) }
{
    for key in keys {
        if let Some(refusal) = no_field(alloc, layouts, layout, &key.path)? {
            return Ok(Some(refusal));
        }
    }
    Ok(None)
}

/// INVALID_FIELD: what is tested, then what is ordered by.
///
/// # Errors
///
/// When out of memory.
pub(crate) fn tail_refusal(
    alloc: Global,
    layouts: &[Layout],
    layout: &Layout,
    tail: &Tail,
) -> Result<Option<Refusal>, AllocError>
    ensures { IfOk result (λ r. r ≡ spec.tail_rule layouts.now layout.now tail.now) }
{
    if let Some(refusal) = tests_refusal(alloc, layouts, layout, Rule::Name, &tail.condition)? {
        return Ok(Some(refusal));
    }
    keys_refusal(alloc, layouts, layout, tail.order.as_slice())
}
